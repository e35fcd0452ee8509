//! The commands that add an event to the journal.

ghost use Rattle.std.specs.Prelude.{◌≡◌, false};
ghost use Rattle.rs_face.specs.Courses.{course};
ghost use Rattle.rs_talk.specs.declared.change.Change.TheVariants as change;
ghost use Rattle.rs_cache.specs.declared.event.Event.TheVariants as event;
ghost use Rattle.rs_cache.specs.Refusals.{remove_refusal, resolve_refusal};
ghost use Rattle.rs_client.specs.Additions.{AddsEvent};
ghost use Rattle.rs_client.specs.Connecting.{Connects};
ghost use Rattle.rs_client.specs.Putting.{Puts};

use crate::client_fault::ClientFault;
use crate::opening::open_connected;
use crate::source_body::read_body;
use rs_cache::{Client, Resolve};
use rs_face::{Keeper, Source};
use rs_path::{Kind, Path};
use rs_scope::Scopes;
use rs_talk::{Bearer, Root};
use std::alloc::Global;

/// `connect`: connects the client of an empty journal to an account.
///
/// The first that applies is answered: the first wrong row; `Connected` where the journal isn't empty. `KeeperFailed`
/// comes only where the keeper's count of faults rose. After each fault the rows are as before.
pub fn connect<K: Keeper>(
    alloc: Global,
    keeper: &mut K,
    root: &Root,
    token: &Bearer,
    scopes: &Scopes,
) -> Result<(), ClientFault>
    ensures connects { Connects root.now token.now scopes.now (course K.rows K.faults keeper.old keeper.new) result }
{
    let mut client = Client::open(alloc, keeper)?;
    client.connect(keeper, root, token, scopes)?;
    Ok(())
}

/// `put`: the bytes of the source, up to its end, are the document from now on.
///
/// The first that applies is answered: the first wrong row; `NotConnected`; `SourceFailed` and `TooLong`, whichever comes
/// first; `OutOfScope`; `Clash`; `JournalFull`. `KeeperFailed` and `SourceFailed` come only where the count of faults of
/// the one or the other rose. After each fault the rows are as before, and after the first two the source too.
pub fn put<K: Keeper, S: Source>(
    alloc: Global,
    keeper: &mut K,
    source: &mut S,
    path: &Path,
    kind: &Kind,
) -> Result<(), ClientFault>
    requires document { path.now.folder ≡ false }
    ensures puts { Puts path.now kind.now (course K.rows K.faults keeper.old keeper.new) (course S.left S.faults source.old source.new) result }
{
    let mut client = open_connected(alloc, keeper)?;
    let body = read_body(alloc, source)?;
    client.edit(keeper, path, kind, &body)?;
    Ok(())
}

/// `rm`: there is no such document from now on.
///
/// The first that applies is answered: the first wrong row; `NotConnected`; `OutOfScope`; `NotThere`; `JournalFull`.
/// `KeeperFailed` comes only where the keeper's count of faults rose. After each fault the rows are as before.
pub fn remove<K: Keeper>(alloc: Global, keeper: &mut K, path: &Path) -> Result<(), ClientFault>
    requires document { path.now.folder ≡ false }
    ensures removes { AddsEvent (λ s. remove_refusal s path.now) (event.Edit path.now change.Remove) (course K.rows K.faults keeper.old keeper.new) result }
{
    let mut client = open_connected(alloc, keeper)?;
    client.remove(keeper, path)?;
    Ok(())
}

/// `resolve`: the change of a conflict waits again, or is given up.
///
/// The first that applies is answered: the first wrong row; `NotConnected`; `NoConflict`; `Clash`; `JournalFull`.
/// `KeeperFailed` comes only where the keeper's count of faults rose. After each fault the rows are as before.
pub fn resolve<K: Keeper>(
    alloc: Global,
    keeper: &mut K,
    n: u64,
    how: Resolve,
) -> Result<(), ClientFault>
    ensures resolves { AddsEvent (λ s. resolve_refusal s n how) (event.Resolved n how) (course K.rows K.faults keeper.old keeper.new) result }
{
    let mut client = open_connected(alloc, keeper)?;
    client.resolve(keeper, n, how)?;
    Ok(())
}
