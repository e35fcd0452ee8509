//! The calls of a client: the row that each adds, and the first cause that it is refused for.

ghost use Rattle.std.specs.Prelude.{◌≡◌};

use crate::spelling::{ROOT, keeper_of, row_of};
use rs_cache::{CacheFault, Client, Resolve};
use rs_face::{Keeper, MemKeeper};
use rs_path::{Bytes, Kind, Path};
use rs_scope::Scopes;
use rs_talk::{Bearer, Root};
use std::alloc::Global;
use std::process::Abort;
use std::test::Fail;

// A journal, a call as the event that it makes, and its answer: `done`, or why not.
const CALLS: &str = r#"
                                                    | connect *:rw      | done
connect *:rw                                        | connect *:rw      | connected
connect *:rw; edit /a put v                         | connect notes:r   | connected
connect *:rw                                        | edit /a put v     | done
connect *:rw; edit /a put v                         | edit /a put v     | done
connect notes:rw                                    | edit /a put v     | out of scope
connect notes:rw                                    | edit /notes put v | out of scope
connect notes:rw                                    | edit /notes/a put v | done
connect *:rw; edit /a put v                         | edit /a/b put w   | clash /a
connect *:rw; edit /a/b/c put v                     | edit /a/b put w   | clash /a/b/c
connect *:rw; edit /a/b/d put v; edit /a/b/c put v  | edit /a put w     | clash /a/b/c
connect *:rw; edit /a put v; edit /a remove         | edit /a/b put w   | done
connect *:rw; pulled /a 3 v                         | edit /a/b put w   | clash /a
connect *:rw; pulled /a 3 v; edit /a remove         | edit /a/b put w   | done
connect *:rw; pulled /a/b 3 v                       | edit /a put w     | clash /a/b
connect notes:rw; edit /notes/a put v               | edit /a/b put w   | out of scope
connect *:rw                                        | edit /a remove    | not there
connect *:rw; edit /a put v                         | edit /a remove    | done
connect *:rw; edit /a put v; edit /a remove         | edit /a remove    | not there
connect *:rw; pulled /a 3 v                         | edit /a remove    | done
connect *:rw; edit /a/b put v                       | edit /a remove    | not there
connect notes:rw                                    | edit /a remove    | out of scope
connect *:rw                                        | resolved 1 keep   | no conflict 1
connect *:rw; edit /a put v; conflict /a 5 w        | resolved 0 drop   | no conflict 0
connect *:rw; edit /a put v; conflict /a 5 w        | resolved 2 drop   | no conflict 2
connect *:rw; edit /a put v; conflict /a 5 w        | resolved 1 keep   | done
connect *:rw; edit /a put v; conflict /a 5 w        | resolved 1 drop   | done
connect *:rw; edit /a put v; conflict /a 5 w; resolved 1 drop | resolved 1 keep | no conflict 1
connect *:rw; edit /a put v; conflict /a 5 w; gone /a; edit /a/b put x | resolved 1 keep | clash /a/b
connect *:rw; edit /a put v; conflict /a 5 w; gone /a; edit /a/b put x | resolved 1 drop | done
connect *:rw; pulled /a 5 w; edit /a remove; conflict /a 6 x; gone /a; edit /a/b put x | resolved 1 keep | done
"#;

// ---- calls

fn connect<K: Keeper>(
    alloc: Global,
    client: &mut Client,
    keeper: &mut K,
    scopes: &str,
) -> Result<Result<(), CacheFault>, Fail>
    requires len { K.row_count keeper.old ≡ client.old.rows }
{
    let root = Root::read(alloc, ROOT)?;
    let token = Bearer::read(alloc, b"T")?.ok_or("no token")?;
    let scopes = Scopes::read(alloc, scopes.as_bytes())?;
    Ok(client.connect(keeper, &root, &token, &scopes))
}

fn edit<K: Keeper>(
    alloc: Global,
    client: &mut Client,
    keeper: &mut K,
    parts: &str,
) -> Result<Result<(), CacheFault>, Fail>
    requires len { K.row_count keeper.old ≡ client.old.rows }
{
    let (path, change) = parts.split_once(' ').ok_or("no change")?;
    let path = Path::read_plain(alloc, path.as_bytes())?;
    if path.is_folder() || !client.is_connected() {
        return Err("no document to edit".into());
    }
    let Some((_, body)) = change.split_once(' ') else {
        return Ok(client.remove(keeper, &path));
    };
    let kind = Kind::read(alloc, b"text/plain")?.ok_or("no content type")?;
    let bytes = body.as_bytes().to_vec(alloc)?;
    if 100 < bytes.len() {
        return Err("a long body".into());
    }
    let body = Bytes::of(bytes);
    Ok(client.edit(keeper, &path, &kind, &body))
}

fn resolve<K: Keeper>(
    client: &mut Client,
    keeper: &mut K,
    parts: &str,
) -> Result<Result<(), CacheFault>, Fail>
    requires len { K.row_count keeper.old ≡ client.old.rows }
{
    let (n, how) = parts.split_once(' ').ok_or("no way to resolve")?;
    let n = n.parse::<u64>().ok().ok_or("no number")?;
    if !client.is_connected() {
        return Err("not connected".into());
    }
    let how = if how == "keep" {
        Resolve::Keep
    } else {
        Resolve::Drop
    };
    Ok(client.resolve(keeper, n, how))
}

fn call<K: Keeper>(
    alloc: Global,
    client: &mut Client,
    keeper: &mut K,
    event: &str,
) -> Result<Result<(), CacheFault>, Fail>
    requires len { K.row_count keeper.old ≡ client.old.rows }
{
    let (name, parts) = event.split_once(' ').ok_or("no call")?;
    match name {
        "connect" => connect(alloc, client, keeper, parts),
        "edit" => edit(alloc, client, keeper, parts),
        _ => resolve(client, keeper, parts),
    }
}

// ---- answers as texts

fn push_at(out: &mut Vec<u8>, word: &[u8], path: &Path) -> Result<(), Fail> {
    out.extend_from_slice(word)?;
    path.write_plain(out)?;
    Ok(())
}

fn word_of(alloc: Global, answer: &Result<(), CacheFault>) -> Result<Vec<u8>, Fail> {
    let mut out = Vec::new(alloc);
    match answer {
        Ok(()) => out.extend_from_slice(b"done")?,
        Err(CacheFault::Connected) => out.extend_from_slice(b"connected")?,
        Err(CacheFault::Clash { path }) => push_at(&mut out, b"clash ", path)?,
        Err(CacheFault::NotThere { .. }) => out.extend_from_slice(b"not there")?,
        Err(CacheFault::OutOfScope { .. }) => out.extend_from_slice(b"out of scope")?,
        Err(CacheFault::NoConflict { n }) => {
            let text = format!(in alloc; "no conflict {n}")?;
            out.extend_from_slice(text.as_bytes())?;
        }
        Err(CacheFault::JournalFull) => out.extend_from_slice(b"full")?,
        Err(CacheFault::KeeperFailed) => out.extend_from_slice(b"failed")?,
        Err(CacheFault::NoMemory) => out.extend_from_slice(b"no memory")?,
    }
    Ok(out)
}

// The rows are those of the journal, and behind them that of the event where it was done.
fn check_rows(
    rt: &impl Abort,
    alloc: Global,
    rows: &[Bytes],
    journal: &str,
    done: &str,
) -> Result<(), Fail> {
    let mut wanted = keeper_of(alloc, journal)?;
    if !done.is_empty() {
        wanted.append(row_of(alloc, done)?.as_slice())?;
    }
    assert_eq!(rt; rows, wanted.rows(), "{journal} {done}");
    Ok(())
}

fn check(rt: &impl Abort, alloc: Global, line: &str) -> Result<(), Fail> {
    let mut cells = line.split('|');
    let journal = cells.next().ok_or("no journal")?;
    let event = cells.next().ok_or("no call")?.trim();
    let wanted = cells.next().ok_or("no answer")?.trim();
    let mut keeper = keeper_of(alloc, journal)?;
    let mut client = Client::open(alloc, &mut keeper)?;
    let before = client.summary();
    let answer = call(alloc, &mut client, &mut keeper, event)?;
    let told = word_of(alloc, &answer)?;
    assert_eq!(rt; told.as_slice(), wanted.as_bytes(), "{line}");
    let done = if answer.is_ok() { event } else { "" };
    check_rows(rt, alloc, keeper.rows(), journal, done)?;
    let reopened = Client::open(alloc, &mut keeper)?;
    assert_eq!(rt; client.summary(), reopened.summary(), "{line}");
    if answer.is_err() {
        assert_eq!(rt; client.summary(), before, "{line}");
    }
    Ok(())
}

#[test]
fn a_call_adds_its_row_or_is_refused(rt: HostRuntime) -> Result<(), Fail> {
    for line in CALLS.trim_matches('\n').split('\n') {
        check(&rt, rt.alloc(), line)?;
    }
    Ok(())
}

// The first append of the keeper fails, and the next doesn't.
#[test]
fn a_call_whose_row_is_not_kept_leaves_all_as_it_was(rt: HostRuntime) -> Result<(), Fail> {
    let alloc = rt.alloc();
    let mut failing = Vec::new(alloc);
    failing.push(1)?;
    let mut keeper = MemKeeper::new(Vec::new(alloc), failing);
    let mut client = Client::open(alloc, &mut keeper)?;
    let answer = connect(alloc, &mut client, &mut keeper, "*:rw")?;
    let told = word_of(alloc, &answer)?;
    assert_eq!(rt; told.as_slice(), b"failed".as_slice());
    assert_eq!(rt; client.is_connected(), false);
    check_rows(&rt, alloc, keeper.rows(), "", "")?;
    let again = Client::open(alloc, &mut keeper)?;
    assert_eq!(rt; again.is_connected(), false);
    Ok(())
}
