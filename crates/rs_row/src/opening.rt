//! Rows opened one after another.

ghost use Rattle.std.specs.Prelude.{◌≡◌, ◌+◌, ◌<◌, ◌^◌, ℕ, List, [], length, IfOk, IfSome};
ghost use Rattle.rs_face.specs.Causes.{HasCause};
ghost use Rattle.rs_row.specs.RowOpenings.{texts_of, OpensKeptRows, TakesRun};

use crate::open_fault::OpenFault;
use crate::refusal::TakeFault;
use rs_face::{KeepFault, Keeper};
use std::alloc::Global;

/// What rows make, oldest first, one row after another: a user's state, a client's journal.
pub trait Replayed: Drop {
    ghost use Rattle.std.specs.Prelude.{◌≡◌, ℕ, List, Option};
    ghost use Rattle.rs_row.specs.declared.refusal.Refusal.{Refusal};
    ghost use Rattle.rs_row.specs.RowOpenings.{TakesNext};

    /// What a row is refused for behind others, as these rows alone decide.
    ghost refusal: { List (List ℕ) → List ℕ → Option Refusal };

    /// This is what the rows make.
    ghost made_of: { Self → List (List ℕ) → Type 0 };

    /// What it has that no row changes, as a quota.
    ghost setting: { Self → ℕ } = { λ _. 0 };

    /// Takes one row more. After an error nothing is known but the error, and that what no row changes is as before.
    fn take_row(&mut self, row: &[u8]) -> Result<(), TakeFault>
        requires made { (rows : List (List ℕ)) × made_of self.old rows }
        ensures taken { (rows : List (List ℕ)) → made_of self.old rows
            → TakesNext refusal made_of self.new result rows row.now }
        ensures setting { setting self.new ≡ setting self.old };
}

/// What the keeper's rows make, from what no rows make. They are read in their order, as many at once as the keeper gives.
///
/// `BadRow` is the first row that spells nothing, `Unlawful` the first that stands wrongly behind those before it,
/// whichever comes first. `KeeperFailed` comes only where the keeper's count of faults rose. The rows are as before.
pub fn open_rows<S: Replayed, K: Keeper>(
    alloc: Global,
    keeper: &mut K,
    nothing: S,
) -> Result<S, OpenFault>
    requires nothing { S.made_of nothing [] }
    ensures opened { IfSome (K.rows keeper.old) (OpensKeptRows S.refusal S.made_of result) }
    ensures made { IfOk result (λ state. (rows : List (List ℕ)) × S.made_of state rows × (length rows ≡ K.row_count keeper.new)) }
    ensures setting { IfOk result (λ state. S.setting state ≡ S.setting nothing) }
    ensures rows { K.rows keeper.new ≡ K.rows keeper.old }
    ensures len { K.row_count keeper.new ≡ K.row_count keeper.old }
    ensures cause { HasCause (K.faults keeper.old) (K.faults keeper.new) OpenFault.KeeperFailed result }
{
    let mut state = nothing;
    let mut run = Vec::new(alloc);
    let mut index = 0;
    while index < keeper.len() {
        match keeper.read_run(index, &mut run) {
            Ok(()) => {}
            Err(KeepFault::Failed) => return Err(OpenFault::KeeperFailed),
            Err(KeepFault::NoMemory) => return Err(OpenFault::NoMemory),
        }
        match take_run(&mut state, index, run.as_slice()) {
            Ok(()) => {}
            Err(fault) => return Err(fault),
        }
        index += run.len() as u64;
    }
    Ok(state)
}

// Takes rows that were read at once, of which the first has the index, in their order.
fn take_run<S: Replayed>(state: &mut S, index: u64, run: &[Vec<u8>]) -> Result<(), OpenFault>
    requires made { (rows : List (List ℕ)) × S.made_of state.old rows × (length rows ≡ index) }
    requires few { index + length run.now < 2 ^ 64 }
    ensures taken { (rows : List (List ℕ)) → S.made_of state.old rows → length rows ≡ index
        → TakesRun S.refusal S.made_of state.new result rows (texts_of run.now) }
    ensures setting { S.setting state.new ≡ S.setting state.old }
{
    let mut place = index;
    for row in run {
        match state.take_row(row.as_slice()) {
            Ok(()) => {}
            Err(TakeFault::Refused { why }) => return Err(OpenFault::of(place, why)),
            Err(TakeFault::NoMemory) => return Err(OpenFault::NoMemory),
        }
        place += 1;
    }
    Ok(())
}
