//! Turns where there is no room for one more record, on a state that no run could reach.

ghost use Rattle.std.specs.Prelude.{◌≡◌, IfOk};
ghost use Rattle.rs_rules.specs.Histories.{History};
ghost use Rattle.rs_user.specs.Standing.{StandsFor};

use crate::asking::check_all;
use crate::cases::{BEFORE_THE_RECORDS, CONDITIONS, LAST_RECORD, NO_GRANT, READINGS};
use crate::counted_rows::CountedRows;
use crate::rows::owner;
use rs_chain::ChainTree;
use rs_face::MemKeeper;
use rs_path::Bytes;
use rs_rules::{MAX_LEN, Tree};
use rs_user::{SoloDesk, UserState};
use std::alloc::Global;
use std::test::Fail;

const GRANT: &[u8] =
    b"\x01\x03\x00\x01\x02\x03\x04\x05\x06\x07\x08\x09\x0A\x0B\x0C\x0D\x0E\x0F\x00\x08notes:rw";

const PUT: &[u8] = b"\x01\x01\x00\x08/notes/x\x0Atext/plain\x00\x00\x00\x05hello";

// The rows of a grant and of a document of five bytes.
fn two_rows(alloc: Global) -> Result<MemKeeper, Fail> {
    let mut rows = Vec::new(alloc);
    rows.push(Bytes::of(GRANT.to_vec(alloc)?))?;
    rows.push(Bytes::of(PUT.to_vec(alloc)?))?;
    Ok(MemKeeper::new(rows, Vec::new(alloc)))
}

// The state after so many more revocations and grants of the owner's token that there is room for one more record.
fn filled<T: Tree>(state: UserState<T>) -> Result<UserState<T>, Fail>
    requires stands { (h : History) × StandsFor T.stands state h }
    ensures stands { IfOk result (λ full. (h : History) × StandsFor T.stands full h) }
{
    let token = owner();
    if !state.granted(&token) {
        return Err("no grant to take back")?;
    }
    let pairs = (MAX_LEN - state.len()) / 2;
    Ok(state.after_regrants(&token, pairs))
}

#[test]
fn a_full_history_takes_no_record(rt: HostRuntime) -> Result<(), Fail> {
    let alloc = rt.alloc();
    let mut keeper = two_rows(alloc)?;
    let Ok(begun) = UserState::<ChainTree>::open(alloc, &mut keeper, 6) else {
        return Err("rows that aren't opened")?;
    };
    let mut state = filled(begun)?;
    assert_eq!(rt; state.len(), 4_294_967_294);
    let mut rows = CountedRows { len: state.rows() };
    let mut desk = SoloDesk::new(&mut state, &mut rows);
    let tables = [
        LAST_RECORD,
        BEFORE_THE_RECORDS,
        CONDITIONS,
        READINGS,
        NO_GRANT,
    ];
    assert_eq!(rt; check_all(&rt, alloc, &mut desk, &tables)?, 18);
    Ok(())
}
