//! Turns where there is no room for one more item of a folder.

ghost use Rattle.std.specs.Prelude.{◌≡◌, ◌≤◌, false, length, IfOk};

use crate::asking::check_all;
use crate::cases::{BEFORE_THE_ITEMS, GRANT, NO_ITEM, ROOM_AGAIN};
use crate::rows::{body_of, plain_text};
use rs_chain::ChainTree;
use rs_face::{Keeper, MemKeeper};
use rs_path::{Bytes, Kind, Path, Tag};
use rs_record::encode_put;
use rs_user::{SoloDesk, UserState};
use std::alloc::Global;
use std::test::Fail;

// The path of a document directly below `/`, whose name is the number.
fn path_of(alloc: Global, number: u64) -> Result<Path, Fail>
    ensures document { IfOk result (λ path. path.folder ≡ false) }
{
    let mut text = Vec::from_slice(alloc, b"/")?;
    text.extend_from_slice(Tag::of(alloc, number)?.as_slice())?;
    let path = Path::read_plain(alloc, text.as_slice())?;
    if path.is_folder() {
        return Err("no document")?;
    }
    Ok(path)
}

// The rows of 50,000 documents of one byte directly below `/`, named from 0 on.
fn full_folder(alloc: Global) -> Result<MemKeeper, Fail> {
    let kind = plain_text(alloc)?;
    let body = body_of(alloc, "1")?;
    let mut keeper = MemKeeper::new(Vec::new(alloc), Vec::new(alloc));
    for number in 0..50000 {
        let path = path_of(alloc, number)?;
        add_row(alloc, &mut keeper, &path, &kind, &body)?;
    }
    Ok(keeper)
}

// Adds the row of a document.
fn add_row(
    alloc: Global,
    keeper: &mut MemKeeper,
    path: &Path,
    kind: &Kind,
    body: &Bytes,
) -> Result<(), Fail>
    requires document { path.now.folder ≡ false }
    requires short { length body.now ≤ 100 }
{
    let mut row = Vec::new(alloc);
    encode_put(path, kind, body, &None, &mut row)?;
    if keeper.append(row.as_slice()).is_err() {
        return Err("no memory")?;
    }
    Ok(())
}

#[test]
fn a_full_folder_takes_no_item(rt: HostRuntime) -> Result<(), Fail> {
    let alloc = rt.alloc();
    let mut keeper = full_folder(alloc)?;
    let Ok(mut state) = UserState::<ChainTree>::open(alloc, &mut keeper, 50001) else {
        return Err("rows that aren't opened")?;
    };
    let mut desk = SoloDesk::new(&mut state, &mut keeper);
    let tables = [GRANT, NO_ITEM, BEFORE_THE_ITEMS, ROOM_AGAIN];
    assert_eq!(rt; check_all(&rt, alloc, &mut desk, &tables)?, 13);
    Ok(())
}
