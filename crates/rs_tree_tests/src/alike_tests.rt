//! Both trees, asked the same by dice, give the same replies.

ghost use Rattle.std.specs.Prelude.{◌≡◌};

use crate::asking::ask;
use crate::dice::Dice;
use crate::draws::{
    draw_call, draw_document, draw_folder, draw_grant, granting, reading, token_of,
};
use crate::telling::{bit_of, shown_of, version_in};
use rs_chain::ChainTree;
use rs_face::MemKeeper;
use rs_plain::PlainTree;
use rs_rules::{Desk, Tree};
use rs_user::{SoloDesk, UserState};
use std::alloc::Global;
use std::process::Abort;
use std::test::Fail;

const QUOTA: u64 = 3_000;

const ROUNDS: u64 = 10;

const STEPS: u64 = 400;

const LOOKS: u64 = 40;

// A document is read, something is asked of it or of who may read, and a folder is shown. The kinds of the replies.
fn step<R: Abort, D: Desk, E: Desk>(
    rt: &R,
    alloc: Global,
    dice: &mut Dice,
    one: &mut D,
    other: &mut E,
) -> Result<u64, Fail>
    requires one { D.serves one.old 0 }
    requires other { E.serves other.old 0 }
    ensures one { D.serves one.new 0 }
    ensures other { E.serves other.new 0 }
{
    let path = draw_document(alloc, dice)?;
    let seen = ask(rt, alloc, one, other, &reading(alloc, path.copy()?)?)?;
    let request = if dice.draw(40) == 0 {
        draw_grant(alloc, dice)?
    } else if dice.draw(40) == 0 {
        let folder = draw_folder(alloc, dice)?;
        draw_call(alloc, dice, folder, 0)?
    } else {
        draw_call(alloc, dice, path, version_in(&seen))?
    };
    let reply = ask(rt, alloc, one, other, &request)?;
    let folder = draw_folder(alloc, dice)?;
    let shown = ask(rt, alloc, one, other, &reading(alloc, folder)?)?;
    Ok(bit_of(&seen) | bit_of(&reply) | bit_of(&shown))
}

// Some steps of who was granted all. The kinds of the replies.
fn steps<R: Abort, D: Desk, E: Desk>(
    rt: &R,
    alloc: Global,
    dice: &mut Dice,
    one: &mut D,
    other: &mut E,
) -> Result<u64, Fail>
    requires one { D.serves one.old 0 }
    requires other { E.serves other.old 0 }
{
    let grant = granting(alloc, token_of(0), b"*:rw")?;
    let mut kinds = bit_of(&ask(rt, alloc, one, other, &grant)?);
    for _ in 0..STEPS {
        kinds |= step(rt, alloc, dice, one, other)?;
    }
    Ok(kinds)
}

// Both trees show the same of some paths.
fn look<R: Abort, T: Tree, U: Tree>(
    rt: &R,
    alloc: Global,
    dice: &mut Dice,
    one: &T,
    other: &U,
) -> Result<(), Fail> {
    for _ in 0..LOOKS {
        let path = draw_document(alloc, dice)?;
        let shown = shown_of(alloc, one, &path)?;
        let also = shown_of(alloc, other, &path)?;
        assert_eq!(rt; shown.as_slice(), also.as_slice());
    }
    Ok(())
}

// The rows are opened with each tree, and some steps made. The kinds of the replies.
fn round<R: Abort, T: Tree, U: Tree>(
    rt: &R,
    alloc: Global,
    dice: &mut Dice,
    one: &mut MemKeeper,
    other: &mut MemKeeper,
) -> Result<u64, Fail> {
    let Ok(mut state) = UserState::<T>::open(alloc, one, QUOTA) else {
        return Err("rows that aren't opened")?;
    };
    let Ok(mut twin) = UserState::<U>::open(alloc, other, QUOTA) else {
        return Err("rows that aren't opened")?;
    };
    look(rt, alloc, dice, state.tree(), twin.tree())?;
    let kinds = steps(
        rt,
        alloc,
        dice,
        &mut SoloDesk::new(&mut state, one),
        &mut SoloDesk::new(&mut twin, other),
    )?;
    look(rt, alloc, dice, state.tree(), twin.tree())?;
    Ok(kinds)
}

// No rows yet, and two appends among the first that fail.
fn keeper(alloc: Global) -> Result<MemKeeper, Fail> {
    let failing = Vec::from_slice(alloc, &[20, 31])?;
    Ok(MemKeeper::new(Vec::new(alloc), failing))
}

#[test]
fn both_trees_answer_alike(rt: HostRuntime) -> Result<(), Fail> {
    let alloc = rt.alloc();
    let mut dice = Dice::new(2026);
    let mut one = keeper(alloc)?;
    let mut other = keeper(alloc)?;
    let mut kinds = 0;
    for _ in 0..ROUNDS {
        kinds |= round::<_, PlainTree, ChainTree>(&rt, alloc, &mut dice, &mut one, &mut other)?;
        assert!(rt; one.rows() == other.rows());
    }
    // Every kind of reply came, but for those of a full folder and a full history.
    assert_eq!(rt; kinds, 0x7_FFFF);
    Ok(())
}
