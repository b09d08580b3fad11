//! How many boards are kept for later puts while readers stall, and once they have gone on.

ghost use Rattle.std.specs.Prelude.{◌≡◌, ◌∷◌, []};
ghost use Rattle.shared_screen.specs.History.{Put};

use crate::puts::painted;
use fault::Fault;
use painter::{Patch, Wanted};
use shared_screen::{
    BESIDE_PLACES, HistoryFront, Naming, Opened, Published, Spares, Stamped, opened, tally,
};
use std::alloc::Global;
use std::marker::Brand;
use std::sync::{Arc, Wait};
use std::test::*;

/// So many readers stall at once, each with a board of its own.
const READERS: usize = 8;

/// How many boards are kept after each time that one more was to be kept, once all readers but the last have gone on.
/// Two boards are in use: that of the copies and that of the last reader. Of the free ones one is let go each time, as
/// long as there are more than four (docs/DECISIONS.md).
const KEPT: [usize; 5] = [8, 7, 6, 6, 6];

/// A board for a reader, which shows the first update. None is free, so it is a new one.
fn made<J: Naming>(
    newest: &Published<J>,
    spares: &mut Spares<J>,
    patch: &Patch,
    front: &HistoryFront<J>,
) -> Result<Stamped<J>, Fault>
    requires size { (patch.now.width ≡ J.width) × (patch.now.height ≡ J.height) }
    requires first { (newest.now ≡ []) × (front.now ≡ Put patch.now.update ∷ []) }
{
    let board = spares.next(newest, patch, Wanted::NOTHING)?;
    let board = Stamped::new(board, 1, front.again());
    spares.keep(&board);
    Ok(board)
}

/// The boards of the readers, or `None` where the number of boards that are kept doesn't rise by one with each of them.
fn held<J: Naming>(
    alloc: Global,
    newest: &Published<J>,
    spares: &mut Spares<J>,
    patch: &Patch,
    front: &HistoryFront<J>,
) -> Result<Option<Vec<Stamped<J>>>, Fault>
    requires size { (patch.now.width ≡ J.width) × (patch.now.height ≡ J.height) }
    requires first { (newest.now ≡ []) × (front.now ≡ Put patch.now.update ∷ []) }
{
    let mut boards = Vec::new(alloc);
    for before in 1..=READERS {
        if spares.len() != before {
            return Ok(None);
        }
        boards.push(made(newest, spares, patch, front)?)?;
    }
    Ok(Some(boards))
}

/// Whether boards are let go one by one, down to four free ones, each time that the last reader's is to be kept again.
fn are_let_go<J: Naming>(spares: &mut Spares<J>, last: &Stamped<J>) -> bool {
    let mut right = spares.len() == READERS + 1;
    for kept in KEPT {
        spares.keep(last);
        right = spares.len() == kept && right;
    }
    right
}

/// Whether the boards that are made while readers stall are let go once all of them but the last have gone on.
fn counts<J: Naming, R: Wait + Drop + Copy>(
    rt: R,
    alloc: Global,
    history: Opened<J>,
) -> Result<bool, Fault>
    requires { (history.seen.book ≡ J.book) × (4 ≡ J.width) × (4 ≡ J.height) }
{
    let (change_count, author) = history.named();
    let change_count = Arc::new(alloc, change_count)?;
    let (mut raiser, _glance) = tally(&change_count, author)?;
    let opening = Stamped::opening(alloc, 4, 4, &raiser.front())?;
    let copies = opened(rt, alloc, &opening, READERS)?;
    let mut spares = Spares::new(alloc, 4, 4, opening, READERS + BESIDE_PLACES)?;
    let patch = painted(alloc, 1)?;
    raiser.put(&patch);
    let held = held(
        alloc,
        copies.published(),
        &mut spares,
        &patch,
        &raiser.front(),
    )?;
    match held.and_then(|mut boards| boards.pop()) {
        Some(last) => Ok(are_let_go(&mut spares, &last)),
        None => Ok(false),
    }
}

/// While readers stall, as many boards are made. Of those that are free afterwards four are kept, and the others are
/// let go.
#[test]
fn boards_are_let_go_after_a_stall(rt: HostRuntime) {
    let right = counts::<Brand, _>(rt, rt.alloc(), Opened::new());
    assert!(rt; matches!(right, Ok(true)));
}
