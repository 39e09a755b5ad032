// A sound state drawn at random (docs/RANDOM.md): its places, its references, its rows. The damage to it stands in `damage`.
ghost use Rattle.std.specs.Prelude.{◌<◌, length};

use crate::dice::Dice;
use crate::setup::Setup;
use lock::{Edition, LockState, Row};

// The places that the edition has, in rising order, by document 01's three lists and requests [1] and [2].
fn places(edition: Edition) -> &'static [u8]
    ensures { 0 < length result.now }
{
    match edition {
        Edition::Plain => &[0, 2, 3, 4, 5, 7, 9, 14, 15, 16, 17],
        Edition::Drawn => &[
            0, 2, 3, 4, 5, 6, 7, 8, 9, 10, 11, 12, 13, 14, 15, 16, 17, 19, 20, 21, 27, 28,
        ],
        Edition::Guarded => &[
            0, 1, 2, 3, 4, 5, 6, 7, 8, 9, 10, 11, 12, 13, 14, 15, 16, 17, 18, 19, 20, 21, 22,
        ],
        Edition::Old => &[0, 9, 23, 24, 25, 26],
    }
}

pub fn has(edition: Edition, place: u8) -> bool {
    places(edition).contains(&place)
}

// The fresh state, or where there is none, what the library answers beside its refusal.
pub fn fresh(edition: u8, n: u8) -> LockState {
    LockState::fresh(edition, n).unwrap_or_else(|refused| refused.state)
}

// The sound state: L, then the rows.
pub fn sound(setup: Setup, dice: &mut Dice) -> LockState {
    let mut state = fresh(setup.edition as u8, setup.n);
    state.tail = setup.reference(dice);
    for row in state.rows.iter_mut().take(setup.n as usize) {
        *row = drawn_row(setup, dice);
    }
    state
}

fn drawn_row(setup: Setup, dice: &mut Dice) -> Row {
    let next = setup.reference(dice);
    let locked = dice.roll(4) as u8;
    let guard = dice.roll(2) == 1;
    let flag = dice.roll(2) == 1;
    let place = dice.one_of(places(setup.edition));
    let pred = wanted(setup, matches!(place, 4..=6), dice);
    let succ = wanted(setup, matches!(place, 17..=22 | 27), dice);
    let nx = wanted(setup, place == 21, dice);
    Row {
        next,
        locked,
        guard,
        flag,
        place,
        pred,
        succ,
        nx,
    }
}

// a reference that is there where it is wanted
fn wanted(setup: Setup, is_wanted: bool, dice: &mut Dice) -> u8 {
    let v = setup.reference(dice);
    if is_wanted && v == LockState::NONE {
        setup.processor(dice)
    } else {
        v
    }
}
