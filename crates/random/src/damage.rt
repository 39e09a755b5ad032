// A state that is handed in (docs/RANDOM.md): a sound one, in half of the trials damaged, of these half anywhere and half near an
// edge of soundness.
ghost use Rattle.std.specs.Prelude.{◌<◌};

use crate::dice::Dice;
use crate::setup::Setup;
use crate::state;
use lock::LockState;

#[derive(Clone, Copy, PartialEq, Eq)]
enum Cell {
    Next,
    Locked,
    Guard,
    Flag,
    Place,
    Pred,
    Succ,
    Nx,
    Edition,
    N,
    L,
    // N once more, with L and all rows as fresh: only so can N 0 be the one thing that is wrong.
    NAlone,
}

// By their numbers: a row's eight, then the state's own.
const CELLS: [Cell; 12] = [
    Cell::Next,
    Cell::Locked,
    Cell::Guard,
    Cell::Flag,
    Cell::Place,
    Cell::Pred,
    Cell::Succ,
    Cell::Nx,
    Cell::Edition,
    Cell::N,
    Cell::L,
    Cell::NAlone,
];

// Where the test of soundness stands that the damage comes near.
#[derive(Clone, Copy, PartialEq, Eq)]
enum Edge {
    // the state's own cells
    State,
    // a reference that the row's place needs
    Need,
    Place,
    // a cell of a row in use
    Row,
    // a cell of a row that is mostly not in use
    Far,
}

// By their numbers, 0 to 7.
const EDGES: [Edge; 8] = [
    Edge::State,
    Edge::Need,
    Edge::Need,
    Edge::Place,
    Edge::Place,
    Edge::Row,
    Edge::Far,
    Edge::Far,
];

pub fn damaged(setup: Setup, dice: &mut Dice) -> LockState {
    let mut state = state::sound(setup, dice);
    match dice.roll(4) {
        0 | 1 => {}
        2 => anywhere(&mut state, dice),
        _ => near(setup, &mut state, dice),
    }
    state
}

// Any cell, any value, any row.
fn anywhere(state: &mut LockState, dice: &mut Dice) {
    let cell = dice.one_of(&CELLS[..11]);
    let value = dice.byte();
    let row = dice.roll(16);
    put(state, cell, row, value);
}

// A cell, a row and a value at which a test of soundness turns.
fn near(setup: Setup, state: &mut LockState, dice: &mut Dice) {
    let edge = dice.one_of(&EDGES);
    let cell = near_cell(edge, dice);
    let row = near_row(setup, edge, dice);
    if edge == Edge::Need {
        let place = needing(cell, dice);
        if state::has(setup.edition, place) {
            put(state, Cell::Place, row, place);
        }
        put(state, cell, row, LockState::NONE);
    } else {
        let value = near_value(setup, cell, dice);
        put(state, cell, row, value);
    }
}

fn near_cell(edge: Edge, dice: &mut Dice) -> Cell {
    match edge {
        Edge::State => dice.one_of(&CELLS[8..]),
        Edge::Need => dice.one_of(&[Cell::Pred, Cell::Succ, Cell::Nx]),
        Edge::Place => Cell::Place,
        Edge::Row | Edge::Far => dice.one_of(&CELLS[..8]),
    }
}

// Row 0, row N - 1 or any in use; for the far edge row N, row 15 or any, for those from N on.
fn near_row(setup: Setup, edge: Edge, dice: &mut Dice) -> usize
    ensures { result < 16 }
{
    let n = setup.n as usize;
    let far = edge == Edge::Far;
    match dice.roll(3) {
        0 => if far { n % 16 } else { 0 },
        1 => if far { 15 } else { n - 1 },
        _ => dice.roll(if far { 16 } else { n }),
    }
}

// A place among or beside those that need the cell: pred is needed at 4 to 6, succ at 17 to 22 and 27, nx at 21.
fn needing(cell: Cell, dice: &mut Dice) -> u8 {
    match cell {
        Cell::Pred => 3 + dice.roll(5) as u8,
        Cell::Succ => 16 + dice.roll(13) as u8,
        _ => 20 + dice.roll(3) as u8,
    }
}

// Of locked, the edition and the place all that there are, and some past the last; else a number near the edges of N and of a reference.
fn near_value(setup: Setup, cell: Cell, dice: &mut Dice) -> u8 {
    let n = setup.n;
    match cell {
        Cell::Locked | Cell::Edition => dice.roll(5) as u8,
        Cell::Guard | Cell::Flag => 1,
        Cell::Place => dice.roll(32) as u8,
        _ => dice.one_of(&[0, 1, 16, 17, 254, 255, n - 1, n, n + 1]),
    }
}

fn put(state: &mut LockState, cell: Cell, row: usize, value: u8)
    requires { row < 16 }
{
    let r = &mut state.rows[row];
    match cell {
        Cell::Next => r.next = value,
        Cell::Locked => r.locked = value,
        Cell::Guard => r.guard = value % 2 == 1,
        Cell::Flag => r.flag = value % 2 == 1,
        Cell::Place => r.place = value,
        Cell::Pred => r.pred = value,
        Cell::Succ => r.succ = value,
        Cell::Nx => r.nx = value,
        Cell::Edition => state.edition = value,
        Cell::N => state.n = value,
        Cell::L => state.tail = value,
        Cell::NAlone => {
            *state = state::fresh(state.edition, state.n);
            state.n = value;
        }
    }
}
