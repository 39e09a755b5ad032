// The state of one lock and up to sixteen processors, its soundness, the step table and the events. Here are the types and the
// limits; each module is one part of document 01: `cells` a state's cells, `sound` soundness, `places` which places an edition
// has, `acts` and `table` the step table, `events` the events. `claims`, `kept` and `laws` promise what is proved of them.
#![tactic(auto)]

ghost use Rattle.std.specs.Prelude.{◌≡◌, eqb};
ghost use Rattle.lock.specs.State.{fresh_row};
ghost use Rattle.lock.specs.Named.{edition_number, event_number, locked_number, refusal_number, NamesEdition, NamesEvent};

mod acts;
mod cells;
pub mod claims;
mod events;
pub mod kept;
pub mod laws;
mod places;
mod sound;
mod table;
mod told;

pub use places::{NoPlace, Place};

// The limit as an array's length.
const ROWS: usize = LockState::PROCESSORS as usize;

// What belongs to one processor: its queue node (next, locked, guard), its request flag, its place in the step table, and the
// private cells that the acts use. The cells are bytes, and not `Option<u8>`, `Locked` or `Place`: a state may be handed in with any byte
// in any of them (refusal 11, definition `sound`), and the cases and claims of specs/ are about the bytes.
#[derive(Clone, Copy, Debug, PartialEq, Eq)]
pub struct Row {
    pub next: u8,
    pub locked: u8,
    pub guard: bool,
    pub flag: bool,
    pub place: u8,
    pub pred: u8,
    pub succ: u8,
    pub nx: u8,
}

// One value that holds its sixteen rows; `n` is the number of processors, `tail` document 01's L. Bytes for the reason above.
#[derive(Clone, Copy, Debug, PartialEq, Eq)]
pub struct LockState {
    pub edition: u8,
    pub n: u8,
    pub tail: u8,
    pub rows: [Row; ROWS],
}

// The editions, with document 01's and request [1]'s numbers.
#[derive(Clone, Copy, Debug, PartialEq, Eq)]
pub enum Edition {
    Plain = 0,
    Drawn = 1,
    Guarded = 2,
    Old = 3,
}

// The events.
#[derive(Clone, Copy, Debug, PartialEq, Eq)]
pub enum Event {
    Step = 1,
    Raise = 2,
}

// What a locked cell may hold; Rp is R_P, released while preempted.
#[derive(Clone, Copy, Debug, PartialEq, Eq)]
pub enum Locked {
    Released = 0,
    Locked = 1,
    Preempted = 2,
    Rp = 3,
}

// Why making the fresh state (6 and 7) or an event (8, 9 and 11) is refused.
#[derive(Clone, Copy, Debug, PartialEq, Eq)]
pub enum Refusal {
    UnknownEdition = 6,
    ProcessorCount = 7,
    UnknownEvent = 8,
    NoSuchProcessor = 9,
    Unsound = 11,
}

// A refusal, with the same state back; beside a fresh state's stands the filler.
#[derive(Clone, Copy, Debug, PartialEq, Eq)]
pub struct Refused {
    // first, as in `Ok`: at another place in the two the state would be moved at each answer
    pub state: LockState,
    pub refusal: Refusal,
}

impl From<Edition> for u8 {
    ghost from_gives = { λ edition number. number ≡ edition_number edition };

    fn from(edition: Edition) -> u8 {
        edition as u8
    }
}

impl From<Event> for u8 {
    ghost from_gives = { λ event number. number ≡ event_number event };

    fn from(event: Event) -> u8 {
        event as u8
    }
}

impl From<Locked> for u8 {
    ghost from_gives = { λ locked number. number ≡ locked_number locked };

    fn from(locked: Locked) -> u8 {
        locked as u8
    }
}

impl From<Refusal> for u8 {
    ghost from_gives = { λ refusal number. number ≡ refusal_number refusal };

    fn from(refusal: Refusal) -> u8 {
        refusal as u8
    }
}

impl TryFrom<u8> for Edition {
    type Error = Refusal;

    ghost try_from_gives = { NamesEdition };

    fn try_from(number: u8) -> Result<Edition, Refusal> {
        match number {
            0 => Ok(Edition::Plain),
            1 => Ok(Edition::Drawn),
            2 => Ok(Edition::Guarded),
            3 => Ok(Edition::Old),
            _ => Err(Refusal::UnknownEdition),
        }
    }
}

impl TryFrom<u8> for Event {
    type Error = Refusal;

    ghost try_from_gives = { NamesEvent };

    fn try_from(number: u8) -> Result<Event, Refusal> {
        match number {
            1 => Ok(Event::Step),
            2 => Ok(Event::Raise),
            _ => Err(Refusal::UnknownEvent),
        }
    }
}

impl Row {
    // What stands in the locked cell.
    pub(crate) fn holds(self, what: Locked) -> bool
        ensures { result ≡ eqb self.locked (locked_number what) }
    {
        self.locked == u8::from(what)
    }

    pub(crate) fn fresh() -> Row
        ensures { result ≡ fresh_row }
    {
        Row {
            next: LockState::NONE,
            locked: u8::from(Locked::Released),
            guard: false,
            flag: false,
            place: 0,
            pred: LockState::NONE,
            succ: LockState::NONE,
            nx: LockState::NONE,
        }
    }
}

impl LockState {
    // The limits: of processors, and how many places and editions have a name.
    pub const PROCESSORS: u8 = 16;

    pub const PLACES: u8 = Place::Lost as u8 + 1;

    pub const EDITIONS: u8 = Edition::Old as u8 + 1;

    // In the place of a processor; document 01 has the none mark as a constant of the state ("Which form to use where").
    pub const NONE: u8 = 255;

    // Whether it is of that edition.
    pub(crate) fn is(self, edition: Edition) -> bool
        ensures { result ≡ eqb self.edition (edition_number edition) }
    {
        self.edition == u8::from(edition)
    }
}
