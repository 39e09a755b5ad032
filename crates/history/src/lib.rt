// The lock with a journal of its last 256 events, and the way back: request [6]. The lock itself is crate `lock`, which knows nothing of
// it. Here are the types and their numbers; `ring` has the journal's own moves, `events` the events, `apart` the same for a loop that
// keeps state and journal apart. `claims` and `laws` promise what is proved of them.
#![tactic(auto)]

ghost use Rattle.std.specs.Prelude.{◌≡◌};
ghost use Rattle.history.specs.Named.{event_number, refusal_number, of_lock, NamesEvent};

use lock::{LockState, Row};

pub mod apart;
pub mod claims;
mod events;
pub mod laws;
mod ring;
mod told;

// The journal's room as an array's length.
const ROOM: usize = Journal::MOST as usize;

// What an event can change, as it was before the event: the row of its processor, that of one neighbour, and L. Two
// pairs of a processor and its row, which stay apart: `entry_of`, `restored` and StepBackIsSharp name the four.
#[derive(Clone, Copy, Debug, PartialEq, Eq)]
pub struct Entry {
    pub processor: u8,
    pub own: Row,
    pub neighbour: u8,
    pub other: Row,
    pub tail: u8,
}

// A ring: the next entry goes to `top`, and `depth` entries before it can be undone. `depth` stands beside the array since document 01
// prescribes a ring of 256 elements, "all entries empty at the start": it always has them all, and how many count is not its length.
#[derive(Clone, Copy, Debug, PartialEq, Eq)]
pub struct Journal {
    pub entries: [Entry; ROOM],
    pub top: u8,
    pub depth: u16,
}

// One value that holds the lock's state and the journal.
#[derive(Clone, Copy, Debug, PartialEq, Eq)]
pub struct History {
    pub lock: LockState,
    pub journal: Journal,
}

// The events: the lock's two, and the one that takes one back.
#[derive(Clone, Copy, Debug, PartialEq, Eq)]
pub enum Event {
    Lock(lock::Event),
    Undo,
}

// Why making the fresh state or an event is refused: for the lock's reasons, or because nothing is left to undo.
#[derive(Clone, Copy, Debug, PartialEq, Eq)]
pub enum Refusal {
    Lock(lock::Refusal),
    NothingLeft,
}

// An accepted event: the state after it, and the processor whose row an 03 line shows.
#[derive(Clone, Copy, Debug, PartialEq, Eq)]
pub struct Moved<S> {
    // first, as in `Refused`
    pub state: S,
    pub processor: u8,
}

// A refusal, with the same state back, in `apart` the lock's; beside a fresh state's stands the filler.
#[derive(Clone, Copy, Debug, PartialEq, Eq)]
pub struct Refused<S = History> {
    // first, as in `Ok`: at another place in the two the state would be moved at each answer
    pub state: S,
    pub refusal: Refusal,
}

impl From<Event> for u8 {
    ghost from_gives = { λ event number. number ≡ event_number event };

    fn from(event: Event) -> u8 {
        match event {
            Event::Lock(event) => u8::from(event),
            Event::Undo => 3,
        }
    }
}

impl TryFrom<u8> for Event {
    type Error = Refusal;

    ghost try_from_gives = { NamesEvent };

    fn try_from(number: u8) -> Result<Event, Refusal> {
        match number {
            3 => Ok(Event::Undo),
            _ => Ok(Event::Lock(lock::Event::try_from(number)?)),
        }
    }
}

impl From<lock::Refusal> for Refusal {
    ghost from_gives = { λ refusal given. given ≡ of_lock refusal };

    fn from(refusal: lock::Refusal) -> Refusal {
        Refusal::Lock(refusal)
    }
}

impl From<Refusal> for u8 {
    ghost from_gives = { λ refusal number. number ≡ refusal_number refusal };

    fn from(refusal: Refusal) -> u8 {
        match refusal {
            Refusal::Lock(refusal) => u8::from(refusal),
            Refusal::NothingLeft => 14,
        }
    }
}

impl Journal {
    // How many events can be undone at most.
    pub const MOST: u16 = 256;
}
