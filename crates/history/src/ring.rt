// The journal's own moves: an entry made, pushed, looked at and taken off.
ghost use Rattle.std.specs.Prelude.{◌≡◌, Some, None, cond};
ghost use Rattle.lock.specs.Touched.{neighbour_of};
ghost use Rattle.history.specs.Journal.{empty_row, empty_entry, empty_journal, entry_of, restored, in_range, next, previous, deeper, shallower, pushed, newest, popped};
ghost use Rattle.history.specs.Event.{brings_back};

use crate::{Entry, Journal, ROOM};
use lock::{LockState, Place, Row};

// The row beside its own that a step at p's place may write: pred's at link and claim, succ's where one hands on. A byte that is no
// place (a row may be handed in with one) has no neighbour.
#[tactic(auto, unfolding(lock::specs::Touched::neighbour_of))]
fn neighbour_of(r: Row, p: u8) -> u8
    ensures { result ≡ neighbour_of r p }
{
    match Place::try_from(r.place) {
        Ok(Place::Link | Place::Claim) => r.pred,
        Ok(
            Place::Hand
            | Place::Fence
            | Place::Park
            | Place::Peek
            | Place::Take
            | Place::Lift
            | Place::Reread,
        ) => r.succ,
        _ => p,
    }
}

// Every number 0, which is no row that lock makes, so no `Default` of its `Row`.
fn empty_row() -> Row
    ensures { result ≡ empty_row }
{
    Row {
        next: 0,
        locked: 0,
        guard: false,
        flag: false,
        place: 0,
        pred: 0,
        succ: 0,
        nx: 0,
    }
}

impl Entry {
    // Nothing written yet. `empty` is request [6]'s word and the definition's; a `Default` would say it again.
    pub fn empty() -> Entry
        ensures { result ≡ empty_entry }
    {
        Entry {
            processor: 0,
            own: empty_row(),
            neighbour: 0,
            other: empty_row(),
            tail: 0,
        }
    }

    // What an event of p can change, taken from the state before it.
    #[tactic(auto, unfolding(crate::specs::Journal::entry_of))]
    pub fn of(s: LockState, p: u8) -> Entry
        ensures { result ≡ entry_of s p }
    {
        let own = s.row(p);
        let neighbour = neighbour_of(own, p);
        Entry {
            processor: p,
            own,
            neighbour,
            other: s.row(neighbour),
            tail: s.tail,
        }
    }

    // The way back. Where both rows are one, the neighbour's is written last.
    #[tactic(auto, unfolding(crate::specs::Journal::restored, lock::specs::Touched::put_back))]
    pub(crate) fn restored(self, s: LockState) -> LockState
        ensures { result ≡ restored s self }
    {
        s.put_row(self.processor, self.own)
            .put_row(self.neighbour, self.other)
            .put_tail(self.tail)
    }

    // The same for an entry of which nothing is known: none where its numbers are no processors, or the state is not sound.
    #[tactic(auto, unfolding(crate::specs::Event::brings_back))]
    pub(crate) fn brought_back(self, s: LockState) -> Option<LockState>
        ensures { result ≡ cond (brings_back s self) (Some (restored s self)) None }
    {
        let back = self.restored(s);
        (self.processor < s.n && self.neighbour < s.n && back.is_sound()).then_some(back)
    }
}

// The ring's numbers: the slot after one, and the slot before.
pub(crate) fn next(at: u8) -> u8
    ensures { result ≡ next at }
{
    at.wrapping_add(1)
}

pub(crate) fn previous(at: u8) -> u8
    ensures { result ≡ previous at }
{
    at.wrapping_sub(1)
}

// One entry can be undone more, up to all of them; and one less.
pub(crate) fn deeper(depth: u16) -> u16
    ensures { result ≡ deeper depth }
{
    if depth < Journal::MOST {
        depth + 1
    } else {
        depth
    }
}

pub(crate) fn shallower(depth: u16) -> u16
    ensures { result ≡ shallower depth }
{
    depth.saturating_sub(1)
}

impl Journal {
    // All entries empty.
    #[tactic(auto, unfolding(crate::specs::Journal::empty_journal))]
    pub fn empty() -> Journal
        ensures { result ≡ empty_journal }
    {
        Journal {
            entries: [Entry::empty(); ROOM],
            top: 0,
            depth: 0,
        }
    }

    // The position is in range by its type; the depth may not be.
    #[tactic(auto, unfolding(crate::specs::Journal::in_range))]
    pub(crate) fn in_range(self) -> bool
        ensures { result ≡ in_range self }
    {
        self.depth <= Journal::MOST
    }

    #[tactic(auto, unfolding(crate::specs::Journal::pushed))]
    pub(crate) fn pushed(self, e: Entry) -> Journal
        ensures { result ≡ pushed self e }
    {
        let mut entries = self.entries;
        entries[self.top as usize] = e;
        Journal {
            entries,
            top: next(self.top),
            depth: deeper(self.depth),
        }
    }

    #[tactic(auto, unfolding(crate::specs::Journal::newest))]
    pub(crate) fn newest(self) -> Entry
        ensures { result ≡ newest self }
    {
        self.entries[previous(self.top) as usize]
    }

    #[tactic(auto, unfolding(crate::specs::Journal::popped))]
    pub(crate) fn popped(self) -> Journal
        ensures { result ≡ popped self }
    {
        Journal {
            top: previous(self.top),
            depth: shallower(self.depth),
            ..self
        }
    }
}
