// The fresh state, and an event on a state with its journal, refusals first in their order.
ghost use Rattle.std.specs.Prelude.{◌≡◌};
ghost use Rattle.lock.specs.Event.{carried};
ghost use Rattle.lock.specs.Named.{event_number};
ghost use Rattle.history.specs.Event.{told_begun, told, unwritten, begun, is_whole, undone, recorded, goes};

use crate::{Entry, Event, History, Journal, Moved, Refusal, Refused};
use lock::LockState;

impl History {
    // With nothing to undo, or refusal 6 or 7 with the filler beside it.
    #[tactic(auto, unfolding(crate::specs::Event::begun))]
    pub fn fresh(edition: u8, n: u8) -> Result<History, Refused>
        ensures { told_begun result ≡ begun edition n }
    {
        match LockState::fresh(edition, n) {
            Ok(lock) => Ok(History::unwritten(lock)),
            Err(refused) => {
                let refusal = Refusal::from(refused.refusal);
                Err(History::unwritten(refused.state).refused(refusal))
            }
        }
    }

    // A lock with nothing to undo.
    fn unwritten(lock: LockState) -> History
        ensures { result ≡ unwritten lock }
    {
        History {
            lock,
            journal: Journal::empty(),
        }
    }

    // An event, by its number: 1 step, 2 raise, 3 undo.
    #[tactic(auto, unfolding(crate::specs::Event::goes, crate::specs::Event::recorded))]
    pub fn event(self, event: u8, p: u8) -> Result<Moved<History>, Refused>
        ensures { told p result ≡ goes self event p }
    {
        if !self.is_whole() {
            return Err(self.refused(Refusal::Lock(lock::Refusal::Unsound)));
        }
        match Event::try_from(event) {
            Ok(Event::Lock(event)) => self.recorded(event, p),
            Ok(Event::Undo) => self.undone(p),
            Err(refusal) => Err(self.refused(refusal)),
        }
    }

    // A step of p, event 1.
    pub fn step(self, p: u8) -> Result<Moved<History>, Refused>
        ensures { told p result ≡ goes self 1 p }
    {
        self.event(u8::from(lock::Event::Step), p)
    }

    // A raise of p's flag, event 2.
    pub fn raise(self, p: u8) -> Result<Moved<History>, Refused>
        ensures { told p result ≡ goes self 2 p }
    {
        self.event(u8::from(lock::Event::Raise), p)
    }

    // The newest event taken back, event 3; its processor byte is 0.
    pub fn undo(self) -> Result<Moved<History>, Refused>
        ensures { told 0 result ≡ goes self 3 0 }
    {
        self.event(u8::from(Event::Undo), 0)
    }

    // A refused event gives the same state back, its journal too.
    fn refused(self, refusal: Refusal) -> Refused
        ensures { result ≡ record { state = self; refusal = refusal } }
    {
        Refused {
            state: self,
            refusal,
        }
    }

    // What the first 11 asks for: a state handed in may be unsound, and its depth may pass the ring's room.
    #[tactic(auto, unfolding(crate::specs::Event::is_whole))]
    fn is_whole(self) -> bool
        ensures { result ≡ is_whole self }
    {
        self.lock.is_sound() && self.journal.in_range()
    }

    // Refused by 9, 14 and 11, in this order. No entry is written: an undo takes one off.
    #[tactic(auto, unfolding(crate::specs::Event::undone, crate::specs::Event::stepped_back))]
    fn undone(self, p: u8) -> Result<Moved<History>, Refused>
        ensures { told p result ≡ undone self p }
    {
        if p != 0 {
            return Err(self.refused(Refusal::Lock(lock::Refusal::NoSuchProcessor)));
        }
        if self.journal.depth == 0 {
            return Err(self.refused(Refusal::NothingLeft));
        }
        let entry = self.journal.newest();
        let Some(lock) = entry.brought_back(self.lock) else {
            return Err(self.refused(Refusal::Lock(lock::Refusal::Unsound)));
        };
        Ok(Moved {
            processor: entry.processor,
            state: History {
                lock,
                journal: self.journal.popped(),
            },
        })
    }

    // The lock's own two events. What an event can change is written down as it was before, also where nothing changes.
    #[tactic(auto, unfolding(crate::specs::Event::recorded))]
    fn recorded(self, event: lock::Event, p: u8) -> Result<Moved<History>, Refused>
        ensures { told p result ≡ recorded self p (carried self.lock (event_number event) p) }
    {
        // No `map_err`: a Result of a lock's state and a whole history would be cleared at each event, with all of the journal's room.
        match self.lock.carried(u8::from(event), p) {
            Ok(lock) => Ok(Moved {
                processor: p,
                state: History {
                    lock,
                    journal: self.journal.pushed(Entry::of(self.lock, p)),
                },
            }),
            Err(refused) => Err(self.refused(Refusal::from(refused.refusal))),
        }
    }
}
