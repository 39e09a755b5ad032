// Making the fresh state, and an event on a state, with their refusals. An event and its processor come as the two bytes of a schedule's
// line, and each is refused by itself, so they stay two parameters.
ghost use Rattle.std.specs.Prelude.{◌≡◌};
ghost use Rattle.lock.specs.State.{fresh_state};
ghost use Rattle.lock.specs.Event.{told, Accepts, fresh, happens, carried, does, raised};
ghost use Rattle.lock.specs.Named.{edition_number, event_number};

use crate::{Edition, Event, LockState, ROWS, Refusal, Refused, Row};

impl LockState {
    fn fresh_state(edition: Edition, n: u8) -> LockState
        ensures { result ≡ fresh_state (edition_number edition) n }
    {
        LockState {
            edition: u8::from(edition),
            n,
            tail: LockState::NONE,
            rows: [Row::fresh(); ROWS],
        }
    }

    // The fresh state, or refusal 6 or 7 with the filler beside it.
    pub fn fresh(edition: u8, n: u8) -> Result<LockState, Refused>
        ensures { told result ≡ fresh edition n }
    {
        let filler = LockState::fresh_state(Edition::Plain, 1);
        let Ok(edition) = Edition::try_from(edition) else {
            return Err(filler.refused(Refusal::UnknownEdition));
        };
        if n == 0 || LockState::PROCESSORS < n {
            return Err(filler.refused(Refusal::ProcessorCount));
        }
        Ok(LockState::fresh_state(edition, n))
    }

    // The same state back.
    fn refused(self, refusal: Refusal) -> Refused
        ensures { result ≡ record { state = self; refusal = refusal } }
    {
        Refused {
            state: self,
            refusal,
        }
    }

    #[tactic(auto, unfolding(crate::specs::Event::raised))]
    fn raised(self, p: u8) -> LockState
        ensures { result ≡ raised self p }
    {
        self.put_flag(p, true)
    }

    // The event of that number, where it is accepted of processor p; or 8, 9.
    fn accepts(&self, event: u8, p: u8) -> Result<Event, Refusal>
        ensures { Accepts self.now event p result }
    {
        let event = Event::try_from(event)?;
        let outside = self.n <= p;
        if outside {
            return Err(Refusal::NoSuchProcessor);
        }
        Ok(event)
    }

    // What an accepted event makes of the state.
    fn does(self, event: Event, p: u8) -> LockState
        ensures { result ≡ does self (event_number event) p }
    {
        match event {
            Event::Step => self.stepped(p),
            Event::Raise => self.raised(p),
        }
    }

    // One event on a state of which the soundness is not asked: the next state, or refusal 8 or 9 with the same state. For a
    // caller that has kept the state sound since it was fresh.
    pub fn carried(self, event: u8, p: u8) -> Result<LockState, Refused>
        ensures { told result ≡ carried self event p }
    {
        match self.accepts(event, p) {
            Ok(event) => Ok(self.does(event, p)),
            Err(refusal) => Err(self.refused(refusal)),
        }
    }

    // One event on a state: the next state, or refusal 11, 8 or 9 with the same state.
    pub fn event(self, event: u8, p: u8) -> Result<LockState, Refused>
        ensures { told result ≡ happens self event p }
    {
        if !self.is_sound() {
            return Err(self.refused(Refusal::Unsound));
        }
        self.carried(event, p)
    }

    // Event 1.
    pub fn step(self, p: u8) -> Result<LockState, Refused>
        ensures { told result ≡ happens self 1 p }
    {
        self.event(u8::from(Event::Step), p)
    }

    // Event 2.
    pub fn raise(self, p: u8) -> Result<LockState, Refused>
        ensures { told result ≡ happens self 2 p }
    {
        self.event(u8::from(Event::Raise), p)
    }
}
