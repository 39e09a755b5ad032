// The step table: which act a step does.
ghost use Rattle.std.specs.Prelude.{◌≡◌};
ghost use Rattle.lock.specs.Named.{place_number};
ghost use Rattle.lock.specs.Table.{place_at, act, stepped};

use crate::{LockState, NoPlace, Place};

impl LockState {
    pub(crate) fn stepped(self, p: u8) -> LockState
        ensures { result ≡ stepped self p }
    {
        match Place::try_from(self.row(p).place) {
            Ok(place) => self.act(place, p),
            // No sound state has such a number.
            Err(NoPlace) => self,
        }
    }

    // A match, and no table of functions: it is document 01's step table, a place a line, and `rt ci` refuses functions as values.
    fn act(self, place: Place, p: u8) -> LockState
        ensures { result ≡ act (place_at (place_number place)) self p }
    {
        match place {
            Place::Rest => self.rest(p),
            Place::Gate => self.gate(p),
            Place::Clear => self.clear(p),
            Place::Swap => self.swap(p),
            Place::Arm => self.arm(p),
            Place::Link => self.link(p),
            Place::Claim => self.claim(p),
            Place::Spin => self.spin(p),
            Place::Settle => self.settle(p),
            Place::Inside => self.inside(p),
            Place::Poll => self.poll(p),
            Place::Service => self.service(p),
            Place::Back => self.back(p),
            Place::Regain => self.regain(p),
            Place::Look => self.look(p),
            Place::Close => self.close(p),
            Place::Await => self.await_next(p),
            Place::Hand => self.hand(p),
            Place::Fence => self.fence(p),
            Place::Park => self.park(p),
            Place::Peek => self.peek(p),
            Place::Take => self.take(p),
            Place::Lift => self.lift(p),
            Place::OldTry => self.old_try(p),
            Place::OldPoll => self.old_poll(p),
            Place::OldService => self.old_service(p),
            Place::OldFree => self.old_free(p),
            Place::Reread => self.reread(p),
            Place::Lost => self.lost(p),
        }
    }
}
