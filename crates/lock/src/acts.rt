// The 29 acts of the step table of document 01 and requests [1] and [2], each under its name. What an act does is said by the
// definition of the same name in specs/Acts; the comments here say why the step is there. `p` goes with the state through all of them,
// and is no part of it: the definitions and every claim have it beside the state, and document 01 has step as a method of the state.
ghost use Rattle.std.specs.Prelude.{◌≡◌};
ghost use Rattle.lock.specs.Acts as Acts;

use crate::{Edition, LockState, Locked, Place};

impl LockState {
    // The guarded edition stops at the gate, so that a processor somebody still fences does not join anew.
    #[tactic(auto, unfolding(crate::specs::Acts::to_queue))]
    fn to_queue(self, p: u8) -> LockState
        ensures { result ≡ Acts.to_queue self p }
    {
        let guarded = self.is(Edition::Guarded);
        if guarded {
            self.to(p, Place::Gate)
        } else {
            self.to(p, Place::Clear)
        }
    }

    #[tactic(auto, unfolding(crate::specs::Acts::to_hand))]
    fn to_hand(self, p: u8) -> LockState
        ensures { result ≡ Acts.to_hand self p }
    {
        let own = self.row(p);
        self.put_succ(p, own.next).to(p, Place::Hand)
    }

    #[tactic(auto, unfolding(crate::specs::Acts::onward))]
    fn onward(self, p: u8) -> LockState
        ensures { result ≡ Acts.onward self p }
    {
        let own = self.row(p);
        let last = own.nx == LockState::NONE;
        if last {
            self.to(p, Place::Rest)
        } else {
            self.put_succ(p, own.nx).to(p, Place::Hand)
        }
    }

    #[tactic(auto, unfolding(crate::specs::Acts::to_lift))]
    fn to_lift(self, p: u8) -> LockState
        ensures { result ≡ Acts.to_lift self p }
    {
        let drawn = self.is(Edition::Drawn);
        if drawn {
            self.onward(p)
        } else {
            self.to(p, Place::Lift)
        }
    }

    // A request that comes at rest is served at once.
    #[tactic(auto, unfolding(crate::specs::Acts::rest))]
    pub(crate) fn rest(self, p: u8) -> LockState
        ensures { result ≡ Acts.rest self p }
    {
        let own = self.row(p);
        if own.flag {
            return self.put_flag(p, false);
        }
        let old = self.is(Edition::Old);
        if old {
            self.to(p, Place::OldTry)
        } else {
            self.to_queue(p)
        }
    }

    // While the guard is set a releaser still works on this row: joining now would hand it a node that has left.
    #[tactic(auto, unfolding(crate::specs::Acts::gate))]
    pub(crate) fn gate(self, p: u8) -> LockState
        ensures { result ≡ Acts.gate self p }
    {
        let own = self.row(p);
        if own.guard {
            self
        } else {
            self.to(p, Place::Clear)
        }
    }

    #[tactic(auto, unfolding(crate::specs::Acts::clear))]
    pub(crate) fn clear(self, p: u8) -> LockState
        ensures { result ≡ Acts.clear self p }
    {
        self.put_next(p, LockState::NONE).to(p, Place::Swap)
    }

    // The join: from here on the order of the queue is settled.
    #[tactic(auto, unfolding(crate::specs::Acts::swap))]
    pub(crate) fn swap(self, p: u8) -> LockState
        ensures { result ≡ Acts.swap self p }
    {
        let old = self.tail;
        let joined = self.put_pred(p, old).put_tail(p);
        let alone = old == LockState::NONE;
        if alone {
            joined.to(p, Place::Inside)
        } else {
            joined.to(p, Place::Arm)
        }
    }

    #[tactic(auto, unfolding(crate::specs::Acts::arm))]
    pub(crate) fn arm(self, p: u8) -> LockState
        ensures { result ≡ Acts.arm self p }
    {
        self.put_locked(p, Locked::Locked).to(p, Place::Link)
    }

    #[tactic(auto, unfolding(crate::specs::Acts::link))]
    pub(crate) fn link(self, p: u8) -> LockState
        ensures { result ≡ Acts.link self p }
    {
        let own = self.row(p);
        let linked = self.put_next(own.pred, p);
        let plain = self.is(Edition::Plain);
        if plain {
            linked.to(p, Place::Spin)
        } else {
            linked.to(p, Place::Claim)
        }
    }

    // The lock may have been parked on the predecessor before the link was seen: then nobody else will take it on.
    #[tactic(auto, unfolding(crate::specs::Acts::claim))]
    pub(crate) fn claim(self, p: u8) -> LockState
        ensures { result ≡ Acts.claim self p }
    {
        let own = self.row(p);
        let pred = self.row(own.pred);
        let parked = pred.holds(Locked::Rp);
        if parked {
            self.put_locked(own.pred, Locked::Released)
                .to(p, Place::Settle)
        } else {
            self.to(p, Place::Spin) // a releaser will come
        }
    }

    #[tactic(auto, unfolding(crate::specs::Acts::spin))]
    pub(crate) fn spin(self, p: u8) -> LockState
        ensures { result ≡ Acts.spin self p }
    {
        let own = self.row(p);
        let released = own.holds(Locked::Released);
        if released {
            return self.to(p, Place::Inside);
        }
        let plain = self.is(Edition::Plain);
        if plain { self } else { self.to(p, Place::Poll) }
    }

    #[tactic(auto, unfolding(crate::specs::Acts::settle))]
    pub(crate) fn settle(self, p: u8) -> LockState
        ensures { result ≡ Acts.settle self p }
    {
        self.put_locked(p, Locked::Released).to(p, Place::Inside)
    }

    #[tactic(auto, unfolding(crate::specs::Acts::inside))]
    pub(crate) fn inside(self, p: u8) -> LockState
        ensures { result ≡ Acts.inside self p }
    {
        let old = self.is(Edition::Old);
        if old {
            self.to(p, Place::OldFree)
        } else {
            self.to(p, Place::Look)
        }
    }

    // Where the exchange fails the lock has just been handed over: the flag stays for the next rest.
    #[tactic(auto, unfolding(crate::specs::Acts::poll))]
    pub(crate) fn poll(self, p: u8) -> LockState
        ensures { result ≡ Acts.poll self p }
    {
        let own = self.row(p);
        let leaves = own.flag & (own.holds(Locked::Locked));
        if leaves {
            self.put_locked(p, Locked::Preempted)
                .put_flag(p, false)
                .to(p, Place::Service)
        } else {
            self.to(p, Place::Spin)
        }
    }

    #[tactic(auto, unfolding(crate::specs::Acts::service))]
    pub(crate) fn service(self, p: u8) -> LockState
        ensures { result ≡ Acts.service self p }
    {
        self.to(p, Place::Back)
    }

    #[tactic(auto, unfolding(crate::specs::Acts::back))]
    pub(crate) fn back(self, p: u8) -> LockState
        ensures { result ≡ Acts.back self p }
    {
        let own = self.row(p);
        let waited_for = own.holds(Locked::Preempted);
        if waited_for {
            self.put_locked(p, Locked::Locked).to(p, Place::Spin)
        } else {
            self.to(p, Place::Regain)
        }
    }

    // Without this try the lock would stay parked on a processor that has left.
    #[tactic(auto, unfolding(crate::specs::Acts::regain))]
    pub(crate) fn regain(self, p: u8) -> LockState
        ensures { result ≡ Acts.regain self p }
    {
        let own = self.row(p);
        let parked = own.holds(Locked::Rp);
        if parked {
            self.put_locked(p, Locked::Released).to(p, Place::Spin)
        } else {
            self.to_queue(p)
        }
    }

    #[tactic(auto, unfolding(crate::specs::Acts::look))]
    pub(crate) fn look(self, p: u8) -> LockState
        ensures { result ≡ Acts.look self p }
    {
        let own = self.row(p);
        let unlinked = own.next == LockState::NONE;
        if unlinked {
            self.to(p, Place::Close)
        } else {
            self.to_hand(p)
        }
    }

    #[tactic(auto, unfolding(crate::specs::Acts::close))]
    pub(crate) fn close(self, p: u8) -> LockState
        ensures { result ≡ Acts.close self p }
    {
        let last = self.tail == p;
        if last {
            self.put_tail(LockState::NONE).to(p, Place::Rest)
        } else {
            self.to(p, Place::Await)
        }
    }

    // Somebody joined between look and close and has not linked yet.
    pub(crate) fn await_next(self, p: u8) -> LockState
        ensures { result ≡ Acts.await self p }
    {
        let own = self.row(p);
        let unlinked = own.next == LockState::NONE;
        if unlinked { self } else { self.to_hand(p) }
    }

    #[tactic(auto, unfolding(crate::specs::Acts::hand))]
    pub(crate) fn hand(self, p: u8) -> LockState
        ensures { result ≡ Acts.hand self p }
    {
        let own = self.row(p);
        let succ = self.row(own.succ);
        let plain = self.is(Edition::Plain);
        if plain {
            return self
                .put_locked(own.succ, Locked::Released)
                .to(p, Place::Rest);
        }
        let waits = succ.holds(Locked::Locked);
        if waits {
            return self
                .put_locked(own.succ, Locked::Released)
                .to(p, Place::Rest);
        }
        let drawn = self.is(Edition::Drawn);
        if drawn {
            self.to(p, Place::Park)
        } else {
            self.to(p, Place::Fence)
        }
    }

    // The fence stands before the park: a parked processor that could join again unseen would be passed over.
    #[tactic(auto, unfolding(crate::specs::Acts::fence))]
    pub(crate) fn fence(self, p: u8) -> LockState
        ensures { result ≡ Acts.fence self p }
    {
        let own = self.row(p);
        self.put_guard(own.succ, true).to(p, Place::Park)
    }

    #[tactic(auto, unfolding(crate::specs::Acts::park))]
    pub(crate) fn park(self, p: u8) -> LockState
        ensures { result ≡ Acts.park self p }
    {
        let own = self.row(p);
        let succ = self.row(own.succ);
        let away = succ.holds(Locked::Preempted);
        if away {
            self.put_locked(own.succ, Locked::Rp).to(p, Place::Peek)
        } else {
            self.put_nx(p, own.succ).to_lift(p)
        }
    }

    #[tactic(auto, unfolding(crate::specs::Acts::peek))]
    pub(crate) fn peek(self, p: u8) -> LockState
        ensures { result ≡ Acts.peek self p }
    {
        let own = self.row(p);
        let succ = self.row(own.succ);
        let peeked = self.put_nx(p, succ.next);
        let unlinked = succ.next == LockState::NONE;
        if unlinked {
            peeked.to_lift(p)
        } else {
            peeked.to(p, Place::Take)
        }
    }

    #[tactic(auto, unfolding(crate::specs::Acts::take))]
    pub(crate) fn take(self, p: u8) -> LockState
        ensures { result ≡ Acts.take self p }
    {
        let own = self.row(p);
        let succ = self.row(own.succ);
        let parked = succ.holds(Locked::Rp);
        if parked {
            let took = self.put_locked(own.succ, Locked::Released);
            let drawn = self.is(Edition::Drawn);
            if drawn {
                took.to(p, Place::Reread)
            } else {
                took.to(p, Place::Lift)
            }
        } else {
            self.put_nx(p, LockState::NONE).to_lift(p)
        }
    }

    // The guard of the old succ is lifted, before succ is replaced: the new one was never fenced.
    #[tactic(auto, unfolding(crate::specs::Acts::lift))]
    pub(crate) fn lift(self, p: u8) -> LockState
        ensures { result ≡ Acts.lift self p }
    {
        let own = self.row(p);
        self.put_guard(own.succ, false).onward(p)
    }

    // Test and set in one act: two who find the lock free at once cannot both take it.
    #[tactic(auto, unfolding(crate::specs::Acts::old_try, crate::specs::Acts::unheld))]
    pub(crate) fn old_try(self, p: u8) -> LockState
        ensures { result ≡ Acts.old_try self p }
    {
        let unheld = self.tail == LockState::NONE;
        if unheld {
            self.put_tail(p).to(p, Place::Inside)
        } else {
            self.to(p, Place::OldPoll)
        }
    }

    // No turn can be lost here, as nobody keeps one: the flag alone decides.
    #[tactic(auto, unfolding(crate::specs::Acts::old_poll))]
    pub(crate) fn old_poll(self, p: u8) -> LockState
        ensures { result ≡ Acts.old_poll self p }
    {
        let own = self.row(p);
        if own.flag {
            self.put_flag(p, false).to(p, Place::OldService)
        } else {
            self.to(p, Place::OldTry) // and tries again
        }
    }

    #[tactic(auto, unfolding(crate::specs::Acts::old_service))]
    pub(crate) fn old_service(self, p: u8) -> LockState
        ensures { result ≡ Acts.old_service self p }
    {
        self.to(p, Place::OldTry)
    }

    // Whoever tries next has it, be it the one who leaves.
    #[tactic(auto, unfolding(crate::specs::Acts::old_free))]
    pub(crate) fn old_free(self, p: u8) -> LockState
        ensures { result ≡ Acts.old_free self p }
    {
        self.put_tail(LockState::NONE).to(p, Place::Rest)
    }

    // The figure trusts this read, though succ may have come back and cleared its next since the peek: nobody holds it at a gate.
    #[tactic(auto, unfolding(crate::specs::Acts::reread))]
    pub(crate) fn reread(self, p: u8) -> LockState
        ensures { result ≡ Acts.reread self p }
    {
        let own = self.row(p);
        let succ = self.row(own.succ);
        let read = self.put_nx(p, succ.next);
        let unlinked = succ.next == LockState::NONE;
        if unlinked {
            read.to(p, Place::Lost)
        } else {
            read.put_succ(p, succ.next).to(p, Place::Hand)
        }
    }

    // It has the lock and knows nobody to hand it to.
    pub(crate) fn lost(self, p: u8) -> LockState
        ensures { result ≡ Acts.lost self p }
    {
        self // for good
    }
}
