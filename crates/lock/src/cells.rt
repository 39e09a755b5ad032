// Reading and replacing one row or one cell of a state. A row that is not there reads as fresh and is not replaced, so that
// no act has to know that its neighbour's number is in range.
//
// Each put stays a function: it is the definition of its name in specs/State, which OneEventTouches and the acts' definitions use. One put that
// takes a closure would say the cell at each of its calls, and the acts would no longer read as document 01 does.
ghost use Rattle.std.specs.Prelude.{◌≡◌};
ghost use Rattle.lock.specs.Named.{locked_number, place_number};
ghost use Rattle.lock.specs.State.{row, put_row, put_tail, put_next, put_locked, put_guard, put_flag, to, put_pred, put_succ, put_nx};

use crate::{LockState, Locked, Place, Row};

impl LockState {
    pub fn row(self, p: u8) -> Row
        ensures { result ≡ row self p }
    {
        match self.rows.get(usize::from(p)) {
            Some(row) => *row,
            None => Row::fresh(),
        }
    }

    pub fn put_row(self, p: u8, r: Row) -> LockState
        ensures { result ≡ put_row self p r }
    {
        // Copied and written, since no struct update writes an element.
        let mut s = self;
        if p < LockState::PROCESSORS {
            s.rows[p as usize] = r;
        }
        s
    }

    #[tactic(auto, unfolding(crate::specs::State::put_tail))]
    pub fn put_tail(self, q: u8) -> LockState
        ensures { result ≡ put_tail self q }
    {
        LockState { tail: q, ..self }
    }

    #[tactic(auto, unfolding(crate::specs::State::put_next))]
    pub(crate) fn put_next(self, p: u8, v: u8) -> LockState
        ensures { result ≡ put_next self p v }
    {
        self.put_row(
            p,
            Row {
                next: v,
                ..self.row(p)
            },
        )
    }

    #[tactic(auto, unfolding(crate::specs::State::put_locked))]
    pub(crate) fn put_locked(self, p: u8, v: Locked) -> LockState
        ensures { result ≡ put_locked self p (locked_number v) }
    {
        self.put_row(
            p,
            Row {
                locked: u8::from(v),
                ..self.row(p)
            },
        )
    }

    #[tactic(auto, unfolding(crate::specs::State::put_guard))]
    pub(crate) fn put_guard(self, p: u8, v: bool) -> LockState
        ensures { result ≡ put_guard self p v }
    {
        self.put_row(
            p,
            Row {
                guard: v,
                ..self.row(p)
            },
        )
    }

    #[tactic(auto, unfolding(crate::specs::State::put_flag))]
    pub(crate) fn put_flag(self, p: u8, v: bool) -> LockState
        ensures { result ≡ put_flag self p v }
    {
        self.put_row(
            p,
            Row {
                flag: v,
                ..self.row(p)
            },
        )
    }

    #[tactic(auto, unfolding(crate::specs::State::to))]
    pub(crate) fn to(self, p: u8, v: Place) -> LockState
        ensures { result ≡ to self p (place_number v) }
    {
        self.put_row(
            p,
            Row {
                place: u8::from(v),
                ..self.row(p)
            },
        )
    }

    #[tactic(auto, unfolding(crate::specs::State::put_pred))]
    pub(crate) fn put_pred(self, p: u8, v: u8) -> LockState
        ensures { result ≡ put_pred self p v }
    {
        self.put_row(
            p,
            Row {
                pred: v,
                ..self.row(p)
            },
        )
    }

    #[tactic(auto, unfolding(crate::specs::State::put_succ))]
    pub(crate) fn put_succ(self, p: u8, v: u8) -> LockState
        ensures { result ≡ put_succ self p v }
    {
        self.put_row(
            p,
            Row {
                succ: v,
                ..self.row(p)
            },
        )
    }

    #[tactic(auto, unfolding(crate::specs::State::put_nx))]
    pub(crate) fn put_nx(self, p: u8, v: u8) -> LockState
        ensures { result ≡ put_nx self p v }
    {
        self.put_row(
            p,
            Row {
                nx: v,
                ..self.row(p)
            },
        )
    }
}
