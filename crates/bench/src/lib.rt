// A schedule's bytes in, a log's bytes out.
//
// The log goes straight into the lent buffer, a line at a time, and the text is handed on as a part from each line
// on. Each function is one definition of `specs/`: `lines` writes single lines, `turns` goes from line to line,
// `opening` begins. Here are the refusals, with their numbers.
#![tactic(auto)]

ghost use Rattle.std.specs.Prelude.{◌≡◌};
ghost use Rattle.bench.specs.Named.{number};
ghost use Rattle.bench.specs.declared.Refusal.TheVariants.{Line, Lock};

pub mod laws;
mod lines;
mod opening;
mod told;
mod turns;

pub use frame::NoRoom;
pub use opening::{LONGEST, ROOM, bench, room_for};

// Why a schedule is turned away: it is too long, a line of it is none, or the lock refuses what a line asks for.
#[derive(Clone, Copy, Debug, PartialEq, Eq)]
pub enum Refusal {
    TooLong,
    Line(frame::Refusal),
    Lock(lock::Refusal),
}

impl From<frame::Refusal> for Refusal {
    ghost from_gives = { λ line refusal. refusal ≡ Line line };

    fn from(line: frame::Refusal) -> Refusal {
        Refusal::Line(line)
    }
}

impl From<lock::Refusal> for Refusal {
    ghost from_gives = { λ lock refusal. refusal ≡ Lock lock };

    fn from(lock: lock::Refusal) -> Refusal {
        Refusal::Lock(lock)
    }
}

// For `?` after an event or a fresh state: the state beside the refusal is let go.
impl From<lock::Refused> for Refusal {
    ghost from_gives = { λ refused refusal. refusal ≡ Lock refused.refusal };

    fn from(refused: lock::Refused) -> Refusal {
        Refusal::Lock(refused.refusal)
    }
}

impl From<Refusal> for u8 {
    ghost from_gives = { λ refusal n. n ≡ number refusal };

    fn from(refusal: Refusal) -> u8 {
        match refusal {
            Refusal::TooLong => TOO_LONG,
            Refusal::Line(line) => u8::from(line),
            Refusal::Lock(lock) => u8::from(lock),
        }
    }
}

// Document 01's number of a schedule that is too long.
const TOO_LONG: u8 = 1;
