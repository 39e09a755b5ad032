// The reader and the writer of lines: from a schedule's bytes to numbers, and from numbers to a log's bytes.
//     pairs      digits, pairs and their sum, for lines of every length, read or written
//     reading    the reader
//     writing    the writer
//     told       what each public function promises, told once more
//     laws       what reading and writing owe each other
// and here the kinds of lines, the frame that is read, and the refusals of both.
//
// The public functions ask nothing of their caller. What each answers, and what it leaves in a lent buffer, is one
// equation with a definition of `specs/`.
#![tactic(auto)]

ghost use Rattle.std.specs.Prelude.{◌≡◌};
ghost use Rattle.frame.specs.Reading.{begins, number};
ghost use Rattle.frame.specs.Writing.{no_room};

pub mod laws;
mod pairs;
mod reading;
mod told;
mod writing;

pub use reading::{read, rest};
pub use writing::{write, write_count, write_frame, write_header, write_refusal, write_row};

// The kinds of document 01's lines, by the pair that begins one.
#[derive(Clone, Copy)]
pub(crate) enum Kind {
    Header = 1,
    Event = 2,
    Row = 3,
    Count = 4,
    Refused = 5,
}

impl From<Kind> for u8 {
    ghost from_gives = { λ kind n. n ≡ begins kind };

    fn from(kind: Kind) -> u8 {
        kind as u8
    }
}

// The bytes of a line of four pairs: these and a line feed.
pub const LINE: usize = 9;

// What ends every line.
pub(crate) const LINE_FEED: u8 = b'\n';

// A line of four pairs, by their numbers: what the reader answers.
#[derive(Clone, Copy, Debug, PartialEq, Eq)]
pub struct Frame {
    pub kind: u8,
    pub first: u8,
    pub second: u8,
    pub check: u8,
}

// The reader's refusals, by document 01's numbers.
#[derive(Clone, Copy, Debug, PartialEq, Eq)]
pub enum Refusal {
    Torn = 2,
    NotDigits = 3,
    WrongCheck = 4,
    WrongKind = 5,
}

impl From<Refusal> for u8 {
    ghost from_gives = { λ refusal n. n ≡ number refusal };

    fn from(refusal: Refusal) -> u8 {
        refusal as u8
    }
}

// The writer's refusal, 10: a buffer that is shorter than the line.
#[derive(Clone, Copy, Debug, PartialEq, Eq)]
pub struct NoRoom;

impl From<NoRoom> for u8 {
    ghost from_gives = { λ _ n. n ≡ no_room };

    fn from(_refusal: NoRoom) -> u8 {
        10
    }
}
