// Who made whom wait: a schedule's counts added to a table, and its tallies laid into lent rows (request [4]).
//
// Each function is one definition of `specs/`: `counting` keeps the accounts of the processors call by call, `following` goes
// along a schedule, `tables` adds, `reporting` judges and lays down. Here are what is answered, and the refusals with their numbers.
#![tactic(auto)]

mod counting;
mod following;
pub mod laws;
mod reporting;
mod tables;
mod told;

ghost use Rattle.std.specs.Prelude.{◌≡◌, take};
ghost use Rattle.report.specs.Named.{number};
ghost use Rattle.report.specs.declared.Refusal.TheVariants.{Schedule};

pub use reporting::{by_value, report};
pub use tables::added;

// A table of counts. Row a, column b: how many entries of a made b wait.
pub type Table = [[u32; 16]; 16];

// One row of what is lent: a processor's entries, interrupts taken and joins in one schedule.
#[derive(Clone, Copy, Debug, Default, PartialEq, Eq)]
pub struct Tally {
    pub entries: u32,
    pub interrupts: u32,
    pub joins: u32,
}

// Why nothing is added: the schedule's own refusal, fewer rows are lent than N, or a count would pass the greatest.
#[derive(Clone, Copy, Debug, PartialEq, Eq)]
pub enum Refusal {
    Schedule(bench::Refusal),
    FewRows,
    TooMany,
}

// A refusal and its line, 0 where it has none (as an 05 line has it), with the table as it was.
#[derive(Clone, Copy, Debug, PartialEq, Eq)]
pub struct Refused {
    pub refusal: Refusal,
    pub line: usize,
    pub table: Table,
}

// The report of one schedule by value: the table with its counts added, and its tallies, so many in the first of these rows. An array and a
// count, as no heap is wanted and `measured_of` determines all sixteen rows.
#[derive(Clone, Copy, Debug, PartialEq, Eq)]
pub struct Measured {
    pub table: Table,
    pub count: usize,
    pub rows: [Tally; 16],
}

impl Measured {
    // The tallies that are laid down, one for each processor.
    pub fn laid_down(&self) -> &[Tally]
        ensures { result.now ≡ take self.now.count self.now.rows }
    {
        &self.rows[..self.count.min(16)]
    }
}

impl From<bench::Refusal> for Refusal {
    ghost from_gives = { λ schedule refusal. refusal ≡ Schedule schedule };

    fn from(schedule: bench::Refusal) -> Refusal {
        Refusal::Schedule(schedule)
    }
}

impl From<Refusal> for u8 {
    ghost from_gives = { λ refusal n. n ≡ number refusal };

    fn from(refusal: Refusal) -> u8 {
        match refusal {
            Refusal::Schedule(schedule) => u8::from(schedule),
            Refusal::FewRows => FEW_ROWS,
            Refusal::TooMany => TOO_MANY,
        }
    }
}

// Request [4]'s numbers.
const FEW_ROWS: u8 = 13;

const TOO_MANY: u8 = 12;
