// The line of one answer: decimal numbers with single spaces. `println!` puts it together in a buffer and writes it by one call, since
// there may be thousands of files.
use report::{Refused, Tally};
use std::fmt;

// The refusal, its line and the number of rows laid down, then these rows. It is the printed form (docs/RANDOM.md): of what is not refused
// refusal and line are printed as 0.
#[derive(Clone, Copy)]
pub struct Answer<'a> {
    refusal: u8,
    line: usize,
    rows: &'a [Tally],
}

impl<'a> Answer<'a> {
    // Of what is not refused, with the rows laid down.
    pub fn accepted(rows: &'a [Tally]) -> Answer<'a> {
        Answer {
            refusal: 0,
            line: 0,
            rows,
        }
    }
}

impl From<Refused> for Answer<'_> {
    fn from(refused: Refused) -> Self {
        Answer {
            refusal: refused.refusal.into(),
            line: refused.line,
            rows: &[],
        }
    }
}

impl fmt::Display for Answer<'_> {
    fn fmt<W: fmt::Write>(&self, f: &mut fmt::Formatter<W>) -> fmt::Result {
        write!(f, "{} {} {}", self.refusal, self.line, self.rows.len())?;
        for row in self.rows {
            write!(f, " {} {} {}", row.entries, row.interrupts, row.joins)?;
        }
        Ok(())
    }
}
