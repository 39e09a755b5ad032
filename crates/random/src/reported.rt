// Schedules reported: one alone, or a list one after the other, with the digests of what is answered.
ghost use Rattle.std.specs.Prelude.{◌<◌};

use crate::digest::Digest;
use crate::list::Entry;
use crate::text;
use report::{Table, Tally};

// What is told of a list: how many schedules are refused, the digest of all answers, and that of the table at the end.
#[derive(Clone, Copy)]
pub struct Told {
    pub refused: usize,
    pub answers: Digest,
    pub table: Digest,
}

// The table after one schedule alone, with all rows lent: where it is refused, zeros.
pub fn alone(number: u32, room: &mut [u8; text::TOO_LONG]) -> Table {
    match report::by_value(text::made(number, room), [[0; 16]; 16], 16) {
        Ok(measured) => measured.table,
        Err(refused) => refused.table,
    }
}

// All schedules of a list, in its order.
pub fn reported(list: &[Entry], start: Table, room: &mut [u8; text::TOO_LONG]) -> Told {
    let mut table = start;
    let mut refused: usize = 0;
    let mut answers = Digest::new();
    for entry in list {
        let schedule = text::made(entry.number, room);
        match report::by_value(schedule, table, entry.lent) {
            Ok(m) => {
                table = m.table;
                add_answer(&mut answers, 0, 0, m.laid_down(), *entry);
            }
            Err(r) => {
                table = r.table;
                refused = refused.saturating_add(1);
                add_answer(&mut answers, r.refusal.into(), r.line, &[], *entry);
            }
        }
    }
    Told {
        refused,
        answers,
        table: digest(table),
    }
}

// An answer more, as the digest takes it: the refusal by its number, 0 for accepted; its line; how many rows are laid down; and all rows
// lent.
fn add_answer(digest: &mut Digest, refusal: u8, line: usize, tallies: &[Tally], entry: Entry) {
    let count = tallies.len();
    digest.add(&[refusal]);
    digest.add(&line.to_be_bytes()[6..]);
    digest.add(&count.to_be_bytes()[7..]);
    for tally in tallies {
        add_tally(digest, *tally);
    }
    for r in count..entry.lent {
        add_tally(digest, as_lent(r));
    }
}

// Lent row r as it was.
fn as_lent(r: usize) -> Tally
    requires { r < 18 }
{
    let before = 3 * r as u32;
    Tally {
        entries: before + 1,
        interrupts: before + 2,
        joins: before + 3,
    }
}

fn add_tally(digest: &mut Digest, tally: Tally) {
    digest.add_number(tally.entries);
    digest.add_number(tally.interrupts);
    digest.add_number(tally.joins);
}

fn digest(table: Table) -> Digest {
    let mut digest = Digest::new();
    for count in table.as_flattened() {
        digest.add_number(*count);
    }
    digest
}
