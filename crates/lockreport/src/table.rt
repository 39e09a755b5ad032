// A table as text: 16 lines, each of 16 numbers of ten digits with single spaces between, a row after the other. So each cell has
// eleven bytes, the last of them the space or the line's end.
use report::Table;
use std::fmt;

pub const LENGTH: usize = 16 * LINE;

const LINE: usize = 16 * CELL;

const CELL: usize = 11;

// What stands after the numbers of a line.
const MARKS: &[u8; 16] = b"               \n";

// The table of such a text.
pub fn read(text: &[u8]) -> Option<Table> {
    if text.len() != LENGTH {
        return None;
    }
    let mut table = [[0; 16]; 16];
    let (lines, _) = text.as_chunks::<LINE>();
    for (row, line) in table.iter_mut().zip(lines) {
        let (cells, _) = line.as_chunks::<CELL>();
        for ((count, cell), mark) in row.iter_mut().zip(cells).zip(MARKS) {
            *count = read_cell(cell, *mark)?;
        }
    }
    Some(table)
}

// The number of a cell that ends with that mark. That all are digits is asked beside, since `parse` takes a sign.
fn read_cell(cell: &[u8; CELL], mark: u8) -> Option<u32> {
    let (last, digits) = cell.split_last()?;
    if *last != mark || !digits.iter().all(|b| b.is_ascii_digit()) {
        return None;
    }
    str::from_utf8(digits).ok()?.parse().ok()
}

// A table that is printed as such a text.
#[derive(Clone, Copy)]
pub struct Shown<'a>(pub &'a Table);

impl fmt::Display for Shown<'_> {
    fn fmt<W: fmt::Write>(&self, f: &mut fmt::Formatter<W>) -> fmt::Result {
        for row in self.0 {
            for (count, mark) in row.iter().zip(MARKS) {
                let mark = char::from(*mark);
                write!(f, "{count:010}{mark}")?;
            }
        }
        Ok(())
    }
}
