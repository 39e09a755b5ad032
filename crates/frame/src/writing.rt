// The writer. `write` writes a line of any number of values; the lines of document 01 are its cases:
//     write_frame      any line of four pairs, the ones that are read
//     write_header     01
//     write_row        03
//     write_count      04
//     write_refusal    05
// Each of these is a function of its own, since its parameters are the values that document 01 names for the line.
ghost use Rattle.std.specs.Prelude.{◌≡◌, [], ◌∷◌};
ghost use Rattle.frame.specs.Writing.{line_of, written, writes, leaves, header_line, row_line, count_line, refusal_line};

use crate::{Kind, LINE_FEED, NoRoom, pairs};

// The bytes after the values: the check and the line feed.
const ENDING: usize = 3;

// Writes the values, their check and a line feed into the first bytes of `out`, or refuses and writes nothing
// where `out` is shorter than that line.
pub fn write(out: &mut [u8], values: &[u8]) -> Result<(), NoRoom>
    ensures value { written result ≡ writes (line_of values.now) out.old }
    ensures out_after { out.new ≡ leaves (line_of values.now) out.old }
{
    // The line has 2 * n + 3 bytes, which need not fit a usize: so the room is halved, and not n doubled.
    let n = values.len();
    if out.len() < ENDING || (out.len() - ENDING) / 2 < n {
        return Err(NoRoom);
    }
    pairs::put_pairs(out, values);
    pairs::put_pair(out, n, pairs::check(values));
    out[2 * n + 2] = LINE_FEED;
    Ok(())
}

// A line of four pairs, the ones that the reader reads: the kind, two values, the check.
pub fn write_frame(out: &mut [u8], kind: u8, first: u8, second: u8) -> Result<(), NoRoom>
    ensures value { written result ≡ writes (line_of (kind ∷ first ∷ second ∷ [])) out.old }
    ensures out_after { out.new ≡ leaves (line_of (kind ∷ first ∷ second ∷ [])) out.old }
{
    let values = [kind, first, second];
    write(out, &values)
}

// 01 edition N check
pub fn write_header(out: &mut [u8], edition: u8, n: u8) -> Result<(), NoRoom>
    ensures value { written result ≡ writes (header_line edition n) out.old }
    ensures out_after { out.new ≡ leaves (header_line edition n) out.old }
{
    write_frame(out, u8::from(Kind::Header), edition, n)
}

// 03 processor place L locked next marks check
pub fn write_row(
    out: &mut [u8],
    processor: u8,
    place: u8,
    tail: u8,
    locked: u8,
    next: u8,
    marks: u8,
) -> Result<(), NoRoom>
    ensures value { written result ≡ writes (row_line processor place tail locked next marks) out.old }
    ensures out_after { out.new ≡ leaves (row_line processor place tail locked next marks) out.old }
{
    let values = [
        u8::from(Kind::Row),
        processor,
        place,
        tail,
        locked,
        next,
        marks,
    ];
    write(out, &values)
}

// 04 high low check
pub fn write_count(out: &mut [u8], high: u8, low: u8) -> Result<(), NoRoom>
    ensures value { written result ≡ writes (count_line high low) out.old }
    ensures out_after { out.new ≡ leaves (count_line high low) out.old }
{
    write_frame(out, u8::from(Kind::Count), high, low)
}

// 05 refusal high low check
pub fn write_refusal(out: &mut [u8], refusal: u8, high: u8, low: u8) -> Result<(), NoRoom>
    ensures value { written result ≡ writes (refusal_line refusal high low) out.old }
    ensures out_after { out.new ≡ leaves (refusal_line refusal high low) out.old }
{
    let values = [u8::from(Kind::Refused), refusal, high, low];
    write(out, &values)
}
