// What C and Rust programs call: a schedule's log, the room that it needs, a line of a schedule, and the report of who made whom
// wait.
//
// Each function is one definition of bench, frame or report, told as one number: how many bytes are written, and 0 where the
// lent buffer has not the room; of a report its refusal. They ask nothing of their caller but that a slice is what it says. Numbers and
// lent parts, and no results: C calls them, through `board_c`, which repeats them since the kit makes a crate a library or a static one.
#![tactic(auto)]

pub mod laws;
mod rows;
mod told;

ghost use Rattle.std.specs.Prelude.{◌≡◌, [], ◌∷◌, length, eqb, ltb};
ghost use Rattle.frame.specs.Writing.{line_of, leaves};
ghost use Rattle.bench.specs.Lent.{room_for, logged, left};
ghost use Rattle.report.specs.Table.{added_to};
ghost use Rattle.board.specs.Written.{written};
ghost use Rattle.board.specs.Numbers.{told_with, numbers_after};

// The number where nothing is refused.
const ACCEPTED: u8 = 0;

// The room that a buffer must have for the log of a schedule of so many bytes.
pub fn pontivesca_room(bytes: usize) -> usize
    ensures { result ≡ room_for bytes }
{
    bench::room_for(bytes)
}

// The log of a schedule, in the first bytes of `out`: how many bytes it fills. 0, and nothing written, exactly where
// `out` has not the room.
pub fn pontivesca_log(schedule: &[u8], out: &mut [u8]) -> usize
    ensures value { result ≡ (logged schedule.now out.old).length }
    ensures result_value { eqb result 0 ≡ ltb (length out.old) (room_for (length schedule.now)) }
    ensures out_after { out.new ≡ left schedule.now out.old }
{
    bench::bench(schedule, out).unwrap_or(0)
}

// A line of four pairs, `kind first second check`, in the first bytes of `out`: 9. 0, and nothing written, where `out`
// is shorter.
pub fn pontivesca_line(kind: u8, first: u8, second: u8, out: &mut [u8]) -> usize
    ensures value { result ≡ written (line_of (kind ∷ first ∷ second ∷ [])) out.old }
    ensures out_after { out.new ≡ leaves (line_of (kind ∷ first ∷ second ∷ [])) out.old }
{
    match frame::write_frame(out, kind, first, second) {
        Ok(()) => frame::LINE,
        Err(_) => 0,
    }
}

// Who made whom wait in a schedule: its refusal, 0 for none, and the refusal's line. Where nothing is refused the schedule's counts
// are added to the table, and its tallies are laid into the lent numbers, three for each row; else both stay as they were.
pub fn pontivesca_report(
    schedule: &[u8],
    table: &mut [[u32; 16]; 16],
    rows: &mut [u32],
    line: &mut usize,
) -> u8
    ensures value { result ≡ (told_with schedule.now table.old rows.old).refusal }
    ensures line_after { line.new ≡ (told_with schedule.now table.old rows.old).line }
    ensures table_after { table.new ≡ (told_with schedule.now table.old rows.old).table }
    ensures rows_after { rows.new ≡ numbers_after schedule.now table.old rows.old }
{
    match report::by_value(schedule, *table, rows.len() / 3) {
        Ok(measured) => {
            rows::lay(rows, measured.laid_down());
            *table = measured.table;
            *line = 0;
            ACCEPTED
        }
        Err(refused) => {
            *line = refused.line;
            u8::from(refused.refusal)
        }
    }
}

// A table of another part added to this one: 0. 12, and the table as it was, where a count would pass 4,294,967,295.
pub fn pontivesca_add(table: &mut [[u32; 16]; 16], other: &[[u32; 16]; 16]) -> u8
    ensures value { result ≡ (added_to table.old other.now).refusal }
    ensures table_after { table.new ≡ (added_to table.old other.now).table }
{
    match report::added(*table, *other) {
        Ok(sum) => {
            *table = sum;
            ACCEPTED
        }
        Err(refused) => u8::from(refused.refusal),
    }
}
