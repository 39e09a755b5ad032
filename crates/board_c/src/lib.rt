// The static library that C and Rust programs link: each function is board's of that name, with its clauses.
#![tactic(auto)]

mod told;

ghost use Rattle.std.specs.Prelude.{◌≡◌, [], ◌∷◌, length, eqb, ltb};
ghost use Rattle.frame.specs.Writing.{line_of, leaves};
ghost use Rattle.bench.specs.Lent.{room_for, logged, left};
ghost use Rattle.report.specs.Table.{added_to};
ghost use Rattle.board.specs.Written.{written};
ghost use Rattle.board.specs.Numbers.{told_with, numbers_after};

// The room that a buffer must have for the log of a schedule of so many bytes.
#[unsafe(no_mangle)]
pub extern "C" fn pontivesca_room(bytes: usize) -> usize
    ensures { result ≡ room_for bytes }
{
    board::pontivesca_room(bytes)
}

// The log of a schedule, in the first bytes of `out`: how many bytes it fills. 0, and nothing written, exactly where
// `out` has not the room.
#[unsafe(no_mangle)]
pub extern "C" fn pontivesca_log(schedule: &[u8], out: &mut [u8]) -> usize
    ensures value { result ≡ (logged schedule.now out.old).length }
    ensures result_value { eqb result 0 ≡ ltb (length out.old) (room_for (length schedule.now)) }
    ensures out_after { out.new ≡ left schedule.now out.old }
{
    board::pontivesca_log(schedule, out)
}

// A line of four pairs, `kind first second check`, in the first bytes of `out`: 9. 0, and nothing written, where `out`
// is shorter.
#[unsafe(no_mangle)]
pub extern "C" fn pontivesca_line(kind: u8, first: u8, second: u8, out: &mut [u8]) -> usize
    ensures value { result ≡ written (line_of (kind ∷ first ∷ second ∷ [])) out.old }
    ensures out_after { out.new ≡ leaves (line_of (kind ∷ first ∷ second ∷ [])) out.old }
{
    board::pontivesca_line(kind, first, second, out)
}

// Who made whom wait in a schedule: its refusal, 0 for none, and the refusal's line. Where nothing is refused the schedule's counts
// are added to the table, and its tallies are laid into the lent numbers, three for each row; else both stay as they were.
#[unsafe(no_mangle)]
pub extern "C" fn pontivesca_report(
    schedule: &[u8],
    table: &mut [[u32; 16]; 16],
    rows: &mut [u32],
    line: &mut usize,
) -> u8
    ensures value { result ≡ (told_with schedule.now table.old rows.old).refusal }
    ensures line_after { line.new ≡ (told_with schedule.now table.old rows.old).line }
    ensures table_after { table.new ≡ (told_with schedule.now table.old rows.old).table }
    ensures rows_after { rows.new ≡ numbers_after schedule.now table.old rows.old }
{
    board::pontivesca_report(schedule, table, rows, line)
}

// A table of another part added to this one: 0. 12, and the table as it was, where a count would pass 4,294,967,295.
#[unsafe(no_mangle)]
pub extern "C" fn pontivesca_add(table: &mut [[u32; 16]; 16], other: &[[u32; 16]; 16]) -> u8
    ensures value { result ≡ (added_to table.old other.now).refusal }
    ensures table_after { table.new ≡ (added_to table.old other.now).table }
{
    board::pontivesca_add(table, other)
}
