// Every contract that this crate exports, tied to its definition: each function here promises the definition and calls the exported
// function, so that a contract that says less is refused. Nobody calls these.
ghost use Rattle.std.specs.Prelude.{◌≡◌, [], ◌∷◌, length, eqb, ltb};
ghost use Rattle.frame.specs.Writing.{line_of, leaves};
ghost use Rattle.bench.specs.Lent.{room_for, logged, left};
ghost use Rattle.report.specs.Table.{added_to};
ghost use Rattle.board.specs.Written.{written};
ghost use Rattle.board.specs.Numbers.{told_with, numbers_after};

fn told_room(bytes: usize) -> usize
    ensures { result ≡ room_for bytes }
{
    crate::pontivesca_room(bytes)
}

fn told_log(schedule: &[u8], out: &mut [u8]) -> usize
    ensures value { result ≡ (logged schedule.now out.old).length }
    ensures result_value { eqb result 0 ≡ ltb (length out.old) (room_for (length schedule.now)) }
    ensures out_after { out.new ≡ left schedule.now out.old }
{
    crate::pontivesca_log(schedule, out)
}

fn told_line(kind: u8, first: u8, second: u8, out: &mut [u8]) -> usize
    ensures value { result ≡ written (line_of (kind ∷ first ∷ second ∷ [])) out.old }
    ensures out_after { out.new ≡ leaves (line_of (kind ∷ first ∷ second ∷ [])) out.old }
{
    crate::pontivesca_line(kind, first, second, out)
}

fn told_report(
    schedule: &[u8],
    table: &mut [[u32; 16]; 16],
    rows: &mut [u32],
    line: &mut usize,
) -> u8
    ensures value { result ≡ (told_with schedule.now table.old rows.old).refusal }
    ensures line_after { line.new ≡ (told_with schedule.now table.old rows.old).line }
    ensures table_after { table.new ≡ (told_with schedule.now table.old rows.old).table }
    ensures rows_after { rows.new ≡ numbers_after schedule.now table.old rows.old }
{
    crate::pontivesca_report(schedule, table, rows, line)
}

fn told_add(table: &mut [[u32; 16]; 16], other: &[[u32; 16]; 16]) -> u8
    ensures value { result ≡ (added_to table.old other.now).refusal }
    ensures table_after { table.new ≡ (added_to table.old other.now).table }
{
    crate::pontivesca_add(table, other)
}
