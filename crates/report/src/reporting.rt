// The report of one schedule: judged in the order of the refusals, the table handed back, and the tallies laid into lent rows.
ghost use Rattle.std.specs.Prelude.{◌≡◌, ◌≤◌, length};
ghost use Rattle.report.specs.Table.{told};
ghost use Rattle.report.specs.Report.{told_measured, measured_of, rows_after};

use crate::following::Followed;
use crate::{Measured, Refusal, Refused, Table, Tally, counting, following, tables};

// The report of a schedule, where so many rows are lent: the table with its counts, and the tallies that are to be laid down; or
// why it is refused, and the table as it was.
pub fn by_value(schedule: &[u8], table: Table, lent: usize) -> Result<Measured, Refused>
    ensures value { told_measured result ≡ measured_of schedule.now table lent }
    ensures count_le_lent { ((told_measured result).count ≤ lent) × ((told_measured result).count ≤ 16) }
{
    let Followed { n, accounts } = following::heard(schedule).map_err(|stopped| Refused {
        refusal: Refusal::from(stopped.refusal),
        line: stopped.line,
        table,
    })?;
    let n = usize::from(n);
    if lent < n {
        return Err(Refused {
            refusal: Refusal::FewRows,
            line: 0,
            table,
        });
    }
    let sum = tables::added(table, counting::charges(&accounts))?;
    Ok(Measured {
        table: sum,
        count: n,
        rows: counting::tallies(&accounts),
    })
}

// The report of a schedule: its counts added to the table, and its tallies in the first N of the lent rows.
pub fn report(schedule: &[u8], table: Table, rows: &mut [Tally]) -> Result<Table, Refused>
    ensures { (told result ≡ (measured_of schedule.now table (length rows.old)).told)
        × (rows.new ≡ rows_after schedule.now table rows.old) }
{
    let measured = by_value(schedule, table, rows.len())?;
    rows[..measured.count].copy_from_slice(measured.laid_down());
    Ok(measured.table)
}
