// Every public contract of this crate, tied to its definition: each function here promises the definition and calls the public
// function, so that a public contract that says less is refused. Nobody calls these. (The functions of `laws` are empty: their
// proofs are of their contracts alone.)
ghost use Rattle.std.specs.Prelude.{◌≡◌, ◌≤◌, length, take};
ghost use Rattle.report.specs.declared.Refusal.TheVariants.{Schedule};
ghost use Rattle.report.specs.Named.{number};
ghost use Rattle.report.specs.Table.{told, added_to};
ghost use Rattle.report.specs.Report.{told_measured, measured_of, rows_after};

use crate::{Measured, Refusal, Refused, Table, Tally};

fn told_by_value(schedule: &[u8], table: Table, lent: usize) -> Result<Measured, Refused>
    ensures value { told_measured result ≡ measured_of schedule.now table lent }
    ensures count_le_lent { ((told_measured result).count ≤ lent) × ((told_measured result).count ≤ 16) }
{
    crate::by_value(schedule, table, lent)
}

fn told_report(schedule: &[u8], table: Table, rows: &mut [Tally]) -> Result<Table, Refused>
    ensures { (told result ≡ (measured_of schedule.now table (length rows.old)).told)
        × (rows.new ≡ rows_after schedule.now table rows.old) }
{
    crate::report(schedule, table, rows)
}

fn told_added(t: Table, m: Table) -> Result<Table, Refused>
    ensures { told result ≡ added_to t m }
{
    crate::added(t, m)
}

fn told_laid_down(measured: &Measured) -> &[Tally]
    ensures { result.now ≡ take measured.now.count measured.now.rows }
{
    measured.laid_down()
}

fn told_from(schedule: bench::Refusal) -> Refusal
    ensures { result ≡ Schedule schedule }
{
    Refusal::from(schedule)
}

fn told_number(refusal: Refusal) -> u8
    ensures { result ≡ number refusal }
{
    u8::from(refusal)
}
