// A table of counts added to another, cell by cell; or 12, where a count would pass the greatest.
ghost use Rattle.std.specs.Prelude.{◌≡◌, true};
ghost use Rattle.report.specs.Table.{told, row_holds, row_sum, table_holds, table_sum, added_to};

use crate::{Refusal, Refused, Table};

// Every sum of two rows is a count.
fn row_holds(t: &[u32; 16], m: &[u32; 16]) -> bool
    ensures { result ≡ row_holds t.now m.now }
{
    t.iter().zip(m).all(|(x, y)| x.checked_add(*y).is_some())
}

// A row added to a row. Called at each entry, so in place. The second by its places, since an adapter of `iter_mut` forgets what it goes over.
pub(crate) fn add_row(t: &mut [u32; 16], m: &[u32; 16])
    requires { row_holds t.old m.now ≡ true }
    ensures { t.new ≡ row_sum t.old m.now }
{
    for (i, x) in t.iter_mut().enumerate() {
        *x += m[i];
    }
}

// Every sum of two tables is a count.
fn table_holds(t: &Table, m: &Table) -> bool
    ensures { result ≡ table_holds t.now m.now }
{
    t.iter().zip(m).all(|(t, m)| row_holds(t, m))
}

// A table added to a table, likewise. Row and table have a definition each, and the table's function is the row's at each row.
fn add_table(t: &mut Table, m: &Table)
    requires { table_holds t.old m.now ≡ true }
    ensures { t.new ≡ table_sum t.old m.now }
{
    for (a, row) in t.iter_mut().enumerate() {
        add_row(row, &m[a]);
    }
}

// The table with the counts of another added; or 12, and the table as it was.
pub fn added(t: Table, m: Table) -> Result<Table, Refused>
    ensures { told result ≡ added_to t m }
{
    if !table_holds(&t, &m) {
        return Err(Refused {
            refusal: Refusal::TooMany,
            line: 0,
            table: t,
        });
    }
    let mut sum = t;
    add_table(&mut sum, &m);
    Ok(sum)
}
