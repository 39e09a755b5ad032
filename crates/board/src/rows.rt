// Tallies laid down as plain numbers, three for each: entries, interrupts, joins.
ghost use Rattle.std.specs.Prelude.{◌≡◌, ◌++◌, ◌*◌, ◌≤◌, length, drop};
ghost use Rattle.board.specs.Numbers.{numbers_of};

use report::Tally;

// The tallies, into the first of the lent numbers.
pub(crate) fn lay(rows: &mut [u32], tallies: &[Tally])
    requires { 3 * length tallies.now ≤ length rows.old }
    ensures { rows.new ≡ numbers_of tallies.now ++ drop (3 * length tallies.now) rows.old }
{
    // By places: `chunks_exact_mut(3)` under `zip` forgets what it goes over.
    for (i, tally) in tallies.iter().enumerate() {
        let at = 3 * i;
        rows[at] = tally.entries;
        rows[at + 1] = tally.interrupts;
        rows[at + 2] = tally.joins;
    }
}
