// Every public contract of this crate, tied to its definition: each function here promises the definition and calls the public
// function, so that a public contract that says less is refused. Nobody calls these. (The functions of `laws` are empty: their
// proofs are of their contracts alone.)
ghost use Rattle.std.specs.Prelude.{◌≡◌};
ghost use Rattle.bench.specs.declared.Refusal.TheVariants.{Line, Lock};
ghost use Rattle.bench.specs.Named.{number};
ghost use Rattle.bench.specs.Lent.{told, room_for, logged, left, Counts};

use crate::{NoRoom, Refusal};

fn told_bench(schedule: &[u8], out: &mut [u8]) -> Result<usize, NoRoom>
    ensures value { told result ≡ logged schedule.now out.old }
    ensures out_after { out.new ≡ left schedule.now out.old }
    ensures counts { Counts (told result).length out.new }
{
    crate::bench(schedule, out)
}

fn told_room_for(bytes: usize) -> usize
    ensures { result ≡ room_for bytes }
{
    crate::room_for(bytes)
}

fn told_number(refusal: Refusal) -> u8
    ensures { result ≡ number refusal }
{
    u8::from(refusal)
}

fn told_line(line: frame::Refusal) -> Refusal
    ensures { result ≡ Line line }
{
    Refusal::from(line)
}

fn told_lock(lock: lock::Refusal) -> Refusal
    ensures { result ≡ Lock lock }
{
    Refusal::from(lock)
}

fn told_refused(refused: lock::Refused) -> Refusal
    ensures { result ≡ Lock refused.refusal }
{
    Refusal::from(refused)
}
