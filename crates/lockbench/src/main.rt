// lockbench: a schedule on standard input, its log on standard output. All that matters is in `bench`.
#![tactic(auto)]

ghost use Rattle.std.specs.Prelude.{◌≤◌, length};

use std::io::Read;

// One byte more than the longest schedule, so that a longer one is seen.
const SCHEDULE: usize = bench::LONGEST + 1;

// Both buffers are arrays: the program has no heap.
fn main(rt: HostRuntime) {
    let mut schedule = [0u8; SCHEDULE];
    let n = read_full(&mut rt.stdin(), &mut schedule);
    let mut log = [0u8; bench::ROOM];
    let Ok(length) = bench::bench(&schedule[..n], &mut log) else {
        return;
    };
    // A log that cannot be written is cut short, which its reader sees by its last line.
    let _ = rt.write_all(&log[..length]);
}

// Reads until the buffer is full, the input ends or a read fails; answers how many bytes it put at the buffer's start. lockbench and
// lockreport each have it, since no crate that both use reads anything. It stays beside std: `read_exact` does not say how many there
// were, `read_to_end` takes a heap (the programs have none), and `io::copy` goes on where a signal broke a read off.
fn read_full<R: Read>(input: &mut R, buffer: &mut [u8]) -> usize
    ensures { result ≤ length buffer.new }
{
    let mut done = 0;
    while done < buffer.len()
        && let Ok(n @ 1..) = input.read(&mut buffer[done..])
    {
        done += n;
    }
    done
}
