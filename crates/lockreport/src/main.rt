// lockreport: a report in numbers over the files that its arguments name (docs/RANDOM.md). Each is a schedule or a table; a line is
// written for it, and the table goes on to the next. All that matters is in `report`.
#![tactic(auto)]

ghost use Rattle.std.specs.Prelude.{◌≤◌, length, IfSome};

mod answer;
mod table;

use answer::Answer;
use arrayvec::ArrayString;
use report::Table;
use std::env::{Env, FillError};
use std::fmt::Write;
use std::fs::{Files, OpenOptions};
use std::io::Read;
use table::Shown;

// One byte more than the longest schedule, so that a longer one is seen.
const SCHEDULE: usize = bench::LONGEST + 1;

// One byte more than a table's text, likewise.
const TEXT: usize = table::LENGTH + 1;

// The rows lent to each schedule: as many as there are processors at most.
const LENT: usize = 16;

// What cannot be written is left out; who reads the lines counts them.
fn main(rt: HostRuntime) {
    // An array, as all buffers here, since the program has no heap. All schedules are read into it: to clear one for each would take longer
    // than a short schedule's report.
    let mut schedule = [0u8; SCHEDULE];
    let mut table = [[0; 16]; 16];
    // The first word is the program's own name.
    for i in 1..usize::MAX {
        // `env::args` would take a heap.
        let mut word = [0u8; 4097];
        match rt.arg(i, &mut word) {
            Ok(n) => take_in(&rt, &word[..n], &mut table, &mut schedule),
            // No file has so long a name.
            Err(FillError::TooLong) => unread(&rt),
            Err(FillError::NotPresent) => break,
        }
    }
    write_table(&rt, &table);
}

fn take_in(rt: &HostRuntime, word: &[u8], table: &mut Table, schedule: &mut [u8]) {
    let read = match word {
        [b's', path @ ..] => take_schedule(rt, path, table, schedule),
        [b't', path @ ..] => take_table(rt, path, table),
        _ => None,
    };
    if read.is_none() {
        unread(rt);
    }
}

// What is no schedule and no table leaves the table as it was.
fn unread(rt: &impl Print) {
    let _ = println!(rt; "unread");
}

fn take_schedule(
    rt: &HostRuntime,
    path: &[u8],
    table: &mut Table,
    schedule: &mut [u8],
) -> Option<()> {
    let n = read_file(rt, path, schedule)?;
    match report::by_value(&schedule[..n], *table, LENT) {
        Ok(measured) => {
            *table = measured.table;
            tell(rt, Answer::accepted(measured.laid_down()));
        }
        Err(refused) => tell(rt, refused.into()),
    }
    Some(())
}

fn take_table(rt: &HostRuntime, path: &[u8], table: &mut Table) -> Option<()> {
    let mut text = [0u8; TEXT];
    let n = read_file(rt, path, &mut text)?;
    let more = table::read(&text[..n])?;
    match report::added(*table, more) {
        Ok(sum) => {
            *table = sum;
            tell(rt, Answer::accepted(&[]));
        }
        Err(refused) => tell(rt, refused.into()),
    }
    Some(())
}

fn tell(rt: &impl Print, answer: Answer<'_>) {
    let _ = println!(rt; "{answer}");
}

// All of it by one call: the buffer of `print!` is shorter than the text.
fn write_table(rt: &impl Print, table: &Table) {
    let mut text = ArrayString::<{ table::LENGTH }>::new();
    let _ = write!(text, "{}", Shown(table));
    let _ = rt.write_all(text.as_str().as_bytes());
}

// How many bytes of the file stand at the buffer's start, or None where it cannot be opened. A name that is no UTF-8 cannot be.
// What opens files takes the runtime itself: under the bound `Files` the verdict would rest on the contracts of all C functions that
// do something with files, also of those that are never called.
fn read_file(rt: &HostRuntime, path: &[u8], buffer: &mut [u8]) -> Option<usize>
    ensures { IfSome result (λ n. n ≤ length buffer.new) }
{
    let name = str::from_utf8(path).ok()?;
    let mut how = OpenOptions::new();
    how.read(true);
    let mut file = rt.open_file(&how, name).ok()?;
    Some(read_full(&mut file, buffer))
}

// Reads until the buffer is full, the file ends or a read fails; answers how many bytes it put at the buffer's start. lockbench and
// lockreport each have it, since no crate that both use reads anything. It stays beside std: `read_exact` does not say how many there
// were, `read_to_end` takes a heap (the programs have none), and `io::copy` goes on where a signal broke a read off.
fn read_full<R: Read>(file: &mut R, buffer: &mut [u8]) -> usize
    ensures { result ≤ length buffer.new }
{
    let mut done = 0;
    while done < buffer.len()
        && let Ok(n @ 1..) = file.read(&mut buffer[done..])
    {
        done += n;
    }
    done
}
