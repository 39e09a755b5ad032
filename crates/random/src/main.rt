// Random and damaged schedules through the bench: a line for each with its log's length and digest, and a few logs whole. Then
// states handed in at random, each with one event. Then short schedules with every pair of bytes, and with every byte at each
// place. Then reports over lists of the schedules. Then every place in every edition. All are those of docs/RANDOM.md; what is
// printed is held to what the second program prints of the same page.
#![tactic(auto)]

mod bytes;
mod damage;
mod dice;
mod digest;
mod handed;
mod list;
mod plan;
mod reported;
mod setup;
mod start;
mod state;
mod text;
mod tried;

use bytes::Logs;
use dice::Dice;
use digest::Digest;
use handed::Block;
use list::Entry;
use text::TOO_LONG;
use tried::Tried;

// Two arrays, which are lent, since the program has no heap.
fn main(rt: HostRuntime) {
    let mut room = [0; TOO_LONG];
    let mut log = [0; bench::ROOM];
    schedules(&rt, &mut room, &mut log);
    states(&rt);
    pairs(&rt, &mut log);
    places(&rt, &mut log);
    reports(&rt, &mut room);
    editions(&rt);
}

fn schedules(rt: &impl Print, room: &mut [u8; TOO_LONG], log: &mut [u8]) {
    for i in 0..plan::SCHEDULES {
        let schedule = text::made(i, room);
        if let Ok(n) = bench::bench(schedule, log) {
            show(rt, i, schedule, &log[..n]);
        }
    }
}

// The number of a schedule, its log's length and digest; the schedule's own digest, where its letters' case is drawn; and the
// log itself for a few. Here and below, what cannot be written is left out; whoever compares what is printed sees it.
fn show(rt: &impl Print, i: u32, schedule: &[u8], log: &[u8]) {
    let length = log.len();
    let digest = Digest::of(log);
    if i < plan::CASED_FROM {
        let _ = println!(rt; "{i} {length} {digest}");
    } else {
        let own = Digest::of(schedule);
        let _ = println!(rt; "{i} {length} {digest} {own}");
    }
    if matches!(i % 120, 5 | 7) {
        let _ = rt.write_all(log);
    }
}

fn states(rt: &impl Print) {
    for number in 0..handed::BLOCKS {
        let Block { accepted, digest } = Block::tried(number);
        let _ = println!(rt; "{number} {accepted} {digest}");
    }
}

fn pairs(rt: &impl Print, log: &mut [u8]) {
    for a in 0..=u8::MAX {
        let Logs { length, digest } = Logs::swept(|b| bytes::pair(a, b), log);
        let _ = println!(rt; "{a} {length} {digest}");
    }
}

fn places(rt: &impl Print, log: &mut [u8]) {
    for at in 0..bytes::PLACES {
        let Logs { length, digest } = Logs::swept(|b| bytes::place(at, b), log);
        let _ = println!(rt; "{at} {length} {digest}");
    }
}

fn reports(rt: &impl Print, room: &mut [u8; TOO_LONG]) {
    for i in 0..list::LISTS {
        run_list(rt, i, room);
    }
}

// List number i: drawn, reported in its order and in another, and told.
fn run_list(rt: &impl Print, i: u32, room: &mut [u8; TOO_LONG]) {
    let mut dice = Dice::seeded(i, 43);
    let mut entries = [Entry::BLANK; list::LONGEST];
    let size = 1 + dice.roll(list::LONGEST);
    let list = &mut entries[..size];
    list::draw(i, list, &mut dice);
    let table = start::drawn(list[0].number, &mut dice, room);
    let turn = dice.roll(size);
    let told = reported::reported(list, table, room);
    list::turn(list, turn);
    let other = reported::reported(list, table, room);
    let _ = println!(rt;
        "{i} {} {} {} {} {}",
        told.refused, told.answers, told.table, other.refused, other.table
    );
}

fn editions(rt: &impl Print) {
    for edition in 0..tried::EDITIONS {
        let tried = Tried::of(edition);
        let _ = print!(rt; "{edition} {} {}", tried.accepted, tried.digest);
        for (place, is_everywhere) in tried.places.iter().enumerate() {
            if *is_everywhere {
                let _ = print!(rt; " {place}");
            }
        }
        let _ = println!(rt);
    }
}
