// What is drawn for a schedule before its first line.
ghost use Rattle.std.specs.Prelude.{◌<◌, ◌≤◌};

use crate::dice::Dice;
use crate::setup::{EDITIONS, QUEUED, Setup};
use lock::Edition;

pub const SCHEDULES: u32 = 800;

// The schedules past those are crowded ones, and only reported: all processors, and as many events as there can be.
pub const CROWDED: u32 = 16;

// The schedules from this one on are of edition 3.
const OLD_FROM: u32 = 480;

// The schedules from this one on are in lower or in mixed case, and of all editions.
pub const CASED_FROM: u32 = 640;

// A schedule has so many events at most.
const MOST: usize = 6000;

// The case of a schedule's letters. It is upper for those before `CASED_FROM` and for no other.
#[derive(Clone, Copy, PartialEq, Eq)]
pub enum Case {
    Upper,
    Lower,
    Mixed,
}

impl Case {
    fn drawn(i: u32, dice: &mut Dice) -> Case {
        if i < CASED_FROM {
            Case::Upper
        } else {
            dice.one_of(&[Case::Lower, Case::Mixed])
        }
    }
}

// What is wrong with a schedule.
#[derive(Clone, Copy, PartialEq, Eq)]
pub enum Damage {
    Edition,
    N,
    Event,
    Processor,
    First,
    AnyByte,
    Cut,
    NoDigit,
    TooLong,
    Check,
}

// By their numbers, 1 to 10.
const DAMAGES: [Damage; 10] = [
    Damage::Edition,
    Damage::N,
    Damage::Event,
    Damage::Processor,
    Damage::First,
    Damage::AnyByte,
    Damage::Cut,
    Damage::NoDigit,
    Damage::TooLong,
    Damage::Check,
];

impl Damage {
    fn drawn(i: u32, dice: &mut Dice) -> Option<Damage> {
        if i % 4 == 3 {
            Some(dice.one_of(&DAMAGES))
        } else {
            None
        }
    }
}

#[derive(Clone, Copy)]
pub struct Plan {
    pub setup: Setup,
    pub count: usize,
    pub raises: usize,
    pub stay: usize,
    pub damage: Option<Damage>,
    pub victim: usize,
    pub case: Case,
    ghost events: { 0 < count },
    ghost within: { count ≤ 6000 },
    ghost stays: { 0 < stay },
    ghost hit: { victim ≤ count },
}

impl Plan {
    // For schedule i.
    pub fn drawn(i: u32, dice: &mut Dice) -> Plan {
        let setup = setup(i, dice);
        let count = events(i, dice);
        Plan {
            setup,
            count,
            raises: dice.roll(4),
            stay: 1 + dice.roll(8),
            damage: Damage::drawn(i, dice),
            victim: 1 + dice.roll(count),
            case: Case::drawn(i, dice),
        }
    }
}

fn setup(i: u32, dice: &mut Dice) -> Setup {
    let edition = edition(i);
    if SCHEDULES <= i {
        Setup { edition, n: 16 }
    } else if dice.is_zero() {
        Setup::drawn(edition, dice)
    } else {
        Setup {
            edition,
            n: 2 + dice.roll(3) as u8,
        }
    }
}

// the editions with a queue in turn; then edition 3; then all, each for four schedules, since only the last of each four is damaged
fn edition(i: u32) -> Edition {
    if i < OLD_FROM {
        QUEUED[i as usize % 3]
    } else if i < CASED_FROM {
        Edition::Old
    } else {
        EDITIONS[i as usize / 4 % 4]
    }
}

// how many event lines there are
fn events(i: u32, dice: &mut Dice) -> usize
    ensures some { 0 < result }
    ensures within { result ≤ 6000 }
{
    if SCHEDULES <= i || i % 40 == 38 {
        MOST
    } else {
        20 + dice.roll(480)
    }
}
