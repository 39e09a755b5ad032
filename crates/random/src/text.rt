// The bytes of a schedule: line by line in upper case, then the letters' case, and the damage that is done to them at last. The numbers
// of lines and events, 1 and 2, and of what is damaged are docs/RANDOM.md's own, since what makes the schedules must not take them from
// what it tests. The editions alone are named, in `setup`.
ghost use Rattle.std.specs.Prelude.{◌≤◌};

use crate::dice::Dice;
use crate::plan::{Case, Damage, Plan};
use crate::setup::Setup;

// The bytes of a line.
const LINE: usize = 9;

// One byte more than the longest schedule has. A number of the page's own: it must not come from what it tests.
pub const TOO_LONG: usize = 54010;

// No digits in either case: the six bytes beside the digits, a letter past them, and an A with the highest bit set.
const NO_DIGITS: [u8; 8] = [47, 58, 64, 71, 96, 103, 122, 193];

// Schedule number i, at the front of the room that all schedules are made in.
pub fn made(i: u32, room: &mut [u8; TOO_LONG]) -> &[u8] {
    let mut dice = Dice::seeded(i, 17);
    let plan = Plan::drawn(i, &mut dice);
    let length = LINE * (plan.count + 1);
    let (header, events) = room[..length].split_at_mut(LINE);
    write_header(plan, &mut dice, header);
    write_events(plan, &mut dice, events);
    set_case(plan.case, &mut dice, &mut room[..length]);
    let end = harm(plan, &mut dice, room);
    &room[..end]
}

fn write_line(line: &mut [u8], values: [u8; 3]) {
    let [first, second, third] = values;
    let _ = frame::write_frame(line, first, second, third);
}

fn write_header(plan: Plan, dice: &mut Dice, line: &mut [u8]) {
    let Setup { edition, n } = plan.setup;
    let values = match plan.damage {
        Some(Damage::Edition) => [1, 4 + dice.roll(252) as u8, n],
        Some(Damage::N) => [1, edition as u8, zero_or_from(17, dice)],
        _ => [1, edition as u8, n],
    };
    write_line(line, values);
}

fn write_events(plan: Plan, dice: &mut Dice, lines: &mut [u8]) {
    let mut p = 0;
    for (j, line) in (1..=plan.count).zip(lines.chunks_mut(LINE)) {
        if dice.roll(plan.stay) == 0 {
            p = plan.setup.processor(dice);
        }
        let event = if dice.roll(8) < plan.raises { 2 } else { 1 };
        let damage = if j == plan.victim { plan.damage } else { None };
        write_line(line, event_line(event, p, plan.setup.n, damage, dice));
    }
}

// The values of an event line, with the damage that they take.
fn event_line(event: u8, p: u8, n: u8, damage: Option<Damage>, dice: &mut Dice) -> [u8; 3] {
    match damage {
        Some(Damage::Event) => [2, zero_or_from(3, dice), p],
        Some(Damage::Processor) => [2, event, n + dice.roll(256 - n as usize) as u8],
        Some(Damage::First) => [3 + dice.roll(253) as u8, event, p],
        _ => [2, event, p],
    }
}

// 0, or any byte from `least` on: a number that is out of range
fn zero_or_from(least: u8, dice: &mut Dice) -> u8 {
    if dice.is_zero() {
        0
    } else {
        least + dice.roll(256 - least as usize) as u8
    }
}

// The letters of all lines in the schedule's case. There are none but A to F.
fn set_case(case: Case, dice: &mut Dice, text: &mut [u8]) {
    match case {
        Case::Upper => {}
        Case::Lower => text.make_ascii_lowercase(),
        Case::Mixed => {
            for byte in text {
                if byte.is_ascii_uppercase() && dice.is_zero() {
                    byte.make_ascii_lowercase();
                }
            }
        }
    }
}

// The damage to the whole text; answers its length.
fn harm(plan: Plan, dice: &mut Dice, text: &mut [u8; TOO_LONG]) -> usize
    ensures { result ≤ 54010 }
{
    let length = LINE * (plan.count + 1);
    match plan.damage {
        Some(Damage::AnyByte) => {
            let at = dice.roll(length);
            put(text, at, dice.byte());
        }
        Some(Damage::Cut) => return dice.roll(length),
        Some(Damage::NoDigit) => {
            let at = LINE * dice.roll(plan.count + 1) + dice.roll(8);
            put(text, at, no_digit(plan.case, dice));
        }
        Some(Damage::TooLong) => {
            text[length..].fill(b'\n');
            return TOO_LONG;
        }
        Some(Damage::Check) => {
            let at = LINE * plan.victim + 7;
            let is_zero = text.get(at) == Some(&b'0');
            put(text, at, if is_zero { b'1' } else { b'0' });
        }
        _ => {}
    }
    length
}

// a byte that is no digit; in upper case one between 9 and A
fn no_digit(case: Case, dice: &mut Dice) -> u8 {
    match case {
        Case::Upper => 58 + dice.roll(7) as u8,
        _ => dice.one_of(&NO_DIGITS),
    }
}

fn put(text: &mut [u8], at: usize, byte: u8) {
    if let Some(old) = text.get_mut(at) {
        *old = byte;
    }
}
