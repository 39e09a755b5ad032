// A list of schedules for a report (docs/RANDOM.md, "Reports"): which they are, and how many rows are lent to each.
ghost use Rattle.std.specs.Prelude.{◌≡◌, ◌<◌, length};

use crate::dice::Dice;
use crate::plan;

pub const LISTS: u32 = 300;

// A list has at most so many schedules.
pub const LONGEST: usize = 6;

// A schedule is lent fewer rows than this: at most one more than there are processors.
const LENT: usize = 18;

// A schedule by its number, and how many rows are lent to it.
#[derive(Clone, Copy)]
pub struct Entry {
    pub number: u32,
    pub lent: usize,
    ghost few: { lent < 18 },
}

impl Entry {
    // Before it is drawn.
    pub const BLANK: Entry = Entry { number: 0, lent: 0 };

    fn drawn(is_even: bool, dice: &mut Dice) -> Entry {
        let number = any(dice);
        if is_even {
            Entry {
                number: number / 4 * 4,
                lent: 16,
            }
        } else {
            Entry {
                number,
                lent: if dice.is_zero() { dice.roll(LENT) } else { 16 },
            }
        }
    }
}

// The number of any schedule: one in sixteen is crowded.
fn any(dice: &mut Dice) -> u32 {
    if dice.roll(16) == 0 {
        plan::SCHEDULES + dice.roll(plan::CROWDED as usize) as u32
    } else {
        dice.roll(plan::SCHEDULES as usize) as u32
    }
}

// The entries of list i. In an even one no schedule is damaged.
pub fn draw(i: u32, list: &mut [Entry], dice: &mut Dice)
    ensures { length list.new ≡ length list.old }
{
    let is_even = i % 2 == 0;
    for entry in list {
        *entry = Entry::drawn(is_even, dice);
    }
}

// The other order: from schedule `turn` down to the first, then from the last down.
pub fn turn(list: &mut [Entry], turn: usize)
    requires { turn < length list.old }
{
    let (front, back) = list.split_at_mut(turn + 1);
    front.reverse();
    back.reverse();
}
