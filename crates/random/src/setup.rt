// The edition and the number of processors that a schedule or a state is made for, and what is drawn of them alone.
ghost use Rattle.std.specs.Prelude.{◌<◌, ◌≤◌};

use crate::dice::Dice;
use lock::{Edition, LockState};

// By their numbers.
pub const EDITIONS: [Edition; 4] = [
    Edition::Plain,
    Edition::Drawn,
    Edition::Guarded,
    Edition::Old,
];

// Those with a queue.
pub const QUEUED: [Edition; 3] = [Edition::Plain, Edition::Drawn, Edition::Guarded];

#[derive(Clone, Copy)]
pub struct Setup {
    pub edition: Edition,
    pub n: u8,
    ghost some: { 0 < n },
    ghost few: { n ≤ 16 },
}

impl Setup {
    // N is "1 + draw 16"
    pub fn drawn(edition: Edition, dice: &mut Dice) -> Setup {
        Setup {
            edition,
            n: 1 + dice.roll(16) as u8,
        }
    }

    // "draw N"
    pub fn processor(self, dice: &mut Dice) -> u8 {
        dice.roll(self.n as usize) as u8
    }

    // "ref": a processor or none
    pub fn reference(self, dice: &mut Dice) -> u8 {
        let v = dice.roll(self.n as usize + 1) as u8;
        if v == self.n { LockState::NONE } else { v }
    }
}
