// States handed in at random, each with one event, and the digest of what comes back. The events' numbers, 1 and 2, are docs/RANDOM.md's
// own, since what makes the trials must not take them from what it tests.
use crate::damage;
use crate::dice::Dice;
use crate::digest::Digest;
use crate::setup::{QUEUED, Setup};
use lock::{Edition, LockState};

// The trials are told in so many blocks, with so many trials in each.
pub const BLOCKS: u8 = 130;

const EACH: u32 = 600;

// The trials from this one on are of edition 3.
const OLD_FROM: u32 = 60000;

// How many events of a block were accepted, and the answers' digest.
#[derive(Clone, Copy)]
pub struct Block {
    pub accepted: u32,
    pub digest: Digest,
}

impl Block {
    // The trials of one block.
    pub fn tried(number: u8) -> Block {
        let mut block = Block {
            accepted: 0,
            digest: Digest::new(),
        };
        let first = u32::from(number) * EACH;
        for t in first..first + EACH {
            block.add_trial(t);
        }
        block
    }

    fn add_trial(&mut self, t: u32) {
        let mut dice = Dice::seeded(t, 29);
        let edition = edition(t, &mut dice);
        let setup = Setup::drawn(edition, &mut dice);
        let state = damage::damaged(setup, &mut dice);
        let event = event(&mut dice);
        let processor = processor(setup, &mut dice);
        // As they are printed: the refusal by its number, 0 for accepted, and the state that comes back either way.
        let (refusal, after) = match state.event(event, processor) {
            Ok(after) => (0, after),
            Err(refused) => (u8::from(refused.refusal), refused.state),
        };
        if refusal == 0 {
            self.accepted = self.accepted.saturating_add(1);
        }
        self.digest.add(&[refusal]);
        add_state(&mut self.digest, after);
    }
}

// one with a queue is drawn, edition 3 is given
fn edition(t: u32, dice: &mut Dice) -> Edition {
    if t < OLD_FROM {
        dice.one_of(&QUEUED)
    } else {
        Edition::Old
    }
}

fn event(dice: &mut Dice) -> u8 {
    match dice.roll(8) {
        0 => 2,
        1 => dice.byte(),
        2 => dice.roll(4) as u8,
        _ => 1,
    }
}

fn processor(setup: Setup, dice: &mut Dice) -> u8 {
    match dice.roll(8) {
        0 => dice.byte(),
        1 => setup.n - 1 + dice.roll(3) as u8,
        _ => setup.processor(dice),
    }
}

// The state's bytes mixed into a digest.
fn add_state(digest: &mut Digest, state: LockState) {
    digest.add(&[state.edition, state.n, state.tail]);
    for r in state.rows {
        digest.add(&[
            r.next,
            r.locked,
            u8::from(r.guard),
            u8::from(r.flag),
            r.place,
            r.pred,
            r.succ,
            r.nx,
        ]);
    }
}
