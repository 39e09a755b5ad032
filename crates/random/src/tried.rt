// Every place in every edition (docs/RANDOM.md): states with one row at the place, each handed in with a raise. Which places an
// edition has is not known here: all that is told is what comes back.
use crate::digest::Digest;
use crate::state;
use lock::{Edition, Event, LockState};

// Those there are, and two past the last.
pub const EDITIONS: u8 = 6;

// The values that a place has as a byte.
const PLACES: usize = 256;

const ROWS: usize = LockState::PROCESSORS as usize;

// How many events of an edition were accepted, the refusals' digest, and for each place whether every row was accepted with it.
#[derive(Clone, Copy)]
pub struct Tried {
    pub accepted: usize,
    pub digest: Digest,
    pub places: [bool; PLACES],
}

impl Tried {
    pub fn of(edition: u8) -> Tried {
        let mut tried = Tried {
            accepted: 0,
            digest: Digest::new(),
            places: [false; PLACES],
        };
        for place in 0..=u8::MAX {
            tried.add(edition, place);
        }
        tried
    }

    // The place in each row in turn.
    fn add(&mut self, edition: u8, place: u8) {
        // As the digest takes them: by their numbers, 0 for accepted.
        let mut refusals = [0; ROWS];
        for (row, refusal) in refusals.iter_mut().enumerate() {
            *refusal = match standing(edition, place, row).event(Event::Raise as u8, 0) {
                Ok(_) => 0,
                Err(refused) => refused.refusal.into(),
            };
        }
        self.digest.add(&refusals);
        let accepted = refusals.iter().filter(|r| **r == 0).count();
        self.accepted = self.accepted.saturating_add(accepted);
        self.places[place as usize] = accepted == ROWS;
    }
}

// One row at the place. All references that a place can need are there, so that only the place itself can be wrong.
fn standing(edition: u8, place: u8, row: usize) -> LockState {
    let mut state = state::fresh(Edition::Plain as u8, LockState::PROCESSORS);
    // put in by hand, since `fresh` refuses those that there are not
    state.edition = edition;
    for r in state.rows.iter_mut() {
        r.pred = 0;
        r.succ = 0;
        r.nx = 0;
    }
    if let Some(r) = state.rows.get_mut(row) {
        r.place = place;
    }
    state
}
