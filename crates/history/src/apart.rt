// For a loop that holds the lock's state and the journal as two values of its own: the journal has 5 KB, which each call by value would
// copy. The loop reads and writes one entry in place, and these say what becomes of the state, of the slot at `top`, of position and
// depth. None of them tests soundness: what was fresh stays sound, and brings back what was. Slot, position and depth are three functions,
// as they have three definitions in specs/Apart: the loop writes each into its own cell, and one answer of all three would save it nothing.
ghost use Rattle.std.specs.Prelude.{◌≡◌};
ghost use Rattle.history.specs.Apart as Apart;
ghost use Rattle.history.specs.Event.{is_undo};

use crate::{Entry, Event, Moved, Refusal, Refused, ring};
use lock::LockState;

// A refused event gives the same state back.
fn refused(state: LockState, refusal: Refusal) -> Refused<LockState>
    ensures { result ≡ record { state = state; refusal = refusal } }
{
    Refused { state, refusal }
}

// An undo: 9, then 14, then the way back over the newest entry.
#[tactic(auto, unfolding(crate::specs::Apart::moved_back))]
fn moved_back(
    s: LockState,
    depth: u16,
    e: Entry,
    p: u8,
) -> Result<Moved<LockState>, Refused<LockState>>
    ensures { Apart.told p result ≡ Apart.moved_back s depth e p }
{
    if p != 0 {
        return Err(refused(s, Refusal::Lock(lock::Refusal::NoSuchProcessor)));
    }
    if depth == 0 {
        return Err(refused(s, Refusal::NothingLeft));
    }
    Ok(Moved {
        state: e.restored(s),
        processor: e.processor,
    })
}

// What an event makes of the lock's state, which a refusal leaves as it is. `newest` is the entry before `top`.
#[tactic(auto, unfolding(crate::specs::Apart::moved))]
pub fn moved(
    s: LockState,
    depth: u16,
    newest: Entry,
    event: u8,
    p: u8,
) -> Result<Moved<LockState>, Refused<LockState>>
    ensures { Apart.told p result ≡ Apart.moved s depth newest event p }
{
    match Event::try_from(event) {
        Ok(Event::Undo) => moved_back(s, depth, newest, p),
        Ok(Event::Lock(event)) => {
            let state = s
                .carried(u8::from(event), p)
                .map_err(|lock| refused(lock.state, Refusal::from(lock.refusal)))?;
            Ok(Moved {
                state,
                processor: p,
            })
        }
        Err(refusal) => Err(refused(s, refusal)),
    }
}

fn is_undo(event: u8) -> bool
    ensures { result ≡ is_undo event }
{
    event == u8::from(Event::Undo)
}

// The entry at `top` after an accepted event: an undo leaves what is there.
#[tactic(auto, unfolding(crate::specs::Apart::slot_then))]
pub fn slot_then(event: u8, there: Entry, made: Entry) -> Entry
    ensures { result ≡ Apart.slot_then event there made }
{
    if is_undo(event) { there } else { made }
}

// An undo goes back to the entry that it took, any other event goes on to the next.
#[tactic(auto, unfolding(crate::specs::Apart::top_then))]
pub fn top_then(event: u8, top: u8) -> u8
    ensures { result ≡ Apart.top_then event top }
{
    if is_undo(event) {
        ring::previous(top)
    } else {
        ring::next(top)
    }
}

// One entry less can be undone after an undo, one more after any other event.
#[tactic(auto, unfolding(crate::specs::Apart::depth_then))]
pub fn depth_then(event: u8, depth: u16) -> u16
    ensures { result ≡ Apart.depth_then event depth }
{
    if is_undo(event) {
        ring::shallower(depth)
    } else {
        ring::deeper(depth)
    }
}
