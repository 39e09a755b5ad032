// From line to line: the loop over the later lines. The state stands in the loop: an event's answer goes straight into it, and
// no function above `carried` takes a state by value or answers one there, since each would copy all its rows.
ghost use Rattle.std.specs.Prelude.{◌≡◌, ◌≤◌, length};
ghost use Rattle.lock.specs.Kept.{Whole};
ghost use Rattle.bench.specs.Steps.{Fills, Turns, later_log, lines_room};

use crate::{Refusal, lines};
use frame::Frame;
use lock::LockState;

// What the line at the beginning of the text asks for, done on the state; the answer is the line, with its event and processor.
// The state is sound since it was fresh, so no event tests it.
fn turn(state: &mut LockState, text: &[u8]) -> Result<Frame, Refusal>
    requires { Whole state.old }
    ensures { Turns state.old text.now state.new result }
{
    let line = frame::read(text, false)?;
    *state = state.carried(line.first, line.second)?;
    Ok(line)
}

// The later lines, one after the other, from a state on: how many bytes are written.
pub(crate) fn follow(out: &mut [u8], first: LockState, text: &[u8]) -> usize
    requires text_in_bounds { lines_room text.now ≤ length out.old }
    requires whole { Whole first }
    ensures { Fills (later_log first text.now) result out.old out.new }
{
    let mut rest = text;
    let mut state = first;
    let mut accepted = 0;
    // How many bytes are written so far, which is what is answered; the rest of the buffer begins there.
    let mut at = 0;
    // No iterator: document 01 has the part from each line on handed on, and the remainder handed back ("Which form to use where").
    while !rest.is_empty() {
        match turn(&mut state, rest) {
            Ok(line) => {
                let p = line.second;
                let row = state.row(p);
                at += lines::write_shown(&mut out[at..], p, state.tail, row, line.first);
                accepted += 1;
                rest = frame::rest(rest);
            }
            Err(refusal) => {
                let line = accepted + 2;
                return at + lines::write_refused_at(&mut out[at..], refusal, line);
            }
        }
    }
    at + lines::write_counted(&mut out[at..], accepted)
}
