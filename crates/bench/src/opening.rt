// The whole schedule: the room for its log, the length that it may have, and line 1.
ghost use Rattle.std.specs.Prelude.{◌≡◌, ◌≤◌, length};
ghost use Rattle.bench.specs.Lent.{told, room_for, logged, left, Counts};
ghost use Rattle.bench.specs.Steps.{Fills, Opens, opened_log, lines_room};

use crate::{NoRoom, Refusal, lines, turns};
use lock::LockState;

// A schedule has at most 6,001 lines.
pub const LONGEST: usize = 54009;

// The room for the log of any schedule.
pub const ROOM: usize = lines::ROW * (LONGEST / lines::FRAME) + lines::REFUSAL;

// The fresh state of line 1's numbers.
fn first(schedule: &[u8]) -> Result<LockState, Refusal>
    ensures { Opens schedule.now result }
{
    let line = frame::read(schedule, true)?;
    Ok(LockState::fresh(line.first, line.second)?)
}

// Line 1 of its numbers, in upper case whatever it was read in, then the later lines; or the refusal of line 1 alone.
fn open(out: &mut [u8], schedule: &[u8]) -> usize
    requires { lines_room schedule.now ≤ length out.old }
    ensures { Fills (opened_log schedule.now) result out.old out.new }
{
    match first(schedule) {
        Ok(state) => {
            let _ = frame::write_header(out, state.edition, state.n);
            let later = frame::rest(schedule);
            lines::FRAME + turns::follow(&mut out[lines::FRAME..], state, later)
        }
        Err(refusal) => lines::write_refused_at(out, refusal, 1),
    }
}

// The room that a buffer must have for the log of so many bytes.
#[tactic(auto, unfolding(crate::specs::Lent::room_for))]
pub fn room_for(bytes: usize) -> usize
    ensures { result ≡ room_for bytes }
{
    if LONGEST < bytes {
        return lines::REFUSAL;
    }
    lines::ROW * (bytes / lines::FRAME) + lines::REFUSAL
}

// The log of a schedule, in the first bytes of `out`: how many; or refusal 10, and nothing written, where `out` has not
// the room.
pub fn bench(schedule: &[u8], out: &mut [u8]) -> Result<usize, NoRoom>
    ensures value { told result ≡ logged schedule.now out.old }
    ensures out_after { out.new ≡ left schedule.now out.old }
    ensures counts { Counts (told result).length out.new }
{
    let size = schedule.len();
    if out.len() < room_for(size) {
        return Err(NoRoom);
    }
    if LONGEST < size {
        return Ok(lines::write_refused_at(out, Refusal::TooLong, 0));
    }
    Ok(open(out, schedule))
}
