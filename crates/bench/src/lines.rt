// Single lines of the log. Each goes into the first bytes of what is left of the lent buffer; the answer is how many. What the writer answers
// is not looked at: the `requires` gives it the room.
ghost use Rattle.std.specs.Prelude.{◌≡◌, [], ◌∷◌, ◌≤◌, length};
ghost use Rattle.bench.specs.Named.{number};
ghost use Rattle.bench.specs.Log.{high, low, refused_at, counted, marks_of, row_shown};
ghost use Rattle.bench.specs.Steps.{Fills};

use crate::Refusal;
use lock::{Event, Place, Row};

// The bytes of a 01 or 04 line, of an 03 line and of an 05 line.
pub(crate) const FRAME: usize = frame::LINE;

pub(crate) const ROW: usize = 17;

pub(crate) const REFUSAL: usize = 11;

// The marks' weights. Numbers, and no enum: they are added.
const FLAG: u8 = 1;

const GUARD: u8 = 2;

const ENTRY: u8 = 4;

// A number in two bytes, of which the higher is first.
fn high_low(k: usize) -> [u8; 2]
    ensures { result ≡ high k ∷ low k ∷ [] }
{
    ((k % 65536) as u16).to_be_bytes()
}

// 05 refusal high low check
pub(crate) fn write_refused_at(out: &mut [u8], refusal: Refusal, line: usize) -> usize
    requires { 11 ≤ length out.old }
    ensures { Fills (refused_at (number refusal) line) result out.old out.new }
{
    let [high, low] = high_low(line);
    let _ = frame::write_refusal(out, u8::from(refusal), high, low);
    REFUSAL
}

// 04 high low check
pub(crate) fn write_counted(out: &mut [u8], accepted: usize) -> usize
    requires { 9 ≤ length out.old }
    ensures { Fills (counted accepted) result out.old out.new }
{
    let [high, low] = high_low(accepted);
    let _ = frame::write_count(out, high, low);
    FRAME
}

// The marks of a processor's row after an accepted event, added. An entry is a step that ends inside; a raise at a processor inside
// is none.
#[tactic(auto, unfolding(crate::specs::Log::marks_of))]
pub(crate) fn marks(row: Row, event: u8) -> u8
    ensures { result ≡ marks_of row event }
{
    let entry = (event == u8::from(Event::Step)) & (row.place == u8::from(Place::Inside));
    u8::from(row.flag) * FLAG + u8::from(row.guard) * GUARD + u8::from(entry) * ENTRY
}

// 03 processor place L locked next marks check: processor p's row after an accepted event, and L as it then is.
pub(crate) fn write_shown(out: &mut [u8], p: u8, tail: u8, row: Row, event: u8) -> usize
    requires { 17 ≤ length out.old }
    ensures { Fills (row_shown p tail row event) result out.old out.new }
{
    let given = marks(row, event);
    let _ = frame::write_row(out, p, row.place, tail, row.locked, row.next, given);
    ROW
}
