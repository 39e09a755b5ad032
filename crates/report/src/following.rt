// Along a schedule: its own refusal with the line, or N and the accounts of its processors. The loop goes from line to line as the
// bench's does, and both by the definitions of bench's Bridge. The state stands in the loop and each line changes it there, since a
// state that is answered is copied with all its rows. `turn` and `begin` are not bench's: bench's say what becomes of the log, and as public
// functions they would have to ask for a sound state.
ghost use Rattle.std.specs.Prelude.{◌≡◌, false, ◌<◌, ◌≤◌, length};
ghost use Rattle.lock.specs.Kept.{Whole};
ghost use Rattle.frame.specs.Reading.{told as frame_told, reads};
ghost use Rattle.bench.specs.Log.{longest};
ghost use Rattle.report.specs.Followed.{told, followed_of, Turns, Begins, Agrees, Follows};

use crate::counting;
use crate::counting::{Accepted, Account};
use bench::{LONGEST, Refusal};
use frame::Frame;
use lock::LockState;

// A schedule's refusal and its line.
#[derive(Clone, Copy, Debug, PartialEq, Eq)]
pub(crate) struct Stopped {
    pub refusal: Refusal,
    pub line: usize,
}

// N, and the accounts.
#[derive(Clone, Copy, Debug, PartialEq, Eq)]
pub(crate) struct Followed {
    pub n: u8,
    pub accounts: [Account; 16],
}

// What the line at the beginning of the text asks for, done on the state; the answer is the call. The state is sound since it was
// fresh, so no event tests it.
fn turn(state: &mut LockState, text: &[u8]) -> Result<Accepted, Refusal>
    requires whole { Whole state.old }
    requires some { 0 < length text.now }
    ensures { Turns state.old text.now state.new result }
{
    let line = read(text)?;
    let before = state.row(line.second);
    *state = state.carried(line.first, line.second)?;
    let after = state.row(line.second);
    Ok(Accepted {
        p: usize::from(line.second),
        did: counting::told_apart(line.first, before.place, after.place),
    })
}

// A later line. A call, where `frame::read` is put into the loop of its caller: this loop holds all rows in the registers that the reader
// would take, and moves them aside at each line (docs/DECISIONS 154).
#[inline(never)]
fn read(text: &[u8]) -> Result<Frame, frame::Refusal>
    ensures { frame_told result ≡ reads text.now false }
{
    frame::read(text, false)
}

// The later lines, one after the other, from a state on.
fn follow(first: LockState, text: &[u8]) -> Result<Followed, Stopped>
    requires whole { Whole first }
    requires within { length text.now ≤ longest }
    ensures { Agrees (told result) (followed_of first text.now) }
{
    let mut rest = text;
    let mut state = first;
    let mut accounts = [Account::none(); 16];
    let mut accepted = 0;
    // No iterator: document 01 has the part from each line on handed on, and the remainder handed back ("Which form to use where").
    while !rest.is_empty() {
        let line = accepted + 2;
        let call = turn(&mut state, rest).map_err(|refusal| Stopped { refusal, line })?;
        let did = call.did;
        if did.joined | did.entered | did.interrupted {
            counting::note(&mut accounts, call);
        }
        accepted += 1;
        rest = frame::rest(rest);
    }
    Ok(Followed {
        n: first.n,
        accounts,
    })
}

// Line 1: the state from which the run begins.
fn begin(schedule: &[u8]) -> Result<LockState, Refusal>
    requires { length schedule.now ≤ longest }
    ensures { Begins schedule.now result }
{
    let line = frame::read(schedule, true)?;
    let state = LockState::fresh(line.first, line.second)?;
    Ok(state)
}

// The whole schedule.
pub(crate) fn heard(schedule: &[u8]) -> Result<Followed, Stopped>
    ensures { Follows schedule.now (told result) }
{
    if LONGEST < schedule.len() {
        return Err(Stopped {
            refusal: Refusal::TooLong,
            line: 0,
        });
    }
    // No `map_err`: in a Result of a state and a `Stopped` the two would lie over one another, and the state would be held in pieces as small as
    // the fields of the other, at every line that follows.
    match begin(schedule) {
        Ok(state) => follow(state, frame::rest(schedule)),
        Err(refusal) => Err(Stopped { refusal, line: 1 }),
    }
}
