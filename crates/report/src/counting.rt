// A processor's account, and what one call changes in it. Which join led to an entry is known only at that entry, so another's
// entry is pending for each processor until then: it is charged at that processor's entry, and dropped at its next join.
ghost use Rattle.std.specs.Prelude.{◌≡◌, cond, suc, ◌<◌, get_or};
ghost use Rattle.report.specs.Table.{greatest};
ghost use Rattle.report.specs.Accounts.{no_account, did_by, tallied, raised_at, pending_then, charged_then, seen_by, noted_by};
ghost use Rattle.report.specs.Accounts.{charges_by, charges_row, tallies_by, TallyFits, Summable, Fits, AllFit};

use crate::{Table, Tally, tables};
use lock::{Event, Place};
use std::array;

// What an accepted call was for the processor that made it.
#[derive(Clone, Copy, Debug, PartialEq, Eq)]
pub(crate) struct Did {
    pub joined: bool,
    pub entered: bool,
    pub interrupted: bool,
}

// An accepted call: its processor, and what it was for.
#[derive(Clone, Copy, Debug, PartialEq, Eq)]
pub(crate) struct Accepted {
    pub p: usize,
    pub did: Did,
    ghost below: { p < 16 },
}

// What is known of a processor so far: its tally; whether it has joined; the entries of each processor since its latest join; and
// the entries of each that its own entries were charged with.
#[derive(Clone, Copy, Debug, PartialEq, Eq)]
pub(crate) struct Account {
    pub tally: Tally,
    pub joined: bool,
    pub pending: [u32; 16],
    pub charged: [u32; 16],
}

// By the event, and the processor's place before and after it.
#[tactic(auto, unfolding(crate::specs::Accounts::did_by))]
pub(crate) fn told_apart(event: u8, before: u8, after: u8) -> Did
    ensures { result ≡ did_by event before after }
{
    let step = event == u8::from(Event::Step);
    let taken = (before == u8::from(Place::Poll)) & (after == u8::from(Place::Service));
    let old_taken = (before == u8::from(Place::OldPoll)) & (after == u8::from(Place::OldService));
    Did {
        joined: step & (before == u8::from(Place::Swap)),
        entered: step & (after == u8::from(Place::Inside)),
        interrupted: step & (taken | old_taken),
    }
}

impl Account {
    pub(crate) fn none() -> Account
        ensures { result ≡ no_account }
    {
        Account {
            tally: Tally::default(),
            joined: false,
            pending: [0; 16],
            charged: [0; 16],
        }
    }

    // A call, which is the processor's own or another's. What is pending is charged before it changes. That there is room for the call is no
    // invariant of an account: after it there may be none.
    #[tactic(auto, unfolding(crate::specs::Accounts::seen_by))]
    fn see(&mut self, own: bool, call: Accepted)
        requires { Fits self.old }
        ensures { self.new ≡ seen_by self.old «own» call.p call.did }
    {
        let did = Did {
            joined: own & call.did.joined,
            entered: own & call.did.entered,
            interrupted: own & call.did.interrupted,
        };
        let charges = did.entered & self.joined & !did.joined;
        charge(&mut self.charged, &self.pending, charges);
        pend(&mut self.pending, call, did.joined);
        self.joined |= did.joined;
        self.tally = with_call(self.tally, did);
    }
}

// A tally, and what its own processor's call was for.
#[tactic(auto, unfolding(crate::specs::Accounts::tallied))]
fn with_call(tally: Tally, did: Did) -> Tally
    requires { TallyFits tally }
    ensures { result ≡ tallied tally did.entered did.interrupted did.joined }
{
    Tally {
        entries: tally.entries + u32::from(did.entered),
        interrupts: tally.interrupts + u32::from(did.interrupted),
        joins: tally.joins + u32::from(did.joined),
    }
}

// What is pending: dropped at the processor's own join; otherwise an entry is one more.
#[tactic(auto, unfolding(crate::specs::Accounts::pending_then, crate::specs::Accounts::raised_at))]
fn pend(pending: &mut [u32; 16], call: Accepted, joins: bool)
    requires { get_or pending.old call.p 0 < greatest }
    ensures { pending.new ≡ pending_then pending.old call.p call.did.entered «joins» }
{
    if joins {
        *pending = [0; 16];
    } else if call.did.entered {
        pending[call.p] += 1;
    }
}

// What is charged: all that is pending, at an entry that a join led to.
#[tactic(auto, unfolding(crate::specs::Accounts::charged_then))]
fn charge(charged: &mut [u32; 16], pending: &[u32; 16], charges: bool)
    requires { Summable charged.old pending.now }
    ensures { charged.new ≡ charged_then charged.old pending.now «charges» }
{
    if charges {
        tables::add_row(charged, pending);
    }
}

// All accounts after a call. In place, and so no `array::from_fn`, which clears an array first: at each join and entry that took
// more time than all else along the schedule.
pub(crate) fn note(accounts: &mut [Account; 16], call: Accepted)
    requires { AllFit accounts.old }
    ensures { accounts.new ≡ noted_by accounts.old call.p call.did }
{
    for (b, account) in accounts.iter_mut().enumerate() {
        account.see(b == call.p, call);
    }
}

// What a's entries made each processor wait.
fn charges_row(accounts: &[Account; 16], a: usize) -> [u32; 16]
    requires below { a < 16 }
    ensures { result ≡ charges_row accounts.now a }
{
    array::from_fn(|b| accounts[b].charged[a])
}

// The accounts' charges as a table: row a, column b.
pub(crate) fn charges(accounts: &[Account; 16]) -> Table
    ensures { result ≡ charges_by accounts.now }
{
    // A loop: under `array::from_fn` the closure that gives a row would need its clauses written out, which is longer.
    let mut table = [[0; 16]; 16];
    for (a, row) in table.iter_mut().enumerate() {
        *row = charges_row(accounts, a);
    }
    table
}

// The accounts' tallies.
pub(crate) fn tallies(accounts: &[Account; 16]) -> [Tally; 16]
    ensures { result ≡ tallies_by accounts.now }
{
    array::from_fn(|p| accounts[p].tally)
}
