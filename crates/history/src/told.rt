// Every public contract of this crate, tied to its definition: each function here promises the definition and calls the public
// function, so that a public contract that says less is refused. Nobody calls these. (The functions of `claims` and `laws` are empty:
// their proofs are of their contracts alone.)
ghost use Rattle.std.specs.Prelude.{◌≡◌};
ghost use Rattle.history.specs.Journal.{empty_entry, empty_journal, entry_of};
ghost use Rattle.history.specs.Event.{told_begun, told, begun, goes};
ghost use Rattle.history.specs.Named.{event_number, refusal_number, of_lock, NamesEvent};
ghost use Rattle.history.specs.Apart as Apart;

use crate::{Entry, Event, History, Journal, Moved, Refusal, Refused, apart};
use lock::LockState;

fn told_fresh(edition: u8, n: u8) -> Result<History, Refused>
    ensures { told_begun result ≡ begun edition n }
{
    History::fresh(edition, n)
}

fn told_event(h: History, event: u8, p: u8) -> Result<Moved<History>, Refused>
    ensures { told p result ≡ goes h event p }
{
    h.event(event, p)
}

fn told_step(h: History, p: u8) -> Result<Moved<History>, Refused>
    ensures { told p result ≡ goes h 1 p }
{
    h.step(p)
}

fn told_raise(h: History, p: u8) -> Result<Moved<History>, Refused>
    ensures { told p result ≡ goes h 2 p }
{
    h.raise(p)
}

fn told_undo(h: History) -> Result<Moved<History>, Refused>
    ensures { told 0 result ≡ goes h 3 0 }
{
    h.undo()
}

fn told_entry_empty() -> Entry
    ensures { result ≡ empty_entry }
{
    Entry::empty()
}

fn told_entry_of(s: LockState, p: u8) -> Entry
    ensures { result ≡ entry_of s p }
{
    Entry::of(s, p)
}

fn told_journal_empty() -> Journal
    ensures { result ≡ empty_journal }
{
    Journal::empty()
}

fn told_moved(
    s: LockState,
    depth: u16,
    newest: Entry,
    event: u8,
    p: u8,
) -> Result<Moved<LockState>, Refused<LockState>>
    ensures { Apart.told p result ≡ Apart.moved s depth newest event p }
{
    apart::moved(s, depth, newest, event, p)
}

fn told_slot_then(event: u8, there: Entry, made: Entry) -> Entry
    ensures { result ≡ Apart.slot_then event there made }
{
    apart::slot_then(event, there, made)
}

fn told_top_then(event: u8, top: u8) -> u8
    ensures { result ≡ Apart.top_then event top }
{
    apart::top_then(event, top)
}

fn told_depth_then(event: u8, depth: u16) -> u16
    ensures { result ≡ Apart.depth_then event depth }
{
    apart::depth_then(event, depth)
}

fn told_event_number(event: Event) -> u8
    ensures { result ≡ event_number event }
{
    u8::from(event)
}

fn told_event_named(number: u8) -> Result<Event, Refusal>
    ensures { NamesEvent number result }
{
    Event::try_from(number)
}

fn told_of_lock(refusal: lock::Refusal) -> Refusal
    ensures { result ≡ of_lock refusal }
{
    Refusal::from(refusal)
}

fn told_refusal_number(refusal: Refusal) -> u8
    ensures { result ≡ refusal_number refusal }
{
    u8::from(refusal)
}
