// Every public contract of this crate, tied to its definition: each function here promises the definition and calls the public
// function, so that a public contract that says less is refused. Nobody calls these. (The functions of `claims`, `kept` and `laws`
// are empty: their proofs are of their contracts alone.) The two limits that no function reads are tied here too.
ghost use Rattle.std.specs.Prelude.{◌≡◌};
ghost use Rattle.lock.specs.State.{editions, row, put_row, put_tail};
ghost use Rattle.lock.specs.Sound.{places, sound};
ghost use Rattle.lock.specs.Named.{edition_number, event_number, locked_number, place_number, refusal_number, NamesEdition, NamesEvent, NamesPlace};
ghost use Rattle.lock.specs.Event.{told, fresh, happens, carried};

use crate::{Edition, Event, LockState, Locked, NoPlace, Place, Refusal, Refused, Row};

fn told_places() -> u8
    ensures { result ≡ places }
{
    LockState::PLACES
}

fn told_editions() -> u8
    ensures { result ≡ editions }
{
    LockState::EDITIONS
}

fn told_fresh(edition: u8, n: u8) -> Result<LockState, Refused>
    ensures { told result ≡ fresh edition n }
{
    LockState::fresh(edition, n)
}

fn told_row(s: LockState, p: u8) -> Row
    ensures { result ≡ row s p }
{
    s.row(p)
}

fn told_put_row(s: LockState, p: u8, r: Row) -> LockState
    ensures { result ≡ put_row s p r }
{
    s.put_row(p, r)
}

fn told_put_tail(s: LockState, q: u8) -> LockState
    ensures { result ≡ put_tail s q }
{
    s.put_tail(q)
}

fn told_is_sound(s: LockState) -> bool
    ensures { result ≡ sound s }
{
    s.is_sound()
}

fn told_carried(s: LockState, event: u8, p: u8) -> Result<LockState, Refused>
    ensures { told result ≡ carried s event p }
{
    s.carried(event, p)
}

fn told_event(s: LockState, event: u8, p: u8) -> Result<LockState, Refused>
    ensures { told result ≡ happens s event p }
{
    s.event(event, p)
}

fn told_step(s: LockState, p: u8) -> Result<LockState, Refused>
    ensures { told result ≡ happens s 1 p }
{
    s.step(p)
}

fn told_raise(s: LockState, p: u8) -> Result<LockState, Refused>
    ensures { told result ≡ happens s 2 p }
{
    s.raise(p)
}

fn told_edition_number(edition: Edition) -> u8
    ensures { result ≡ edition_number edition }
{
    u8::from(edition)
}

fn told_event_number(event: Event) -> u8
    ensures { result ≡ event_number event }
{
    u8::from(event)
}

fn told_locked_number(locked: Locked) -> u8
    ensures { result ≡ locked_number locked }
{
    u8::from(locked)
}

fn told_place_number(place: Place) -> u8
    ensures { result ≡ place_number place }
{
    u8::from(place)
}

fn told_refusal_number(refusal: Refusal) -> u8
    ensures { result ≡ refusal_number refusal }
{
    u8::from(refusal)
}

fn told_names_edition(number: u8) -> Result<Edition, Refusal>
    ensures { NamesEdition number result }
{
    Edition::try_from(number)
}

fn told_names_event(number: u8) -> Result<Event, Refusal>
    ensures { NamesEvent number result }
{
    Event::try_from(number)
}

fn told_names_place(number: u8) -> Result<Place, NoPlace>
    ensures { NamesPlace number result }
{
    Place::try_from(number)
}
