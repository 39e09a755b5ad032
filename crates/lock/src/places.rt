// Which places an edition has, as the rule of request [5]: first what each part of a lock brings with it, then the editions, put
// together from these parts. At the end stand the places by name. A set is a match with one place a line, each with the reason why it is
// there; as one pattern with bars it would have no room for them.
ghost use Rattle.std.specs.Prelude.{◌≡◌, ◌||◌};
ghost use Rattle.lock.specs.Named.{edition_number, place_number, NamesPlace};
ghost use Rattle.lock.specs.Sound.{is_in, wants_pred, wants_succ, wants_nx};
ghost use Rattle.lock.specs.Places.{every_queue_lock_has, interrupts_add, guard_adds, second_read_adds, old_lock_has, has_by_rule};

use crate::Edition;

// What every queue lock has. The plain lock has no more.
fn every_queue_lock_has(place: Place) -> bool
    ensures { result ≡ is_in every_queue_lock_has (place_number place) }
{
    match place {
        // as every lock
        Place::Rest => true,
        Place::Inside => true,
        // to join the line
        Place::Clear => true,
        Place::Swap => true,
        Place::Arm => true,
        Place::Link => true,
        // to wait in it
        Place::Spin => true,
        // to hand the lock on
        Place::Look => true,
        Place::Close => true,
        Place::Await => true,
        Place::Hand => true,
        _ => false,
    }
}

// What interrupts add to a queue lock.
fn interrupts_add(place: Place) -> bool
    ensures { result ≡ is_in interrupts_add (place_number place) }
{
    match place {
        // who waits may leave the line to serve one
        Place::Poll => true,
        Place::Service => true,
        // and then has to learn what became of its turn
        Place::Back => true,
        Place::Regain => true,
        // who hands on may meet one that is away
        Place::Park => true,
        Place::Peek => true,
        Place::Take => true,
        // and who joins behind that one may find the lock left with it
        Place::Claim => true,
        Place::Settle => true,
        _ => false,
    }
}

// What the guard adds to a lock with interrupts.
fn guard_adds(place: Place) -> bool
    ensures { result ≡ is_in guard_adds (place_number place) }
{
    match place {
        // who hands on guards one that is away, until it is done with it
        Place::Fence => true,
        Place::Lift => true,
        // and who is guarded does not join
        Place::Gate => true,
        _ => false,
    }
}

// What the second read adds to a lock with interrupts.
fn second_read_adds(place: Place) -> bool
    ensures { result ≡ is_in second_read_adds (place_number place) }
{
    match place {
        // who took the lock back asks anew to whom it goes
        Place::Reread => true,
        // and may find nobody
        Place::Lost => true,
        _ => false,
    }
}

// What the old boards' lock has. It has no queue.
fn old_lock_has(place: Place) -> bool
    ensures { result ≡ is_in old_lock_has (place_number place) }
{
    match place {
        // as every lock
        Place::Rest => true,
        Place::Inside => true,
        // of its own
        Place::OldTry => true,
        Place::OldPoll => true,
        Place::OldService => true,
        Place::OldFree => true,
        _ => false,
    }
}

// A queue lock with interrupts: drawn and guarded have this in common.
fn lock_with_interrupts_has(place: Place) -> bool
    ensures { result ≡ is_in every_queue_lock_has (place_number place) || is_in interrupts_add (place_number place) }
{
    every_queue_lock_has(place) || interrupts_add(place)
}

// The editions do not nest. Drawn and guarded both have all that plain has; but the second read is drawn's alone and the guard is
// guarded's alone, so neither of the two has all that the other has. The old boards' lock stands apart: it shares rest and inside
// with the others, and nothing else.
#[tactic(auto, unfolding(crate::specs::Places::has_by_rule))]
pub(crate) fn has_place(edition: Edition, place: Place) -> bool
    ensures { result ≡ has_by_rule (edition_number edition) (place_number place) }
{
    match edition {
        Edition::Plain => every_queue_lock_has(place),
        Edition::Drawn => lock_with_interrupts_has(place) || second_read_adds(place),
        Edition::Guarded => lock_with_interrupts_has(place) || guard_adds(place),
        Edition::Old => old_lock_has(place),
    }
}

// The places by name, with their numbers in document 01 and requests [1] and [2]. A step at one of them does the act of that name
// (`table`).
#[derive(Clone, Copy, Debug, PartialEq, Eq)]
pub enum Place {
    Rest = 0,
    Gate = 1,
    Clear = 2,
    Swap = 3,
    Arm = 4,
    Link = 5,
    Claim = 6,
    Spin = 7,
    Settle = 8,
    Inside = 9,
    Poll = 10,
    Service = 11,
    Back = 12,
    Regain = 13,
    Look = 14,
    Close = 15,
    Await = 16,
    Hand = 17,
    Fence = 18,
    Park = 19,
    Peek = 20,
    Take = 21,
    Lift = 22,
    OldTry = 23,
    OldPoll = 24,
    OldService = 25,
    OldFree = 26,
    Reread = 27,
    Lost = 28,
}

// A number that is no place.
#[derive(Clone, Copy, Debug, PartialEq, Eq)]
pub struct NoPlace;

impl From<Place> for u8 {
    ghost from_gives = { λ place number. number ≡ place_number place };

    fn from(place: Place) -> u8 {
        place as u8
    }
}

impl TryFrom<u8> for Place {
    type Error = NoPlace;

    ghost try_from_gives = { NamesPlace };

    fn try_from(number: u8) -> Result<Place, NoPlace> {
        match number {
            0 => Ok(Place::Rest),
            1 => Ok(Place::Gate),
            2 => Ok(Place::Clear),
            3 => Ok(Place::Swap),
            4 => Ok(Place::Arm),
            5 => Ok(Place::Link),
            6 => Ok(Place::Claim),
            7 => Ok(Place::Spin),
            8 => Ok(Place::Settle),
            9 => Ok(Place::Inside),
            10 => Ok(Place::Poll),
            11 => Ok(Place::Service),
            12 => Ok(Place::Back),
            13 => Ok(Place::Regain),
            14 => Ok(Place::Look),
            15 => Ok(Place::Close),
            16 => Ok(Place::Await),
            17 => Ok(Place::Hand),
            18 => Ok(Place::Fence),
            19 => Ok(Place::Park),
            20 => Ok(Place::Peek),
            21 => Ok(Place::Take),
            22 => Ok(Place::Lift),
            23 => Ok(Place::OldTry),
            24 => Ok(Place::OldPoll),
            25 => Ok(Place::OldService),
            26 => Ok(Place::OldFree),
            27 => Ok(Place::Reread),
            28 => Ok(Place::Lost),
            _ => Err(NoPlace),
        }
    }
}

impl Place {
    // Whoever stands there has somebody before it.
    pub(crate) fn wants_pred(self) -> bool
        ensures { result ≡ wants_pred (place_number self) }
    {
        matches!(self, Place::Arm | Place::Link | Place::Claim)
    }

    // Has somebody to hand the lock to.
    pub(crate) fn wants_succ(self) -> bool
        ensures { result ≡ wants_succ (place_number self) }
    {
        matches!(
            self,
            Place::Hand
                | Place::Fence
                | Place::Park
                | Place::Peek
                | Place::Take
                | Place::Lift
                | Place::Reread
        )
    }

    // Has read who comes after that one.
    pub(crate) fn wants_nx(self) -> bool
        ensures { result ≡ wants_nx (place_number self) }
    {
        matches!(self, Place::Take)
    }
}
