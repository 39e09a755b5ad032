// The soundness test, part by part as in specs/Sound. Its tests are joined by `&` and `|` without a branch, as the rows are tested at each
// event: with a branch at each the test of a state takes more (docs/DECISIONS 127).
ghost use Rattle.std.specs.Prelude.{◌≡◌, ◌&&◌, cond, ltb};
ghost use Rattle.lock.specs.Sound as Sound;
ghost use Rattle.choice.specs.Every.{every};
ghost use Rattle.lock.specs.Named.{edition_number};
ghost use Rattle.lock.specs.State.{processors};

use crate::places::has_place;
use crate::{Edition, LockState, Locked, Place, Row};

fn none_or_below(n: u8, q: u8) -> bool
    ensures { result ≡ Sound.none_or_below n q }
{
    (q == LockState::NONE) | (q < n)
}

fn is_there(wanted: bool, q: u8) -> bool
    ensures { result ≡ Sound.is_there wanted q }
{
    !wanted | !(q == LockState::NONE)
}

fn cells_sound(n: u8, r: Row) -> bool
    ensures { result ≡ Sound.cells_sound n r }
{
    none_or_below(n, r.next)
        & none_or_below(n, r.pred)
        & none_or_below(n, r.succ)
        & none_or_below(n, r.nx)
        & (r.locked <= u8::from(Locked::Rp))
}

fn place_sound(edition: Edition, r: Row) -> bool
    ensures { result ≡ Sound.place_sound (edition_number edition) r }
{
    let Ok(place) = Place::try_from(r.place) else {
        return false;
    };
    has_place(edition, place)
        & is_there(place.wants_pred(), r.pred)
        & is_there(place.wants_succ(), r.succ)
        & is_there(place.wants_nx(), r.nx)
}

fn as_fresh(r: Row) -> bool
    ensures { result ≡ Sound.as_fresh r }
{
    r == Row::fresh()
}

// Row number i of a state of that edition and N.
fn sound_row(edition: Edition, n: u8, i: usize, r: Row) -> bool
    ensures { result ≡ cond (ltb i n) (Sound.cells_sound n r && Sound.place_sound (edition_number edition) r) (Sound.as_fresh r) }
{
    if i < usize::from(n) {
        cells_sound(n, r) & place_sound(edition, r)
    } else {
        as_fresh(r)
    }
}

impl LockState {
    // Of a state of that edition, which its caller has read from the byte: once a state, and not once a row.
    fn sound_rows(self, edition: Edition) -> bool
        ensures { self.edition ≡ edition_number edition → result ≡ every processors (Sound.sound_row self) }
    {
        // All rows, also after one that is not sound: so no row waits for the test of another.
        let mut ok = true;
        for (i, r) in self.rows.iter().enumerate() {
            ok &= sound_row(edition, self.n, i, *r);
        }
        ok
    }

    pub fn is_sound(self) -> bool
        ensures { result ≡ Sound.sound self }
    {
        let Ok(edition) = Edition::try_from(self.edition) else {
            return false;
        };
        (1 <= self.n)
            & (self.n <= LockState::PROCESSORS)
            & none_or_below(self.n, self.tail)
            & self.sound_rows(edition)
    }
}
