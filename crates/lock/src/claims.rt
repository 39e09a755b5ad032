// Demand 3, shown as proved under its clauses' names, and what is shown of the old boards' lock and of the second read: each function
// here is empty, and its contract is the claim, proved by the lemma that stands above it. What the claims say stands in specs/Claims,
// Sharp, Old and Reread. (second_read_finds_the_same has its answer in a file: there the search does not take the lemma.)
ghost use Rattle.lock.specs.Sharp.{ClaimsAreSharp};
ghost use Rattle.lock.specs.Old.{OldHasNoJoins, OldOvertakes, OldHasNoBound};
ghost use Rattle.lock.specs.Reread.{SecondReadFindsTheSame, SecondReadIsSharp, LostChangesNothing, LostStaysLost, NobodyEntersOnceLost, LockIsLost};
ghost use Rattle.lock.specs.Claims.{NeverTwoInside, NeverTwoInsideAnyEdition, NobodyLaterEnters, OthersEnterOnce, WaitsAtMost, NobodyOvertakes, OnceSinceLastJoin, InsideByEntry, GuardHasItsReleaser, CallsAreARun};

// "two processors are never inside together"
#[tactic(auto, using(crate::proofs::Roof::Claimed::never_two_inside))]
pub fn never_two_inside()
    ensures { NeverTwoInside }
{}

// the drawn edition keeps that too, and so does the old boards' lock
#[tactic(auto, using(crate::proofs::Roof::Claimed::never_two_inside_any_edition))]
pub fn never_two_inside_any_edition()
    ensures { NeverTwoInsideAnyEdition }
{}

// "Between its join and its entry no processor whose latest join is later enters"
#[tactic(auto, using(crate::proofs::Roof::Claimed::nobody_later_enters))]
pub fn nobody_later_enters()
    ensures { NobodyLaterEnters }
{}

// "and every other processor enters at most once"
#[tactic(auto, using(crate::proofs::Roof::Claimed::others_enter_once))]
pub fn others_enter_once()
    ensures { OthersEnterOnce }
{}

// "so of N processors it waits through at most N - 1 entries"
#[tactic(auto, using(crate::proofs::Roof::Claimed::waits_at_most))]
pub fn waits_at_most()
    ensures { WaitsAtMost }
{}

// the order with any interrupts, from the last join before an entry
#[tactic(auto, using(crate::proofs::Roof::Claimed::nobody_overtakes))]
pub fn nobody_overtakes()
    ensures { NobodyOvertakes }
{}

// and every processor enters at most once there
#[tactic(auto, using(crate::proofs::Roof::Claimed::once_since_last_join))]
pub fn once_since_last_join()
    ensures { OnceSinceLastJoin }
{}

// "A processor is inside while its place is 9": it comes there by its own entry only
#[tactic(auto, using(crate::proofs::Roof::Claimed::inside_by_entry))]
pub fn inside_by_entry()
    ensures { InsideByEntry }
{}

// a set guard has somebody on the way to lift it
#[tactic(auto, using(crate::proofs::Roof::Claimed::guard_has_its_releaser))]
pub fn guard_has_its_releaser()
    ensures { GuardHasItsReleaser }
{}

// any sequence of calls of `event` from `LockState::fresh` is a run
#[tactic(auto, using(crate::proofs::Roof::Callers::calls_are_a_run))]
pub fn calls_are_a_run()
    ensures { CallsAreARun }
{}

// The premises can be met, the bound is met, and one interrupt or the drawn edition is too much.
#[tactic(auto, using(crate::proofs::Roof::Witness::claims_are_sharp))]
pub fn claims_are_sharp()
    ensures { ClaimsAreSharp }
{}

// "this lock has no joins"
#[tactic(auto, using(crate::proofs::Roof::Old::old_has_no_joins))]
pub fn old_has_no_joins()
    ensures { OldHasNoJoins }
{}

// "a schedule showing an overtaking is kept as a test"
#[tactic(auto, using(crate::proofs::Roof::Old::old_overtakes))]
pub fn old_overtakes()
    ensures { OldOvertakes }
{}

// One that has tried and failed may wait through any number of entries.
#[tactic(auto, using(crate::proofs::Roof::Old::old_has_no_bound))]
pub fn old_has_no_bound()
    ensures { OldHasNoBound }
{}

// "The guarded edition keeps its single read; prove that there a second read would find the same."
pub fn second_read_finds_the_same()
    ensures { SecondReadFindsTheSame }
{}

// The premise can be met; in the drawn edition a second read may find another.
#[tactic(auto, using(crate::proofs::Roof::Reread::second_read_is_sharp))]
pub fn second_read_is_sharp()
    ensures { SecondReadIsSharp }
{}

// "place 28, lost, where every step is accepted and changes nothing"
#[tactic(auto, using(crate::proofs::Roof::Reread::lost_changes_nothing))]
pub fn lost_changes_nothing()
    ensures { LostChangesNothing }
{}

// a processor at 28 is at 28 after every further schedule
#[tactic(auto, using(crate::proofs::Roof::Reread::lost_stays_lost))]
pub fn lost_stays_lost()
    ensures { LostStaysLost }
{}

// and from then on nobody enters
#[tactic(auto, using(crate::proofs::Roof::Reread::nobody_enters_once_lost))]
pub fn nobody_enters_once_lost()
    ensures { NobodyEntersOnceLost }
{}

// "Show a schedule that reaches 28"
#[tactic(auto, using(crate::proofs::Roof::Reread::lock_is_lost))]
pub fn lock_is_lost()
    ensures { LockIsLost }
{}
