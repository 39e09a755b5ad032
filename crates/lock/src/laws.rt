// Facts about the definitions, each the promise of an empty function, so that the check names it as proved.
ghost use Rattle.lock.specs.Cases.{CasesHold};
ghost use Rattle.lock.specs.Places.{SetsByName, RuleIsTheLists, EachPlaceSaidOnce};
ghost use Rattle.lock.specs.Touched.{OneEventTouches};
ghost use Rattle.lock.specs.Unique.{OnlyOneAnswer, OnlyOnePut, OnlyOneSays, OnlyOneNamed};

// Document 01's cases P1 to P12.
#[tactic(auto, using(crate::proofs::Roof::Computed::cases_hold))]
pub fn cases_hold()
    ensures { CasesHold }
{}

// What one event writes: two rows and L, which put back give the state before it.
#[tactic(auto, using(crate::proofs::Touched::one_event_touches))]
pub fn one_event_touches()
    ensures { OneEventTouches }
{}

// Each public contract leaves room for only one answer.
#[tactic(auto, using(crate::proofs::Roof::Single::only_one_answer))]
pub fn only_one_answer()
    ensures { OnlyOneAnswer }
{}

// And so do those of the two puts.
#[tactic(auto, using(crate::proofs::Roof::Single::only_one_put))]
pub fn only_one_put()
    ensures { OnlyOnePut }
{}

// Two answers that say the same refusal and the same state are the same.
#[tactic(auto, using(crate::proofs::Roof::Named::one_says))]
pub fn only_one_says()
    ensures { OnlyOneSays }
{}

// And a number is taken for one edition, event or place.
#[tactic(auto, using(crate::proofs::Roof::Named::one_named))]
pub fn only_one_named()
    ensures { OnlyOneNamed }
{}

// Which places an edition has: the sets of the rule by name.
#[tactic(auto, using(crate::proofs::Ground::Editions::sets_by_name))]
pub fn sets_by_name()
    ensures { SetsByName }
{}

// The rule is document 01's lists.
#[tactic(auto, using(crate::proofs::Ground::Editions::rule_is))]
pub fn rule_is_the_lists()
    ensures { RuleIsTheLists }
{}

// Of the rule's five sets each place is in one; only rest and inside, which every lock has, are in two.
#[tactic(auto, using(crate::proofs::Ground::Editions::said_once))]
pub fn each_place_said_once()
    ensures { EachPlaceSaidOnce }
{}
