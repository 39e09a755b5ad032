// Facts about the definitions, each the promise of an empty function, so that the check names it as proved.
ghost use Rattle.history.specs.Cases.{CasesHold};
ghost use Rattle.history.specs.Unique.{OnlyOneAnswerFits};

// Document 01's cases P1 to P12, of this crate's fresh state and event; the lock's own are in lock's `laws`.
#[tactic(auto, using(crate::proofs::Computed::cases_hold))]
pub fn cases_hold()
    ensures { CasesHold }
{}

// Each public contract leaves room for only one answer.
#[tactic(auto, using(crate::proofs::Single::only_one_answer_fits))]
pub fn only_one_answer_fits()
    ensures { OnlyOneAnswerFits }
{}
