// What holds of the functions for C and Rust, as the promise of an empty function, so that the check names it.
ghost use Rattle.board.specs.Unique.{OnlyOneAnswerFits};

// Two answers that meet a public contract are one.
#[tactic(auto, using(crate::proofs::Single::only_one_answer_fits))]
pub fn only_one_answer_fits()
    ensures { OnlyOneAnswerFits }
{}
