// The laws of lines as contracts: an empty function promises each, so that a check names it. The statements are those
// of `specs/Laws.antt`; nobody needs to call these.
ghost use Rattle.frame.specs.Laws.{DigitsAreInverse, CheckComesToZero, LengthsAreKnown, WritesUpperCase, WrittenIsReadBack, AcceptedIsWrittenUpToCase, ReadInEveryCase, CaseIsSharp, RefusalsGoByOrder, OnlyOneAnswerFits};

// The digit's rule for reading and its rule for writing are inverse to each other, up to case.
#[tactic(auto, using(crate::proofs::Proved::digits_are_inverse))]
pub fn digits_are_inverse()
    ensures { DigitsAreInverse }
{}

// The check of every written line comes to 0.
#[tactic(auto, using(crate::proofs::Proved::check_comes_to_zero))]
pub fn check_comes_to_zero()
    ensures { CheckComesToZero }
{}

// The length of every written line is known.
#[tactic(auto, using(crate::proofs::Proved::lengths_are_known))]
pub fn lengths_are_known()
    ensures { LengthsAreKnown }
{}

// The writer writes no a to f.
#[tactic(auto, using(crate::proofs::Proved::writes_upper_case))]
pub fn writes_upper_case()
    ensures { WritesUpperCase }
{}

// What the writer writes of four pairs, the reader reads back.
#[tactic(auto, using(crate::proofs::Proved::written_is_read_back))]
pub fn written_is_read_back()
    ensures { WrittenIsReadBack }
{}

// What the reader accepts is, up to the case of its digits, what the writer would write.
pub fn accepted_is_written_up_to_case()
    ensures { AcceptedIsWrittenUpToCase }
{}

// A line is read alike in every mixture of the cases.
#[tactic(auto, using(crate::proofs::Proved::read_in_every_case))]
pub fn read_in_every_case()
    ensures { ReadInEveryCase }
{}

// Computed lines: the laws of case hold of no less.
#[tactic(auto, using(crate::proofs::Proved::case_is_sharp))]
pub fn case_is_sharp()
    ensures { CaseIsSharp }
{}

// The refusals exclude each other by their order, and cover all that is not accepted.
#[tactic(auto, using(crate::proofs::Refusals::by_order))]
pub fn refusals_go_by_order()
    ensures { RefusalsGoByOrder }
{}

// Two answers that meet a public contract are one.
#[tactic(auto, using(crate::proofs::Proved::only_one_answer_fits))]
pub fn only_one_answer_fits()
    ensures { OnlyOneAnswerFits }
{}
