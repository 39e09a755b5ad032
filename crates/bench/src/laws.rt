// The laws of logs as contracts: an empty function promises each, so that a check names it. The statements are those
// of `specs/Laws.antt`, `specs/Bridge.antt`, `specs/Verdict.antt` and `specs/Case.antt`; nobody needs to call these. Two have an answer
// file: there the search does not take the lemma that it is given.
ghost use Rattle.bench.specs.Laws.{FuelDoesNotMatter, LogFitsItsRoom, OnlyOneAnswerFits};
ghost use Rattle.bench.specs.Bridge.{EveryLogIsARun, AcceptedLogIsARun, RowsFollowTheRun, EntryMarkIsAnEntry};
ghost use Rattle.bench.specs.Verdict.{LogTellsTheVerdict};
ghost use Rattle.bench.specs.Case.{CaseDoesNotMatter, LogIsInUpperCase, UpperCaseAsBefore, CaseIsSharp};

// The bound on the lines in the definition of a log changes nothing.
#[tactic(auto, using(crate::proofs::Proved::fuel_does_not_matter))]
pub fn fuel_does_not_matter()
    ensures { FuelDoesNotMatter }
{}

// The room that is asked for is enough.
#[tactic(auto, using(crate::proofs::Proved::log_fits_its_room))]
pub fn log_fits_its_room()
    ensures { LogFitsItsRoom }
{}

// Two answers that meet the contract of the bench are one.
#[tactic(auto, using(crate::proofs::Proved::only_one_answer_fits))]
pub fn only_one_answer_fits()
    ensures { OnlyOneAnswerFits }
{}

// Every log is line 1, the rows along the run of the calls that are heard, and their number or the first refusal with its
// line; or the refusal alone.
pub fn every_log_is_a_run()
    ensures { EveryLogIsARun }
{}

// The log of a schedule with no refusal is line 1, the rows along its run, and the number of its calls.
#[tactic(auto, using(crate::proofs::Proved::accepted_log_is_a_run))]
pub fn accepted_log_is_a_run()
    ensures { AcceptedLogIsARun }
{}

// A schedule's refusal and its line, as two numbers, are those of its log's last line.
#[tactic(auto, using(crate::proofs::Verdict::log_tells_the_verdict))]
pub fn log_tells_the_verdict()
    ensures { LogTellsTheVerdict }
{}

// The row after each call shows the state that the run has then.
#[tactic(auto, using(crate::proofs::Proved::rows_follow_the_run))]
pub fn rows_follow_the_run()
    ensures { RowsFollowTheRun }
{}

// The entry mark is given exactly where the call is an entry.
#[tactic(auto, using(crate::proofs::Proved::entry_mark_is_an_entry))]
pub fn entry_mark_is_an_entry()
    ensures { EntryMarkIsAnEntry }
{}

// A schedule has the log that it has in upper case.
#[tactic(auto, using(crate::proofs::Proved::case_does_not_matter))]
pub fn case_does_not_matter()
    ensures { CaseDoesNotMatter }
{}

// No log has a to f.
pub fn log_is_in_upper_case()
    ensures { LogIsInUpperCase }
{}

// Where line 1 is in upper case, the log begins with it as read.
#[tactic(auto, using(crate::proofs::Proved::upper_case_as_before))]
pub fn upper_case_as_before()
    ensures { UpperCaseAsBefore }
{}

// Computed: in another case it does not.
#[tactic(auto, using(crate::proofs::Proved::case_is_sharp))]
pub fn case_is_sharp()
    ensures { CaseIsSharp }
{}
