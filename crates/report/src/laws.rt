// What is claimed of the report, as contracts: an empty function promises each, so that a check names it. The statements are
// those of `specs/`, `Order`, `Laid`, `AtMost`, `Sharp` and `Unique`; nobody needs to call these. Three have an answer file: there
// the search does not take the lemma that it is given.
ghost use Rattle.report.specs.Order.{AnyOrder, PartsAddUp, RefusedAddsNothing};
ghost use Rattle.report.specs.Laid.{RowsAreLaid};
ghost use Rattle.report.specs.AtMost.{ChargedOnce, NoMoreThanEntries, DiagonalIsZero};
ghost use Rattle.report.specs.Sharp.{ReportIsSharp};
ghost use Rattle.report.specs.Unique.{OnlyOneAnswerFits};

// Where no schedule is refused, another order refuses none and gives the same table.
pub fn any_order()
    ensures { AnyOrder }
{}

// And the tables of two parts add up to the table of both.
pub fn parts_add_up()
    ensures { PartsAddUp }
{}

// A refused schedule leaves the table and the lent rows as they were.
#[tactic(auto, using(crate::proofs::Orders::refused_adds_nothing))]
pub fn refused_adds_nothing()
    ensures { RefusedAddsNothing }
{}

// The first N lent rows hold the tallies, and those from N on are as they were.
pub fn rows_are_laid()
    ensures { RowsAreLaid }
{}

// In the plain and guarded editions an entry charges each pair at most 1.
#[tactic(auto, using(crate::proofs::Once::charged_once))]
pub fn charged_once()
    ensures { ChargedOnce }
{}

// So a pair counts at most as much as the one that waited entered.
#[tactic(auto, using(crate::proofs::Once::no_more_than_entries))]
pub fn no_more_than_entries()
    ensures { NoMoreThanEntries }
{}

// Nobody is charged for its own entries.
#[tactic(auto, using(crate::proofs::Once::diagonal_is_zero))]
pub fn diagonal_is_zero()
    ensures { DiagonalIsZero }
{}

// Computed: these claims are met, and none holds without its premise.
#[tactic(auto, using(crate::proofs::Witness::report_is_sharp))]
pub fn report_is_sharp()
    ensures { ReportIsSharp }
{}

// Two answers that meet a public contract are one.
#[tactic(auto, using(crate::proofs::Single::one_answer))]
pub fn only_one_answer_fits()
    ensures { OnlyOneAnswerFits }
{}
