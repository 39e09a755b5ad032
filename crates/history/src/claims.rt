// Request [6], shown as proved under its claims' names: each function here is empty, and its contract is the claim. What the claims say
// stands in specs/Claims and Sharp.
ghost use Rattle.history.specs.Claims.{StepBack, NamesTheUndone, WithoutUndosAsBefore, DemandThree, SoundIsKept, CallsAreAWalk};
ghost use Rattle.history.specs.Sharp.{StepBackIsSharp};

// "After any mix of events and undos the state, journal aside, equals the one that the events not undone give from the fresh state."
#[tactic(auto, using(crate::proofs::Claimed::step_back))]
pub fn step_back()
    ensures { StepBack }
{}

// "Undo writes an 03 frame for the processor of the undone event".
#[tactic(auto, using(crate::proofs::Naming::names_the_undone))]
pub fn names_the_undone()
    ensures { NamesTheUndone }
{}

// Without undos the state, journal aside, is what it was before the request.
#[tactic(auto, using(crate::proofs::Claimed::without_undos_as_before))]
pub fn without_undos_as_before()
    ensures { WithoutUndosAsBefore }
{}

// "Demand 3 .. [is] about the events not undone", and so is that two are never inside together.
#[tactic(auto, using(crate::proofs::Claimed::demand_three))]
pub fn demand_three()
    ensures { DemandThree }
{}

// An accepted event gives a sound state with a journal in range.
#[tactic(auto, using(crate::proofs::Keeping::sound_is_kept))]
pub fn sound_is_kept()
    ensures { SoundIsKept }
{}

// What a caller of the library holds is such a walk.
#[tactic(auto, using(crate::proofs::Claimed::calls_are_a_walk))]
pub fn calls_are_a_walk()
    ensures { CallsAreAWalk }
{}

// Computed: undos that are met, and what each test of an undo is for.
#[tactic(auto, using(crate::proofs::Computed::step_back_is_sharp))]
pub fn step_back_is_sharp()
    ensures { StepBackIsSharp }
{}
