// That soundness is kept, as contracts: an empty function promises each claim, so that a check names it. The statements
// are those of `specs/Kept.antt`; nobody needs to call these.
ghost use Rattle.lock.specs.Kept.{FreshIsSound, SoundIsKept, NeverUnsound};

// The fresh state is sound.
#[tactic(auto, using(crate::proofs::Keeping::fresh_is_sound))]
pub fn fresh_is_sound()
    ensures { FreshIsSound }
{}

// An accepted event gives a sound state.
#[tactic(auto, using(crate::proofs::Keeping::sound_is_kept))]
pub fn sound_is_kept()
    ensures { SoundIsKept }
{}

// No schedule leads from the fresh state to one that is not sound.
#[tactic(auto, using(crate::proofs::Keeping::never_unsound))]
pub fn never_unsound()
    ensures { NeverUnsound }
{}
