//! Theorems over the definitions of `specs/`: the clause of each function is the statement, and its body is empty.
ghost use Rattle.pol_soundness.specs.Laws.{AppliedAtTheirTime, EmptyStateIsValid, SoundStatesAreValid};

/// The metadata of a sound state are valid, so that it may be judged whether changes lead from it to a sound one.
pub fn sound_states_are_valid()
    ensures { SoundStatesAreValid }
{}

/// So it may be judged whether they lead to one from the empty state.
pub fn empty_state_is_valid()
    ensures { EmptyStateIsValid }
{}

/// Changes that are applied with the time to which they lead, and without a charge, lead to the state after them.
pub fn applied_at_their_time()
    ensures { AppliedAtTheirTime }
{}
