//! Theorems over the definitions of `specs/`: the clause of each function is the statement, and its body is empty.
ghost use Rattle.pol_states.specs.Laws.{AllChangesMakeState, ListedStateIsSound};

/// The changes from the empty state to a sound one make it anew: with them the empty state has its rows and its
/// counters, its members, joins and grants in rising order, and no charges.
pub fn all_changes_make_state()
    ensures { AllChangesMakeState }
{}

/// A sound state is sound, too, as its changes make it anew.
pub fn listed_state_is_sound()
    ensures { ListedStateIsSound }
{}
