//! Theorems over the definitions of the crates below. Their bodies are empty.
ghost use Rattle.pol_updatelaws.specs.Laws.{CurrentIsMain, FirstRefusedIsTold, SequenceRises, StaysValid, WeightKeepsBound};

/// A valid metadata stays valid, where the updates have the forms of their parts.
pub fn stays_valid()
    ensures { StaysValid }
{}

/// The current snapshot is the one that `main` names, where it was so before.
pub fn current_is_main()
    ensures { CurrentIsMain }
{}

/// The sequence numbers of snapshots rise in the order in which they were added, and none is above the last one, where
/// it was so before.
pub fn sequence_rises()
    ensures { SequenceRises }
{}

/// A list that is refused names its first refused place: the updates before it are applied, and it is refused then for
/// the reason that is told.
pub fn first_refused_is_told()
    ensures { FirstRefusedIsTold }
{}

/// Where a metadata and a list of updates weigh at most 2^32 each, the metadata after the list weighs at most 2^40.
pub fn weight_keeps_bound()
    ensures { WeightKeepsBound }
{}
