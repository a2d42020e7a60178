//! Theorems over lists of updates of views. Their bodies are empty.
ghost use Rattle.pol_views.specs.Laws.{FirstRefusedIsTold, KeepsAtMostHundred, ViewStaysValid, ViewWeightKeepsBound};

/// A valid metadata stays valid, where the updates have the forms of their parts.
pub fn stays_valid()
    ensures { ViewStaysValid }
{}

/// A list that is refused names its first refused place: the updates before it are applied, and it is refused then for
/// the reason that is told.
pub fn first_refused_is_told()
    ensures { FirstRefusedIsTold }
{}

/// A view of at most 100 versions has no more after a list.
pub fn keeps_at_most_hundred()
    ensures { KeepsAtMostHundred }
{}

/// Where a metadata and a list of updates weigh at most 2^32 each, the metadata after the list weighs at most 2^40.
pub fn weight_keeps_bound()
    ensures { ViewWeightKeepsBound }
{}
