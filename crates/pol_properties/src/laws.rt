//! Theorems over the definitions of `specs/`: the clause of each function is the statement, and its body is empty.
ghost use Rattle.pol_properties.specs.Laws.{EqualLookUpsAreEqualMaps, MissingKeysAreThose, MissingKeysAscend, OtherKeysStay, OtherKeysStayWithout, RemovedKeyIsGone, ValueIsSet, ValuesAreUpdated};

/// The key of a pair that is put has the pair's value.
pub fn value_is_set()
    ensures { ValueIsSet }
{}

/// Every other key has the value that it had before.
pub fn other_keys_stay()
    ensures { OtherKeysStay }
{}

/// A key that is taken away has no value.
pub fn removed_key_is_gone()
    ensures { RemovedKeyIsGone }
{}

/// Every other key keeps its value.
pub fn other_keys_stay_without()
    ensures { OtherKeysStayWithout }
{}

/// Maps in which each key has the same value are one map.
pub fn equal_look_ups_are_equal_maps()
    ensures { EqualLookUpsAreEqualMaps }
{}

/// After an update each key has the text that the update has under it; else nothing, where it is removed; else what it
/// had.
pub fn values_are_updated()
    ensures { ValuesAreUpdated }
{}

/// The missing keys are those among the removals that no pair has.
pub fn missing_keys_are_those()
    ensures { MissingKeysAreThose }
{}

/// Each missing key is below those after it, so none stands twice.
pub fn missing_keys_ascend()
    ensures { MissingKeysAscend }
{}
