//! Theorems over the definitions of `specs/`: the clause of each function is the statement, and its body is empty.
ghost use Rattle.pol_content.specs.Laws.{ChainsHaveWhatContains, DeepestPartsAreFirst};

/// A chain has the securable and what contains it, and nothing else.
pub fn chains_have_what_contains()
    ensures { ChainsHaveWhatContains }
{}

/// The deepest part that is there of a path is its namespace, or else that of the levels without the last.
pub fn deepest_parts_are_first()
    ensures { DeepestPartsAreFirst }
{}
