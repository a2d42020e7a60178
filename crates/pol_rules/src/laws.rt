//! Laws of rules: each is a function without a body, whose clause is the law.
ghost use Rattle.pol_rules.specs.Laws.{NeedsAreShown};

/// What is needed on a catalogue that is there, on a namespace's path in it or on a parent is shown as this catalogue,
/// or as a namespace in it. What is needed on a table's path is shown so, or as a table in it. So a refusal shows the
/// realm only where something is needed on the realm.
pub fn needs_are_shown()
    ensures { NeedsAreShown }
{}
