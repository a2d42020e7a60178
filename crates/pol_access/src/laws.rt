//! Theorems over the definitions of `specs/`: the clause of each function is the statement, and its body is empty.
ghost use Rattle.pol_access.specs.Laws.{FactsAreInOrder, ImplicationIsReflexive, ImplicationIsTransitive, SearchTellsMay, TextsReadBack};

/// Each privilege is read back from its text.
pub fn texts_read_back()
    ensures { TextsReadBack }
{}

/// Each privilege implies itself.
pub fn implication_is_reflexive()
    ensures { ImplicationIsReflexive }
{}

/// What an implied privilege implies is implied: the table is closed.
pub fn implication_is_transitive()
    ensures { ImplicationIsTransitive }
{}

/// The search through the rows, by which needs are judged, tells exactly what a caller may do.
pub fn search_tells_may()
    ensures { SearchTellsMay }
{}

/// Members, joins and grants in order are the rows, each as often, and where they differ they rise: members by
/// principal and role, joins by principal role and catalogue role, and grants by role, privilege, kind of securable
/// and its id.
pub fn facts_are_in_order()
    ensures { FactsAreInOrder }
{}
