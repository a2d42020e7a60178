//! Laws of the JSON of metadata: each is a function without a body, whose clause is the law.
ghost use Rattle.pol_metajson.specs.Laws.{CreateTablesAreExact};

/// A body that creates a table is read exactly where it is of the grammar.
pub fn create_tables_are_exact()
    ensures { CreateTablesAreExact }
{}
