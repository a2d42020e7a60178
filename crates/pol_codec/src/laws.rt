//! A law of the forms of rows: a function without a body, whose clause is the law.
ghost use Rattle.pol_codec.specs.Laws.{FactsAreInByteOrder};

/// The order in which a list of changes has members, joins and grants is that of their bytes.
pub fn facts_are_in_byte_order()
    ensures { FactsAreInByteOrder }
{}
