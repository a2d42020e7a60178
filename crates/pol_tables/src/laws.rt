//! Theorems over the definitions of `specs/`: the clause of each function is the statement, and its body is empty.
ghost use Rattle.pol_tables.specs.Laws.{CodesTellEquality, ListsAreInOrder, EqualTablesHaveNoChanges, PushedRowIsPut, AppendedRowsArePut, AlteredRowIsPut, UnalteredRowChangesNothing, AlteredRowsArePut, TakenRowIsDropped, FilteredRowsAreDropped, ChangesLeadToRows, ChangesLeadToRowsById, EqualFactsHaveNoChanges, NewFactIsPut, AppendedFactsArePut, TakenFactIsDropped, FilteredFactsAreDropped, ChangesLeadToFacts};

/// Two values are the same by their code exactly where they are equal.
pub fn codes_tell_equality<T>()
    ensures { CodesTellEquality T }
{}

/// A list in order has the items, each as often. None is less than the one in front of it, and those that tie stay in
/// their order.
pub fn lists_are_in_order<T>()
    ensures { ListsAreInOrder T }
{}

/// Between a table and itself there is no change.
pub fn equal_tables_have_no_changes<R, C>()
    ensures { EqualTablesHaveNoChanges R C }
{}

/// A row that is pushed above all others is put.
pub fn pushed_row_is_put<R, C>()
    ensures { PushedRowIsPut R C }
{}

/// Rows with new ids are put, in their order.
pub fn appended_rows_are_put<R, C>()
    ensures { AppendedRowsArePut R C }
{}

/// A row that is altered under its id is put.
pub fn altered_row_is_put<R, C>()
    ensures { AlteredRowIsPut R C }
{}

/// A row that is put as it stands changes nothing.
pub fn unaltered_row_changes_nothing<R, C>()
    ensures { UnalteredRowChangesNothing R C }
{}

/// Of the rows that are altered under their ids, those that change are put, in their order.
pub fn altered_rows_are_put<R, C>()
    ensures { AlteredRowsArePut R C }
{}

/// A row that is taken away is dropped.
pub fn taken_row_is_dropped<R, C>()
    ensures { TakenRowIsDropped R C }
{}

/// The rows that a filter leaves out are dropped, in their order.
pub fn filtered_rows_are_dropped<R, C>()
    ensures { FilteredRowsAreDropped R C }
{}

/// The changes between two tables lead from the old rows to the new ones, where ids rise and those that are new are
/// above the others.
pub fn changes_lead_to_rows<R, C, S>()
    ensures { ChangesLeadToRows R C S }
{}

/// The changes between two tables lead to the new row of each id, where ids differ.
pub fn changes_lead_to_rows_by_id<R, C, S>()
    ensures { ChangesLeadToRowsById R C S }
{}

/// Between a set of facts and itself there is no change.
pub fn equal_facts_have_no_changes<T, C>()
    ensures { EqualFactsHaveNoChanges T C }
{}

/// A new fact is put.
pub fn new_fact_is_put<T, C>()
    ensures { NewFactIsPut T C }
{}

/// New facts are put, in rising order.
pub fn appended_facts_are_put<T, C>()
    ensures { AppendedFactsArePut T C }
{}

/// A fact that is taken away is dropped.
pub fn taken_fact_is_dropped<T, C>()
    ensures { TakenFactIsDropped T C }
{}

/// The facts that a filter leaves out are dropped, in rising order.
pub fn filtered_facts_are_dropped<T, C>()
    ensures { FilteredFactsAreDropped T C }
{}

/// The changes between two sets lead to a set that holds the new facts and no others.
pub fn changes_lead_to_facts<T, C, S>()
    ensures { ChangesLeadToFacts T C S }
{}
