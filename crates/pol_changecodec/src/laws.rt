//! Laws of the form of lists of changes: the clause of each function is the law, and its body does nothing.
ghost use Rattle.pol_changecodec.specs.Change.{changes};
ghost use Rattle.pol_changecodec.specs.Laws.{FactsRiseByBytes};
ghost use Rattle.pol_forms.specs.Laws.{FormsTellValues, IsCutOnce, ReadsBack, WholesAreExact};

use pol_access::laws::facts_are_in_order;
use pol_codec::laws::facts_are_in_byte_order;

/// What is written of a list of changes is read back, whatever follows it.
pub fn changes_are_read_back()
    ensures { ReadsBack changes }
{}

/// Bytes begin with the form of one list of changes at most, and in one way.
pub fn changes_are_cut_once()
    ensures { IsCutOnce changes }
{}

/// Lists of changes that have one form are equal.
pub fn forms_tell_changes()
    ensures { FormsTellValues changes }
{}

/// Bytes are read as a list of changes exactly where they are its form.
pub fn changes_are_exact()
    ensures { WholesAreExact changes }
{}

/// Among the changes between two states, members, joins and grants that are put stand by rising bytes of their rows,
/// and so do those that are dropped.
pub fn facts_rise_by_bytes()
    ensures { FactsRiseByBytes }
{
    facts_are_in_order();
    facts_are_in_byte_order();
}
