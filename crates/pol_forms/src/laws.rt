//! Laws of forms: each is a function without a body, whose clause is the law.
ghost use Rattle.pol_forms.specs.Laws.{IsCutOnce, ReadsBack, WholesAreExact};

use crate::Coder;

/// What is written of a value is read back, whatever follows it.
pub fn forms_read_back<T, C: Coder<T>>()
    ensures { ReadsBack C.form }
{}

/// Bytes begin with the form of one value at most, and in one way.
pub fn forms_are_cut_once<T, C: Coder<T>>()
    ensures { IsCutOnce C.form }
{}

/// Bytes are read as a value exactly where they are its form.
pub fn wholes_are_exact<T, C: Coder<T>>()
    ensures { WholesAreExact C.form }
{}
