//! Laws of the form of a view's metadata: each is a function without a body, whose clause is the law.
ghost use Rattle.pol_forms.specs.Laws.{IsCutOnce, ReadsBack, WholesAreExact};
ghost use Rattle.pol_viewcodec.specs.Laws.{ViewsAreValid};
ghost use Rattle.pol_viewcodec.specs.Views.{view};

/// What is written of a metadata is read back, whatever follows it.
pub fn views_are_read_back()
    ensures { ReadsBack view }
{}

/// Bytes begin with the form of one metadata at most, and in one way.
pub fn views_are_cut_once()
    ensures { IsCutOnce view }
{}

/// Bytes are read as a metadata exactly where they are its form.
pub fn views_are_exact()
    ensures { WholesAreExact view }
{}

/// A metadata that has a form is valid. That a valid one has a form is told by what writes it, since texts and lists
/// in memory are UTF-8 and short enough.
pub fn views_with_forms_are_valid()
    ensures { ViewsAreValid }
{}
