//! Laws of the form of a metadata: each is a function without a body, whose clause is the law.
ghost use Rattle.pol_forms.specs.Laws.{IsCutOnce, ReadsBack, WholesAreExact};
ghost use Rattle.pol_metacodec.specs.Laws.{MetadataAreValid, SchemasAreValid};
ghost use Rattle.pol_metacodec.specs.Metadata.{metadata};

/// What is written of a metadata is read back, whatever follows it.
pub fn metadata_is_read_back()
    ensures { ReadsBack metadata }
{}

/// Bytes begin with the form of one metadata at most, and in one way.
pub fn metadata_is_cut_once()
    ensures { IsCutOnce metadata }
{}

/// Bytes are read as a metadata exactly where they are its form.
pub fn metadata_is_exact()
    ensures { WholesAreExact metadata }
{}

/// A schema that has a form is one of the Iceberg table spec.
pub fn schemas_with_forms_are_valid()
    ensures { SchemasAreValid }
{}

/// A metadata that has a form is valid. That a valid one has a form is told by what writes it, since texts and lists
/// in memory are UTF-8 and short enough.
pub fn metadata_with_forms_are_valid()
    ensures { MetadataAreValid }
{}
