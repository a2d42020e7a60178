//! Laws of the form of columns: each is a function without a body, whose clause is the law.
ghost use Rattle.pol_columnforms.specs.Laws.{FormsAreValid, ValidHaveForms};

/// The columns of a schema as the Iceberg table spec has it have a form, where they are such as memory keeps.
pub fn valid_columns_have_forms()
    ensures { ValidHaveForms }
{}

/// Columns that have a form are those of a schema as the Iceberg table spec has it.
pub fn forms_are_those_of_valid_columns()
    ensures { FormsAreValid }
{}
