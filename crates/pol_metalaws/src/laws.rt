//! Theorems over the definitions of the crates below. Their bodies are empty.
ghost use Rattle.pol_metalaws.specs.Laws.{MetadataAreExact, PrintedIsRead};

/// What is printed of a metadata whose parts have their forms is read as the same metadata.
pub fn printed_is_read()
    ensures { PrintedIsRead }
{}

/// A metadata is read exactly where the bytes are an object of JSON that is of its grammar.
pub fn metadata_are_exact()
    ensures { MetadataAreExact }
{}
