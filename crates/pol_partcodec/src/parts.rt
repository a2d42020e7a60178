/// What stands for the forms of the parts of a metadata, which are types of another crate.
pub struct Parts;
