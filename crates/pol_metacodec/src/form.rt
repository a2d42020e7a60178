/// What stands for the forms of schemas and of whole metadata, which are types of another crate.
pub struct Metadata;
