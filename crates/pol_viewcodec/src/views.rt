/// What stands for the forms of the metadata of views and of its parts, which are types of another crate.
pub struct Views;
