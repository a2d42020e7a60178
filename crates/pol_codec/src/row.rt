/// What stands for the forms of rows and of parts of rows, which are types of other crates.
pub struct Rows;
