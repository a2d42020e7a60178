/// What stands for the forms of changes and of the rows of tables and views, which are types of other crates.
pub struct Changes;
