//! Rows of tables: each is found by its id, and by its name in its namespace, and the locations of all of them are
//! kept.
#![tactic(auto)]

mod handle;
mod places;
mod put;
mod row;
mod tables;

pub use handle::Handle;
pub use places::Places;
pub use put::TablePut;
pub use row::{TableName, TableRow};
pub use tables::Tables;
