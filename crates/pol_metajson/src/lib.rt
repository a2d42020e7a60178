//! The JSON (RFC 8259) of bodies that create a table is read, and of the parts that whole metadata share with them,
//! each with the path to its first bad field.
#![tactic(auto)]

mod body;
mod brackets;
mod columns;
mod failed;
mod ids;
mod kind;
mod kinds;
pub mod laws;
mod numeral;
mod order;
mod partition;
mod schema;
mod seen;
mod siblings;
mod table;
mod transform;

pub use body::{Body, values};
pub use ids::{ColumnId, FieldId, Id};
pub use table::{CreateTable, read_create_table};
