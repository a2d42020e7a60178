//! The JSON that a table's metadata is printed as, as the Iceberg table spec has it.
#![tactic(auto)]

mod columns;
mod log;
pub mod members;
mod metadata;
mod parts;
mod printed;
mod texts;

pub use metadata::{table_value, uuid_text, write_table};
pub use printed::{Printed, list};
