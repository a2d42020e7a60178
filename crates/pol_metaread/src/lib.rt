//! Whole metadata of tables are read of their JSON (RFC 8259), each with the path to its first bad field.
#![tactic(auto)]

mod ids;
mod metadata;
mod numbered;
mod snapshot;
mod stored;

pub use ids::Long;
pub use metadata::read_table;
pub use stored::{Stored, parts};
