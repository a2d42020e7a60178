//! The bytes of the rows of a state.
#![tactic(auto)]

mod access_rows;
mod content_rows;
pub mod laws;
mod objects;
mod privilege;
mod row;
mod sessions;

pub use objects::{ObjectChange, read_object_change, write_object_change};
pub use row::Rows;
