//! The bytes of lists of changes, which are the body of a record.
#![tactic(auto)]

mod change;
mod codec;
mod form;
pub mod laws;
mod rows;

pub use codec::{read_changes, write_changes};
pub use form::Changes;
