//! The JSON (RFC 8259) of commits is read: what they require of tables and how they change them, with the path to the
//! first bad field.
#![tactic(auto)]

mod action;
mod asked;
mod commits;
mod identifier;
pub mod keys;
pub mod laws;
mod members;
mod requirements;
mod updates;

pub use action::TextAction;
pub use asked::Asked;
pub use commits::{read_commit, read_transaction};
