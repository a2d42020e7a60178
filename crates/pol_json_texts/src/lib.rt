//! Texts of JSON objects that are written piece by piece, so that a member that is long is written straight.
#![tactic(auto)]

mod objects;

pub use objects::{Members, close_object, name_member, open_object};
