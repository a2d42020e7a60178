//! How changes, and what bytes are read as, are told in worked examples.
#![tactic(auto)]

mod change;
mod codec;
mod object_change;
mod rows;
mod told;

pub use codec::{told_again, told_changes, told_object_change};
pub use told::{Told, list};
