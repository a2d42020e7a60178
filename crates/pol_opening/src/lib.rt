//! The state of a catalogue, as the records of its journal lead to it.
#![tactic(auto)]

pub mod laws;
mod making;
mod opened;
mod opening;

pub use opened::Opened;
pub use opening::open;
