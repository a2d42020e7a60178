//! States of a catalogue: their rows, and the changes that are applied to them.
#![tactic(auto)]

mod state;
pub mod texts;

pub use state::State;
