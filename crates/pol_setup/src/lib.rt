//! What a declaration does: the commands that set a catalogue up, and the lines that tell the secrets that were drawn.
#![tactic(auto)]

mod commands;
mod principals;

pub use commands::{Setup, set_up, words_needed};
