//! Whether the state after changes is sound.
#![tactic(auto)]

mod after;
pub mod laws;
mod soundness;
mod ties;
mod tokens;

pub use soundness::sound_after;
pub use ties::is_within;
pub use tokens::{fits_table, is_fit, is_session, is_token};
