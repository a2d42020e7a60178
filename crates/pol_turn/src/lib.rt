//! A ticket lock over a value that stands for a log of numbered items, and the passes that take turns with it: each
//! knows the log as it last saw it, and its own items.
#![tactic(auto)]

mod pass;
mod plays;
mod standing;
mod turns;
mod view;

pub use pass::Pass;
pub use standing::Standing;
pub use turns::{Held, Turns};
pub use view::Gathered;

#[cfg(test)]
mod tests;
