//! Whether changes lead from a sound state to a sound one, at the cost of the changes where they are of a known shape.
#![tactic(auto)]

mod replaced;
mod steps;
mod tables;
mod tokens;

pub use steps::sound_next;
