//! The answers to what is asked of objects.
#![tactic(auto)]

mod answers;
mod refused;

pub use answers::object_answer;
