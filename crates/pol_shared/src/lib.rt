//! The catalogue that requests are answered from, as a pass of it sees it.
#![tactic(auto)]

mod access;
mod accessed;
mod permit;
mod shared;

pub use accessed::Accessed;
pub use permit::Permit;
pub use pol_kept::{Closed, Entry, Render, Stepped};
pub use shared::Shared;
