//! The objects that requests are answered from: each action on them is done by a permit, and names the access that gave
//! it.
#![tactic(auto)]

mod objects;

pub use objects::Objects;
pub use pol_object_store::{Acted, ClosedObjects};
pub use pol_shared::{Accessed, Closed, Permit, Render, Shared, Stepped};
