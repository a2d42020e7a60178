//! Objects with the history of the actions on them, and the journal of their changes.
#![tactic(auto)]

mod acted;
mod closed;
mod entry;
mod kept;
mod opening;
mod stages;
mod undone;

pub use acted::Acted;
pub use closed::ClosedObjects;
pub use entry::ObjectEntry;
pub use kept::KeptObjects;
