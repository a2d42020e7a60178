//! The catalogue with its history, in a journal.
#![tactic(auto)]

mod closed;
mod entry;
mod kept;
mod opening;
mod render;
mod stages;
mod stepped;
mod undone;

pub use closed::Closed;
pub use entry::Entry;
pub use kept::Kept;
pub use opening::opening_record;
pub use render::Render;
pub use stepped::Stepped;
