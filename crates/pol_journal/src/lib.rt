//! The journal: records that are on the disk before they count, whatever a crash makes of it. A file has a header of
//! 64 bytes, then records, each behind an open gate, then a closed gate, and then anything.
#![tactic(auto)]

mod format;
mod journal;
mod kind;
pub mod laws;
mod opening;
mod reads;
mod records;
mod refused;
mod stage;
mod writes;

pub use journal::Journal;
pub use kind::Kind;
pub use opening::Opening;
pub use refused::JournalRefused;
