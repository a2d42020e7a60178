//! Records of a journal. A body whose append failed is taken back before the next one is appended, and what a crash at
//! any moment since the opening may have left is known.
#![tactic(auto)]

mod records;
mod unwritten;

pub use records::Records;
pub use unwritten::Unwritten;
