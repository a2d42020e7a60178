//! The disk as Vanloquat sees it, with what a crash at any moment may leave of it: a form in memory
//! whose crashes tests can list, one that holds nothing but its length, and one over the calls of a
//! file, which a file of the system answers.
#![tactic(auto)]

mod disk;
mod file;
mod file_calls;
mod hollow;
mod memory;
mod over;

pub use disk::Disk;
pub use file::{FileDisk, SystemFile};
pub use file_calls::FileCalls;
pub use hollow::HollowDisk;
pub use memory::MemoryDisk;
pub use memory::content::Content;
pub use over::DiskOver;
