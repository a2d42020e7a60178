//! The values that rows, commands, replies and answers are made of: texts, bytes and lists, which contracts see
//! as lists, and the one error that needs no cause, want of memory.
#![tactic(auto)]

mod bytes;
mod exact;
mod listed;
mod out_of_memory;
mod text;

pub use bytes::Bytes;
pub use exact::Exact;
pub use listed::Listed;
pub use out_of_memory::{OutOfMemory, both};
pub use text::Text;
