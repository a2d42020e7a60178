//! The forms of the parts of a table's metadata as bytes.
#![tactic(auto)]

mod logs;
mod numbers;
mod order;
mod partition;
mod parts;
mod snapshot;
mod transform;

pub use numbers::{ColumnId, FieldId, Id, Kept, LastFieldId, Long, Precision, Size, Version};
pub use parts::Parts;
