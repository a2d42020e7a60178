//! The form of the columns of a schema as bytes.
#![tactic(auto)]

mod coder;
mod columns;
mod distinct;
mod inner;
mod names;
mod stored;
mod types;
mod written;

pub use coder::Columns;
pub use distinct::differ;
