//! The form of a table's metadata as bytes.
#![tactic(auto)]

mod form;
mod ids;
pub mod laws;
mod metadata;
mod schema;
mod whole;

pub use form::Metadata;
pub use ids::{is_among, schema_ids};
