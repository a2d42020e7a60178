//! What has to hold of a table's metadata before a commit changes it: the requirements of the Iceberg REST OpenAPI.
#![tactic(auto)]

mod requirement;

pub use requirement::{Requirement, first_unmet, snapshot_named};
