//! The metadata of tables, as the Iceberg table spec has it: schemas, partition specs, sort orders, snapshots and
//! references to them, and how the metadata of a new table is made.
#![tactic(auto)]

mod column;
mod create;
mod file_names;
mod ids;
mod log;
mod metadata;
mod partition;
mod reference;
mod schema;
mod snapshot;
mod sort;
mod transform;
pub mod weight;
mod why;

pub use column::{Column, Kind, Part};
pub use create::{first_schema, list_of_one};
pub use file_names::metadata_file;
pub use ids::Ids;
pub use log::{MetadataLogEntry, SnapshotLogEntry};
pub use metadata::TableMetadata;
pub use partition::{PartitionField, PartitionSpec, UnboundField, UnboundSpec};
pub use reference::{NamedRef, RefKind, SnapshotRef};
pub use schema::Schema;
pub use snapshot::Snapshot;
pub use sort::{Direction, NullOrder, SortField, SortOrder, UnboundOrder};
pub use transform::Transform;
pub use why::{CreateRefused, Why};
