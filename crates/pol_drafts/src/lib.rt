//! A table's metadata amid a list of updates, and the updates of its schemas, partition specs and sort orders (Iceberg
//! REST OpenAPI, TableUpdate): how a member is added, named and removed.
#![tactic(auto)]

mod draft;
mod ids;
mod lists;
mod member;
mod order_updates;
mod partition_fields;
mod partition_updates;
mod schema_updates;
mod stop;

pub use draft::Draft;
pub use ids::next_after;
pub use lists::{copied, push, taken};
pub use member::MemberId;
pub use order_updates::{add_order, set_default_order};
pub use partition_updates::{add_spec, remove_specs, set_default_spec};
pub use schema_updates::{
    add_schema, chosen_schema, next_schema_id, numbered_schema, remove_schemas, same_schema_id,
    set_current_schema,
};
pub use stop::Stop;
