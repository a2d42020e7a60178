//! Routes: what a message asks of the catalogue, and the command of such a plan.
#![tactic(auto)]

mod bearer;
mod delegation;
mod form;
pub mod laws;
mod management;
mod objects;
mod plans;
mod query;
mod requests;
mod routed;
mod routes;
mod segment;
mod tables;
mod target;
mod token_form;
mod verb;

pub use bearer::caller_of;
pub use plans::{Planned, REQUEST_CHARGE, command_of, plan};
pub use query::query_value;
pub use routes::Routes;
pub use segment::{name_segment, namespace_segment, plain_segment, segment_text};
pub use target::{path_of, query_of};
pub use verb::Verb;
