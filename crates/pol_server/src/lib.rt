//! Links (connections): what one tells, each message of it, and the whole of it, answered from the catalogue and the
//! objects.
#![tactic(auto)]

mod connection;
mod ends;
mod message;
mod objects;
mod serve;
mod served;
mod stores;
mod text;

pub use ends::Linked;
pub use pol_shared_objects::{Closed, ClosedObjects, Objects, Shared};
pub use serve::serve_connection;
pub use served::{Ending, Place, Served};
pub use stores::Stores;
