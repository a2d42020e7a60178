//! How a commit changes a table's metadata: the updates of the Iceberg REST OpenAPI, and lists of them.
#![tactic(auto)]

mod change;
mod commit;
mod refused;
mod snapshot_updates;
mod text_updates;
mod update;

pub use change::{TableChange, TableCommit};
pub use commit::{apply, last_items, refused_at, settled};
pub use pol_drafts::MemberId;
pub use pol_locations::Steps;
pub use pol_requirements::{Requirement, first_unmet};
pub use refused::ApplyRefused;
pub use text_updates::{remove_all, set_all};
pub use update::{LeftOut, Update};
