//! The metadata of views, as the Iceberg view spec has it (version 1): their versions, how the metadata of a new view
//! is made, what a commit requires of it, and how a commit changes it (Iceberg REST OpenAPI).
#![tactic(auto)]

mod commit;
mod create;
mod draft;
pub mod laws;
mod left;
mod log;
mod metadata;
mod refused;
mod request;
mod requirement;
mod schema_updates;
mod text_updates;
mod update;
mod version;
mod version_updates;
mod weight;

pub use commit::apply_view;
pub use draft::ViewDraft;
pub use log::VersionLogEntry;
pub use metadata::ViewMetadata;
pub use pol_drafts::MemberId;
pub use pol_updates::LeftOut;
pub use refused::ApplyViewRefused;
pub use request::{CreateView, ViewCommit};
pub use requirement::{ViewRequirement, first_unmet_view};
pub use update::ViewUpdate;
pub use version::{Representation, UnboundVersion, ViewVersion};
