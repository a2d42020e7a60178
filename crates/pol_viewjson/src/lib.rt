//! The JSON (RFC 8259) of views, as the Iceberg view spec and the Iceberg REST OpenAPI have it: bodies that create
//! views and commit to them, and whole metadata, which are printed too. What is printed is read again.
#![tactic(auto)]

mod action;
mod held;
pub mod keys;
pub mod laws;
mod metadata;
mod part;
mod print;
mod requests;
mod text;
mod updates;
mod version;
mod viewed;

pub use held::each_is_held;
pub use metadata::read_view;
pub use print::view_value;
pub use requests::{read_create_view, read_view_commit};
pub use text::view_text;
