//! Whether catalogues, namespaces, tables and views are sound.
#![tactic(auto)]

mod content;
mod keys;
mod known;
mod placed;

pub use content::{has_moved, is_sound_content};
pub use known::{knows_catalog, knows_namespace};
pub use placed::{has_parent, is_located, is_placed};
