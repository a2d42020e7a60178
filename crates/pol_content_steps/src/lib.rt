//! Whether changes of namespaces and views, new catalogues, and drops, lead from a sound state to a sound one, at their
//! own cost.
#![tactic(auto)]

mod catalogs;
mod drops;
mod names;
mod namespaces;
mod properties;
mod taken;
mod views;

pub use catalogs::is_sound_catalog;
pub use drops::is_sound_drop;
pub use names::{is_name_free, may_take_name};
pub use properties::may_put_namespace;
pub use views::may_put_view;
