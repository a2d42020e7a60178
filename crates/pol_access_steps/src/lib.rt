//! Whether changes of principals, roles, members, joins and grants lead from a sound state to a sound one, at their own
//! cost.
#![tactic(auto)]

mod counters;
mod facts;
mod holders;

pub use counters::{Counters, counters_of, is_new_id, is_new_serial, may_follow};
pub use facts::is_sound_fact;
pub use holders::{is_sound_holder, may_have_catalog_role};
