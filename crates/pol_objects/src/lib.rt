//! The object machine in memory: objects that are written once, what each action on them answers, and what it leaves.
#![tactic(auto)]

mod action;
mod content;
mod entries;
mod entry;
pub mod laws;
mod object_map;
mod object_state;
mod reply;
mod rule;

pub use action::ObjectAction;
pub use object_map::ObjectMap;
pub use object_state::ObjectState;
pub use reply::ObjectReply;
pub use rule::ObjectRule;
