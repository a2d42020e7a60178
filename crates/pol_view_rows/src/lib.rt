//! Rows of views: each is found by its id, and by its name in its namespace.
#![tactic(auto)]

mod row;
mod views;

pub use row::{ViewName, ViewRow};
pub use views::views_in;
