//! Lines of worked examples that ask for a value: what is told of it, and how that differs from what is wanted. Also
//! what all lines have in common: texts with escapes, and why a line can't be read.
#![tactic(auto)]

mod changes;
mod commits;
mod difference;
mod escapes;
mod tables;
mod unread;
mod values;
mod views;

pub use difference::Difference;
pub use escapes::{shown, unescaped, unescaped_text};
pub use unread::Unread;
pub use values::{Question, Value, value_difference};
