//! Lists in order that stand in small blocks, so that one item more or less moves few of the others.
#![tactic(auto)]

mod blocks;
mod edits;
mod front;
mod items;
mod place;
mod search;

pub use blocks::Blocks;
pub use front::Front;
pub use items::Items;
pub use place::Place;

#[cfg(test)]
mod tests;
