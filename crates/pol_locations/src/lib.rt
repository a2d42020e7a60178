//! Locations, as lists of segments, sets of locations of which no two overlap, and a counter of steps.
#![tactic(auto)]

pub mod laws;
mod location;
mod location_set;
mod refused;
mod steps;

pub use location::{Location, covers, overlaps};
pub use location_set::{LocationSet, Member, least_clash};
pub use refused::LocationRefused;
pub use steps::Steps;
