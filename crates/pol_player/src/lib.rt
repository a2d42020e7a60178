//! Plays worked examples: each through a run of the program over devices in memory. It tells which differ, and how.
#![tactic(auto)]

mod disks;
mod playing;
mod telling;

pub use telling::Played;
