//! The program as a library: the words that the system gave, a run over its devices, and what it reports.
#![tactic(auto)]

mod exec;
mod files;
mod fresh;
mod given;
mod places;
mod program;
mod reason;
mod report;
mod setup;
mod stores;
mod told;

pub use given::words_given;
pub use places::{Places, places_given};
pub use pol_words::{Plan, Words, plan_of};
pub use program::{Devices, run, run_given};
pub use reason::Reason;
pub use report::{Report, ServedLink};
pub use told::end;
