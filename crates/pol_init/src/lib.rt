//! What `init` does between reading and writing: a declaration is read and its commands are done in memory, then the
//! first record and the output are made, and then the journals.
#![tactic(auto)]

mod drawing;
mod journals;
mod output;
mod prepared;
mod reading;
mod record;
mod setup;

pub use journals::{NotMade, make_journals};
pub use output::output_of;
pub use prepared::{NotPrepared, Prepared, prepare};
pub use record::first_record;
pub use setup::{SetupRefused, set_up_state};
