//! Commands and replies: what the catalogue machine is asked, and what it answers.
#![tactic(auto)]

mod command;
mod commit;
mod create_table;
mod create_view;
mod grants;
mod reply;
mod securables;
mod view_commit;

pub use command::{Action, Caller, Command, Words4};
pub use commit::Commit;
pub use create_table::CreateTable;
pub use create_view::CreateView;
pub use grants::{Grant, GrantedOn};
pub use reply::{Answer, OptionName, Quantity, Refusal, Reply};
pub use securables::SecurableName;
pub use view_commit::ViewCommit;
