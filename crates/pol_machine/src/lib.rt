//! The catalogue machine: what a command is answered in a state, and the changes that it makes there.
#![tactic(auto)]

mod decision;
pub mod laws;

pub use decision::{Decision, decide};
pub use pol_access::{
    CatalogRoleRow, GrantRow, JoinRow, MemberRow, PrincipalRoleRow, PrincipalRow, Privilege,
    RoleIds, Scope, Securable,
};
pub use pol_commands::{
    Action, Answer, Caller, Command, Grant, GrantedOn, OptionName, Quantity, Refusal, Reply,
    SecurableName, Words4,
};
pub use pol_content::{CatalogRow, Change, NamespaceRow};
pub use pol_state::State;
pub use pol_tokens::{Act, SessionRow, TokenRow};
