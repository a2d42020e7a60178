//! The declaration that a catalogue is set up by: its text in TOML is read, strictly, into what is to be there.
#![tactic(auto)]

mod declaration;
mod fault;
mod form;
pub mod keys;
pub mod laws;
mod tables;

pub use declaration::{Declaration, read_declaration};
pub use fault::{DeclarationRefused, Fault, Why};
pub use tables::{NewCatalog, NewCatalogRole, NewGrant, NewPrincipal, NewPrincipalRole};
