//! The form of a view's metadata as bytes.
#![tactic(auto)]

pub mod laws;
mod metadata;
mod version;
mod views;
mod whole;

pub use views::Views;
