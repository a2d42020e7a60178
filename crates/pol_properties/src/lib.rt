//! Properties: maps from texts to texts, which catalogues, namespaces and tables have.
#![tactic(auto)]

pub mod laws;
mod properties;
mod property;

pub use properties::Properties;
pub use property::Property;
