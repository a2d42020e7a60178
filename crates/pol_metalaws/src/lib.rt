//! Laws of the JSON of tables' metadata: what is printed is read again.
#![tactic(auto)]

mod held;
pub mod laws;
mod text;

pub use held::{each_is_held, has_sixteen};
pub use text::table_text;
