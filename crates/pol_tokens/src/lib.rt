//! Tokens: their texts, the sessions that were opened, and the storage tokens that were issued.
#![tactic(auto)]

mod chains;
mod held;
mod held_table;
pub mod laws;
mod session;
mod text;
mod token;
mod tokens;

pub use held::Held;
pub use session::{SESSION_LIFE, SessionRow};
pub use text::{TOKEN_LENGTH, token_text};
pub use token::{Act, TOKEN_LIFE, TokenRefused, TokenRow, Words, allows, issue};
pub use tokens::Tokens;
