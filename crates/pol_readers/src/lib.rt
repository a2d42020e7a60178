//! One way to read JSON bodies (RFC 8259): forms, which say what a value of JSON stands for or which of its fields is
//! the first bad one, and the combinators that forms are made of.
#![tactic(auto)]

mod body;
mod entries;
mod error;
mod form;
pub mod laws;
mod list;
mod minus_one;
mod number;
mod path;
mod plain;
mod word;

pub use body::read_body;
pub use entries::Entries;
pub use error::ReadError;
pub use form::{Form, field, fixed, holds, object, optional, under_key, under_place, whole};
pub use minus_one::OrMinusOne;
pub use number::Ranged;
pub use path::{Path, Step};
pub use word::{Word, one_of};
