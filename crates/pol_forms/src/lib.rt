//! Forms of values as bytes: what forms are made of, and the forms of numbers, texts, lists, maps, names and locations.
#![tactic(auto)]

mod coder;
pub mod laws;
mod lists;
mod names;
mod refused;
mod unread;
mod values;

pub use coder::{Coder, read_whole, write_whole};
pub use lists::{ListOf, Optional, read_list, write_list, write_variant};
pub use refused::CodecRefused;
pub use unread::Unread;
pub use values::Common;
