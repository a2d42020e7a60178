//! Why a line can't be read.
use pol_types::OutOfMemory;
use std::alloc::{AllocError, AllocFailed};
use std::fmt;

/// Why a line can't be read.
#[derive(Clone, Copy, PartialEq, Eq)]
pub enum Unread {
    /// It is no line of an example.
    Form,
    /// It may not stand there.
    Place,
    /// It has no number where one stands.
    Number,
    /// It has an escape that stands for nothing.
    Escape,
    /// It names an opening, or one who sends, whom no line above names.
    Unknown,
    /// The answer above it gives no token.
    NoToken,
    /// Its bytes are no text.
    NoText,
    /// Memory was wanting.
    NoMemory,
}

impl fmt::Display for Unread {
    fn fmt<W: fmt::Write>(&self, f: &mut fmt::Formatter<W>) -> fmt::Result {
        f.write_str(match self {
            Unread::Form => "this is no line of an example",
            Unread::Place => "this line may not stand here",
            Unread::Number => "a number is wanted here",
            Unread::Escape => "an escape stands for nothing",
            Unread::Unknown => "no line above gives this name",
            Unread::NoToken => "the answer gives no token",
            Unread::NoText => "the bytes are no text",
            Unread::NoMemory => "memory is wanting",
        })
    }
}

impl From<AllocError> for Unread {
    fn from(_error: AllocError) -> Self {
        Unread::NoMemory
    }
}

impl<T: Drop> From<AllocFailed<T>> for Unread {
    fn from(_error: AllocFailed<T>) -> Self {
        Unread::NoMemory
    }
}

impl From<OutOfMemory> for Unread {
    fn from(_error: OutOfMemory) -> Self {
        Unread::NoMemory
    }
}
