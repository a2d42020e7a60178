//! The forms of texts and truth values.
ghost use Rattle.pol_readers.specs.Shape as shapes;

use crate::error::ReadError;
use crate::form::Form;
use pol_types::Text;
use serde_json::Value;
use std::alloc::Global;

/// A text (RFC 8259, section 7).
#[tactic(auto, unfolding(crate::specs::Forms::text))]
impl Form for Text {
    ghost shape = { shapes.text };

    fn read(alloc: Global, value: &Value) -> Result<Self, ReadError> {
        match value.as_str() {
            Some(text) => Ok(Text::from(String::from_str(alloc, text)?)),
            None => Err(ReadError::here(alloc)),
        }
    }
}

/// `true` or `false` (RFC 8259, section 3).
#[tactic(auto, unfolding(crate::specs::Forms::truth))]
impl Form for bool {
    ghost shape = { shapes.truth };

    fn read(alloc: Global, value: &Value) -> Result<Self, ReadError> {
        value.as_bool().ok_or_else(|| ReadError::here(alloc))
    }
}
