ghost use Rattle.serde_json.specs.View.{view};
ghost use Rattle.pol_readers.specs.Forms as spec;
ghost use Rattle.pol_readers.specs.Reading.{Gives, GivesBy, found};

use crate::error::ReadError;
use crate::form::{Form, object};
use serde_json::Value;
use std::alloc::Global;

/// Reads a body, which must be an object in JSON (RFC 8259) and UTF-8 that nests no deeper than 127 and has no number
/// too large for a float; else the body itself is bad, with the empty path. Of two equal keys the last counts, and keys
/// that the form names nowhere are ignored. An error is the first bad field, or want of memory, for which no clause
/// names a cause.
#[tactic(auto, unfolding(crate::specs::Forms::body))]
pub fn read_body<F: Form>(alloc: Global, bytes: &[u8]) -> Result<F, ReadError>
    ensures { Gives result (spec.body F.shape.read bytes.now) }
{
    let value = parsed(alloc, bytes)?;
    object(alloc, &value)?;
    F::read(alloc, &value)
}

/// The value that a body is.
fn parsed(alloc: Global, bytes: &[u8]) -> Result<Value, ReadError>
    ensures { GivesBy view result (found (spec.data_of bytes.now)) }
{
    match Value::from_slice(alloc, bytes) {
        Ok(value) => Ok(value),
        Err(error) => {
            if error.is_memory() {
                return Err(ReadError::OutOfMemory);
            }
            Err(ReadError::here(alloc))
        }
    }
}
