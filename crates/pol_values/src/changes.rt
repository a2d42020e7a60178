//! What bytes of changes are read as.
ghost use Rattle.std.specs.Prelude.{◌≡◌, IfOk, string_bytes};
ghost use Rattle.hex.specs.Hex.{decode_of};
ghost use Rattle.pol_values.specs.Changes as spec;

use crate::unread::Unread;
use hex::FromHexError;
use pol_changetexts::{told_again, told_changes, told_object_change};
use std::alloc::{AllocError, Global};

/// The changes that bytes are the form of.
pub(crate) fn changes(alloc: Global, digits: &str) -> Result<String, Unread>
    ensures { IfOk result (λ told. spec.TellsChanges digits.now (string_bytes told)) }
{
    let bytes = bytes_of(alloc, digits)?;
    Ok(told_changes(alloc, bytes.as_slice())?)
}

/// What is written of the changes that bytes are the form of.
pub(crate) fn changes_again(alloc: Global, digits: &str) -> Result<String, Unread>
    ensures { IfOk result (λ told. spec.TellsChangesAgain digits.now (string_bytes told)) }
{
    let bytes = bytes_of(alloc, digits)?;
    Ok(told_again(alloc, bytes.as_slice())?)
}

/// The change of objects that bytes are the form of.
pub(crate) fn object_change(alloc: Global, digits: &str) -> Result<String, Unread>
    ensures { IfOk result (λ told. spec.TellsObjectChange digits.now (string_bytes told)) }
{
    let bytes = bytes_of(alloc, digits)?;
    Ok(told_object_change(alloc, bytes.as_slice())?)
}

/// The bytes of hexadecimal digits, between which spaces may stand.
fn bytes_of(alloc: Global, text: &str) -> Result<Vec<u8>, Unread>
    ensures { IfOk result (λ bytes. decode_of (spec.digits_of text.now) ≡ Ok bytes.items) }
{
    let digits = digits_of(alloc, text)?;
    match hex::decode(alloc, digits) {
        Ok(bytes) => Ok(bytes),
        Err(FromHexError::OutOfMemory) => Err(Unread::NoMemory),
        Err(_) => Err(Unread::Form),
    }
}

fn digits_of(alloc: Global, text: &str) -> Result<Vec<u8>, AllocError>
    ensures { IfOk result (λ digits. digits.items ≡ spec.digits_of text.now) }
{
    text.as_bytes()
        .iter()
        .copied()
        .filter(|byte| *byte != b' ')
        .collect(alloc)
}
