//! What bytes are read as.
ghost use Rattle.std.specs.Prelude.{IfOk, string_bytes};
ghost use Rattle.pol_changecodec.specs.Change.{changes};
ghost use Rattle.pol_codec.specs.Objects.{object_change};
ghost use Rattle.pol_changetexts.specs.Change.{changes_text, object_change_text};
ghost use Rattle.pol_changetexts.specs.Codec.{TellsAgain, TellsForm};

use crate::told::{Told, list};
use pol_changecodec::{read_changes, write_changes};
use pol_codec::read_object_change;
use pol_forms::CodecRefused;
use pol_types::OutOfMemory;
use std::alloc::Global;

/// What is told where bytes are the form of nothing.
const NO_FORM: &str = "no form";

/// The changes that bytes are the form of, or that there are none.
pub fn told_changes(alloc: Global, bytes: &[u8]) -> Result<String, OutOfMemory>
    ensures { IfOk result (λ told. TellsForm changes changes_text bytes.now (string_bytes told)) }
{
    match read_changes(alloc, bytes) {
        Ok(changes) => list(alloc, "; ", changes.as_slice()),
        Err(CodecRefused::NoForm) => Ok(String::from_str(alloc, NO_FORM)?),
        Err(CodecRefused::OutOfMemory) => Err(OutOfMemory),
    }
}

/// The hexadecimal digits of what is written of the changes that bytes are the form of, or that there are none.
pub fn told_again(alloc: Global, bytes: &[u8]) -> Result<String, OutOfMemory>
    ensures { IfOk result (λ told. TellsAgain changes bytes.now (string_bytes told)) }
{
    match read_changes(alloc, bytes) {
        Ok(changes) => {
            let written = write_changes(alloc, changes.as_slice())?;
            Ok(hex::encode(alloc, written.as_slice())?)
        }
        Err(CodecRefused::NoForm) => Ok(String::from_str(alloc, NO_FORM)?),
        Err(CodecRefused::OutOfMemory) => Err(OutOfMemory),
    }
}

/// The change of objects that bytes are the form of, or that there is none.
pub fn told_object_change(alloc: Global, bytes: &[u8]) -> Result<String, OutOfMemory>
    ensures { IfOk result (λ told. TellsForm object_change object_change_text bytes.now (string_bytes told)) }
{
    match read_object_change(alloc, bytes) {
        Ok(change) => change.told(alloc),
        Err(CodecRefused::NoForm) => Ok(String::from_str(alloc, NO_FORM)?),
        Err(CodecRefused::OutOfMemory) => Err(OutOfMemory),
    }
}
