//! What is told of changes of objects.
ghost use Rattle.pol_changetexts.specs.Change as spec;

use crate::told::Told;
use pol_codec::ObjectChange;
use pol_types::OutOfMemory;
use std::alloc::Global;

/// The name of its variant, the path, and the bytes of an object that is put in hexadecimal digits.
impl Told for ObjectChange {
    ghost text = { spec.object_change_text };

    fn told(&self, alloc: Global) -> Result<String, OutOfMemory> {
        match self {
            ObjectChange::Put { path, bytes } => {
                let digits = hex::encode(alloc, bytes.as_slice())?;
                Ok(format!(in alloc; "Put {path} {digits}")?)
            }
            ObjectChange::Delete { path } => Ok(format!(in alloc; "Delete {path}")?),
        }
    }
}
