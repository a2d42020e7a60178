//! The bytes of a change of objects, which are the body of a record of the objects' journal.
ghost use Rattle.std.specs.Prelude.{IfErr, IfOk, ⊤};
ghost use Rattle.pol_codec.specs.Objects as objects;
ghost use Rattle.pol_forms.specs.Form.{IsFormOf};
ghost use Rattle.pol_forms.specs.Refused.{IsCodecRefusal};

use crate::Rows;
use pol_forms::{CodecRefused, Coder, Common, Unread, read_whole, write_variant, write_whole};
use pol_locations::Location;
use pol_types::{Bytes, OutOfMemory};
use std::alloc::Global;

/// A change of the objects: one is put, or deleted.
#[derive(Drop)]
pub enum ObjectChange {
    Put { path: Location, bytes: Bytes },
    Delete { path: Location },
}

/// 0, the path and the bytes of an object that is put, or 1 and the path of one that is deleted.
#[tactic(auto, unfolding(crate::specs::Objects::object_change))]
impl Coder<ObjectChange> for Rows {
    ghost form = { objects.object_change };

    ghost rule = { λ change. ⊤ };

    fn write(value: &ObjectChange, written: &mut Vec<u8>) -> Result<(), OutOfMemory> {
        match value {
            ObjectChange::Put { path, bytes } => {
                write_variant::<Location, Common>(0, path, written)?;
                Common::write(bytes, written)
            }
            ObjectChange::Delete { path } => write_variant::<Location, Common>(1, path, written),
        }
    }

    fn read(alloc: Global, unread: &mut Unread<'_>) -> Result<ObjectChange, CodecRefused> {
        match unread.byte()? {
            0 => {
                let path: Location = Common::read(alloc, unread)?;
                let bytes: Bytes = Common::read(alloc, unread)?;
                Ok(ObjectChange::Put { path, bytes })
            }
            1 => Ok(ObjectChange::Delete {
                path: Common::read(alloc, unread)?,
            }),
            _ => Err(CodecRefused::NoForm),
        }
    }
}

/// The form of this change.
pub fn write_object_change(alloc: Global, change: &ObjectChange) -> Result<Vec<u8>, OutOfMemory>
    ensures { IfOk result (λ bytes. IsFormOf objects.object_change change.now bytes.items) }
{
    write_whole::<ObjectChange, Rows>(alloc, change)
}

/// The change whose form the bytes are. It answers `NoForm` exactly where they are the form of no change.
pub fn read_object_change(alloc: Global, bytes: &[u8]) -> Result<ObjectChange, CodecRefused>
    ensures change { IfOk result (λ change. IsFormOf objects.object_change change bytes.now) }
    ensures refused { IfErr result (IsCodecRefusal objects.object_change bytes.now) }
{
    read_whole::<ObjectChange, Rows>(alloc, bytes)
}
