//! The form of a transform.
ghost use Rattle.pol_meta.specs.Valid.{IsTransform};
ghost use Rattle.pol_partcodec.specs.Parts as parts;

use crate::Parts;
use crate::numbers::Size;
use pol_forms::{CodecRefused, Coder, Unread, write_variant};
use pol_meta::Transform;
use pol_types::OutOfMemory;
use std::alloc::Global;

/// Its place, and the number of buckets or the width.
#[tactic(auto, using(crate::proofs::HeldLemmas::size_held), unfolding(crate::specs::Parts::transform))]
impl Coder<Transform> for Parts {
    ghost form = { parts.transform };

    ghost rule = { IsTransform };

    fn write(value: &Transform, written: &mut Vec<u8>) -> Result<(), OutOfMemory> {
        match value {
            Transform::Identity => Ok(written.push(0)?),
            Transform::Void => Ok(written.push(1)?),
            Transform::Year => Ok(written.push(2)?),
            Transform::Month => Ok(written.push(3)?),
            Transform::Day => Ok(written.push(4)?),
            Transform::Hour => Ok(written.push(5)?),
            Transform::Bucket(buckets) => write_variant::<u32, Size>(6, buckets, written),
            Transform::Truncate(width) => write_variant::<u32, Size>(7, width, written),
        }
    }

    fn read(alloc: Global, unread: &mut Unread<'_>) -> Result<Transform, CodecRefused> {
        match unread.byte()? {
            0 => Ok(Transform::Identity),
            1 => Ok(Transform::Void),
            2 => Ok(Transform::Year),
            3 => Ok(Transform::Month),
            4 => Ok(Transform::Day),
            5 => Ok(Transform::Hour),
            6 => Ok(Transform::Bucket(Size::read(alloc, unread)?)),
            7 => Ok(Transform::Truncate(Size::read(alloc, unread)?)),
            _ => Err(CodecRefused::NoForm),
        }
    }
}
