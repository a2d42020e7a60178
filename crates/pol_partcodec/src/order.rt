//! The forms of sort orders.
ghost use Rattle.std.specs.Prelude.{⊤};
ghost use Rattle.pol_meta.specs.Valid.{IsSortField, IsSortOrder};
ghost use Rattle.pol_partcodec.specs.Parts as parts;

use crate::Parts;
use crate::numbers::{ColumnId, Id};
use pol_forms::{CodecRefused, Coder, ListOf, Unread};
use pol_meta::{Direction, NullOrder, SortField, SortOrder, Transform};
use pol_types::{Listed, OutOfMemory};
use std::alloc::Global;

#[tactic(auto, unfolding(crate::specs::Parts::direction))]
impl Coder<Direction> for Parts {
    ghost form = { parts.direction };

    ghost rule = { λ direction. ⊤ };

    fn write(value: &Direction, written: &mut Vec<u8>) -> Result<(), OutOfMemory> {
        match value {
            Direction::Asc => Ok(written.push(0)?),
            Direction::Desc => Ok(written.push(1)?),
        }
    }

    fn read(_alloc: Global, unread: &mut Unread<'_>) -> Result<Direction, CodecRefused> {
        match unread.byte()? {
            0 => Ok(Direction::Asc),
            1 => Ok(Direction::Desc),
            _ => Err(CodecRefused::NoForm),
        }
    }
}

#[tactic(auto, unfolding(crate::specs::Parts::null_order))]
impl Coder<NullOrder> for Parts {
    ghost form = { parts.null_order };

    ghost rule = { λ order. ⊤ };

    fn write(value: &NullOrder, written: &mut Vec<u8>) -> Result<(), OutOfMemory> {
        match value {
            NullOrder::NullsFirst => Ok(written.push(0)?),
            NullOrder::NullsLast => Ok(written.push(1)?),
        }
    }

    fn read(_alloc: Global, unread: &mut Unread<'_>) -> Result<NullOrder, CodecRefused> {
        match unread.byte()? {
            0 => Ok(NullOrder::NullsFirst),
            1 => Ok(NullOrder::NullsLast),
            _ => Err(CodecRefused::NoForm),
        }
    }
}

#[tactic(auto, using(crate::proofs::HeldLemmas::sort_field_held), unfolding(crate::specs::Parts::sort_field))]
impl Coder<SortField> for Parts {
    ghost form = { parts.sort_field };

    ghost rule = { IsSortField };

    fn write(field: &SortField, written: &mut Vec<u8>) -> Result<(), OutOfMemory> {
        Parts::write(&field.transform, written)?;
        ColumnId::write(&field.source_id, written)?;
        Parts::write(&field.direction, written)?;
        Parts::write(&field.null_order, written)
    }

    fn read(alloc: Global, unread: &mut Unread<'_>) -> Result<SortField, CodecRefused> {
        let transform: Transform = Parts::read(alloc, unread)?;
        let source_id = ColumnId::read(alloc, unread)?;
        let direction: Direction = Parts::read(alloc, unread)?;
        let null_order: NullOrder = Parts::read(alloc, unread)?;
        Ok(SortField {
            transform,
            source_id,
            direction,
            null_order,
        })
    }
}

#[tactic(auto, using(crate::proofs::HeldLemmas::sort_order_held), unfolding(crate::specs::Parts::sort_order))]
impl Coder<SortOrder> for Parts {
    ghost form = { parts.sort_order };

    ghost rule = { IsSortOrder };

    fn write(order: &SortOrder, written: &mut Vec<u8>) -> Result<(), OutOfMemory> {
        Id::write(&order.order_id, written)?;
        ListOf::<Parts>::write(&order.fields, written)
    }

    fn read(alloc: Global, unread: &mut Unread<'_>) -> Result<SortOrder, CodecRefused> {
        let order_id = Id::read(alloc, unread)?;
        let fields: Listed<SortField> = ListOf::<Parts>::read(alloc, unread)?;
        Ok(SortOrder { order_id, fields })
    }
}
