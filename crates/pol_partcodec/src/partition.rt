//! The forms of partition specs.
ghost use Rattle.pol_meta.specs.Valid.{IsPartitionField, IsPartitionSpec};
ghost use Rattle.pol_partcodec.specs.Parts as parts;

use crate::Parts;
use crate::numbers::{ColumnId, FieldId, Id};
use pol_forms::{CodecRefused, Coder, Common, ListOf, Unread};
use pol_meta::{PartitionField, PartitionSpec, Transform};
use pol_types::{Listed, OutOfMemory, Text};
use std::alloc::Global;

#[tactic(auto, using(crate::proofs::HeldLemmas::partition_field_held), unfolding(crate::specs::Parts::partition_field))]
impl Coder<PartitionField> for Parts {
    ghost form = { parts.partition_field };

    ghost rule = { IsPartitionField };

    fn write(field: &PartitionField, written: &mut Vec<u8>) -> Result<(), OutOfMemory> {
        ColumnId::write(&field.source_id, written)?;
        FieldId::write(&field.field_id, written)?;
        Common::write(&field.name, written)?;
        Parts::write(&field.transform, written)
    }

    fn read(alloc: Global, unread: &mut Unread<'_>) -> Result<PartitionField, CodecRefused> {
        let source_id = ColumnId::read(alloc, unread)?;
        let field_id = FieldId::read(alloc, unread)?;
        let name: Text = Common::read(alloc, unread)?;
        let transform: Transform = Parts::read(alloc, unread)?;
        Ok(PartitionField {
            source_id,
            field_id,
            name,
            transform,
        })
    }
}

#[tactic(auto, using(crate::proofs::HeldLemmas::partition_spec_held), unfolding(crate::specs::Parts::partition_spec))]
impl Coder<PartitionSpec> for Parts {
    ghost form = { parts.partition_spec };

    ghost rule = { IsPartitionSpec };

    fn write(spec: &PartitionSpec, written: &mut Vec<u8>) -> Result<(), OutOfMemory> {
        Id::write(&spec.spec_id, written)?;
        ListOf::<Parts>::write(&spec.fields, written)
    }

    fn read(alloc: Global, unread: &mut Unread<'_>) -> Result<PartitionSpec, CodecRefused> {
        let spec_id = Id::read(alloc, unread)?;
        let fields: Listed<PartitionField> = ListOf::<Parts>::read(alloc, unread)?;
        Ok(PartitionSpec { spec_id, fields })
    }
}
