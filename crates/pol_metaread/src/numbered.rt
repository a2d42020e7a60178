//! Schemas, partition specs and sort orders that have their ids.
ghost use Rattle.std.specs.Prelude.{◌≡◌};
ghost use Rattle.pol_meta.specs.Creation.{bound};
ghost use Rattle.pol_metaread.specs.Numbered as spec;

use crate::stored::{Stored, parts};
use pol_meta::{PartitionField, PartitionSpec, Schema, SortField, SortOrder, UnboundField};
use pol_metajson::{Body, FieldId, Id, values};
use pol_metakeys::keys;
use pol_readers::{Form, ReadError, field, object};
use pol_types::Listed;
use serde_json::Value;
use std::alloc::Global;

#[tactic(auto, unfolding(crate::specs::Numbered::numbered_schema))]
impl Form for Stored<Schema> {
    ghost shape = { spec.numbered_schema };

    fn read(alloc: Global, value: &Value) -> Result<Self, ReadError> {
        let read: Body<Schema> = Body::read(alloc, value)?;
        let id: Id = field(alloc, value, keys::SCHEMA_ID)?;
        let schema = read.into_value();
        Ok(Stored::new(Schema {
            schema_id: id.get() as u32,
            identifier_field_ids: schema.identifier_field_ids,
            fields: schema.fields,
        }))
    }
}

#[tactic(auto, unfolding(crate::specs::Numbered::partition_field))]
impl Form for Stored<PartitionField> {
    ghost shape = { spec.partition_field };

    fn read(alloc: Global, value: &Value) -> Result<Self, ReadError> {
        let read: Body<UnboundField> = Body::read(alloc, value)?;
        let id: FieldId = field(alloc, value, keys::FIELD_ID)?;
        Ok(Stored::new(with_id(read.into_value(), id.get() as u32)))
    }
}

fn with_id(field: UnboundField, id: u32) -> PartitionField
    ensures { result ≡ bound id field }
{
    PartitionField {
        source_id: field.source_id,
        field_id: id,
        name: field.name,
        transform: field.transform,
    }
}

#[tactic(auto, unfolding(crate::specs::Numbered::partition_spec))]
impl Form for Stored<PartitionSpec> {
    ghost shape = { spec.partition_spec };

    fn read(alloc: Global, value: &Value) -> Result<Self, ReadError> {
        object(alloc, value)?;
        let id: Id = field(alloc, value, keys::SPEC_ID)?;
        let fields: Listed<Stored<PartitionField>> = field(alloc, value, keys::FIELDS)?;
        let fields = parts(alloc, fields)?;
        Ok(Stored::new(PartitionSpec {
            spec_id: id.get() as u32,
            fields,
        }))
    }
}

#[tactic(auto, unfolding(crate::specs::Numbered::sort_order))]
impl Form for Stored<SortOrder> {
    ghost shape = { spec.sort_order };

    fn read(alloc: Global, value: &Value) -> Result<Self, ReadError> {
        object(alloc, value)?;
        let id: Id = field(alloc, value, keys::ORDER_ID)?;
        let fields: Listed<Body<SortField>> = field(alloc, value, keys::FIELDS)?;
        let fields = values(alloc, fields)?;
        Ok(Stored::new(SortOrder {
            order_id: id.get() as u32,
            fields,
        }))
    }
}
