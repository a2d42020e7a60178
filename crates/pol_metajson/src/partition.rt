ghost use Rattle.std.specs.Prelude.{◌≡◌};
ghost use Rattle.pol_metajson.specs.Partition as spec;

use crate::Body;
use crate::body::values;
use crate::ids::{ColumnId, FieldId, Id};
use pol_meta::{Transform, UnboundField, UnboundSpec};
use pol_metakeys::keys;
use pol_readers::{Form, ReadError, field, object, optional};
use pol_types::{Listed, Text};
use serde_json::Value;
use std::alloc::Global;

#[tactic(auto, unfolding(crate::specs::Partition::unbound_field))]
impl Form for Body<UnboundField> {
    ghost shape = { spec.unbound_field };

    fn read(alloc: Global, value: &Value) -> Result<Self, ReadError> {
        object(alloc, value)?;
        let source: ColumnId = field(alloc, value, keys::SOURCE_ID)?;
        let given: Option<FieldId> = optional(alloc, value, keys::FIELD_ID)?;
        let name: Text = field(alloc, value, keys::NAME)?;
        let transform: Body<Transform> = field(alloc, value, keys::TRANSFORM)?;
        Ok(Body::new(UnboundField {
            source_id: source.get() as u32,
            field_id: given_id(given),
            name,
            transform: transform.into_value(),
        }))
    }
}

/// The id that is given, if one is.
fn given_id(given: Option<FieldId>) -> Option<u32>
    ensures { result ≡ given }
{
    match given {
        Some(id) => Some(id.get() as u32),
        None => None,
    }
}

#[tactic(auto, unfolding(crate::specs::Partition::unbound_spec))]
impl Form for Body<UnboundSpec> {
    ghost shape = { spec.unbound_spec };

    fn read(alloc: Global, value: &Value) -> Result<Self, ReadError> {
        object(alloc, value)?;
        let _given: Option<Id> = optional(alloc, value, keys::SPEC_ID)?;
        let fields: Listed<Body<UnboundField>> = field(alloc, value, keys::FIELDS)?;
        let fields = values(alloc, fields)?;
        Ok(Body::new(UnboundSpec { fields }))
    }
}
