ghost use Rattle.pol_metajson.specs.Order as spec;

use crate::Body;
use crate::body::values;
use crate::ids::{ColumnId, Id};
use pol_meta::{Direction, NullOrder, SortField, Transform, UnboundOrder};
use pol_metakeys::keys;
use pol_readers::{Form, ReadError, Word, field, object, one_of, optional};
use pol_types::Listed;
use serde_json::Value;
use std::alloc::Global;

impl Word for Body<Direction> {
    ghost words = { spec.directions };

    fn of_word(word: &str) -> Option<Self> {
        match word {
            keys::ASC => Some(Body::new(Direction::Asc)),
            keys::DESC => Some(Body::new(Direction::Desc)),
            _ => None,
        }
    }
}

#[tactic(auto, unfolding(crate::specs::Order::direction))]
impl Form for Body<Direction> {
    ghost shape = { spec.direction };

    fn read(alloc: Global, value: &Value) -> Result<Self, ReadError> {
        one_of(alloc, value)
    }
}

impl Word for Body<NullOrder> {
    ghost words = { spec.null_orders };

    fn of_word(word: &str) -> Option<Self> {
        match word {
            keys::NULLS_FIRST => Some(Body::new(NullOrder::NullsFirst)),
            keys::NULLS_LAST => Some(Body::new(NullOrder::NullsLast)),
            _ => None,
        }
    }
}

#[tactic(auto, unfolding(crate::specs::Order::null_order))]
impl Form for Body<NullOrder> {
    ghost shape = { spec.null_order };

    fn read(alloc: Global, value: &Value) -> Result<Self, ReadError> {
        one_of(alloc, value)
    }
}

#[tactic(auto, unfolding(crate::specs::Order::sort_field))]
impl Form for Body<SortField> {
    ghost shape = { spec.sort_field };

    fn read(alloc: Global, value: &Value) -> Result<Self, ReadError> {
        object(alloc, value)?;
        let transform: Body<Transform> = field(alloc, value, keys::TRANSFORM)?;
        let source: ColumnId = field(alloc, value, keys::SOURCE_ID)?;
        let direction: Body<Direction> = field(alloc, value, keys::DIRECTION)?;
        let null_order: Body<NullOrder> = field(alloc, value, keys::NULL_ORDER)?;
        Ok(Body::new(SortField {
            transform: transform.into_value(),
            source_id: source.get() as u32,
            direction: direction.into_value(),
            null_order: null_order.into_value(),
        }))
    }
}

#[tactic(auto, unfolding(crate::specs::Order::unbound_order))]
impl Form for Body<UnboundOrder> {
    ghost shape = { spec.unbound_order };

    fn read(alloc: Global, value: &Value) -> Result<Self, ReadError> {
        object(alloc, value)?;
        let _given: Option<Id> = optional(alloc, value, keys::ORDER_ID)?;
        let fields: Listed<Body<SortField>> = field(alloc, value, keys::FIELDS)?;
        let fields = values(alloc, fields)?;
        Ok(Body::new(UnboundOrder { fields }))
    }
}
