ghost use Rattle.pol_readers.specs.Reading.{Gives};
ghost use Rattle.serde_json.specs.View.{view};
ghost use Rattle.pol_commitjson.specs.Requirements as spec;

use crate::asked::Asked;
use crate::keys;
use crate::members::long_of;
use pol_metajson::{ColumnId, Id};
use pol_metakeys::keys as meta_keys;
use pol_metaread::{Long, Stored};
use pol_readers::{Form, ReadError, Word, field, object, one_of, optional};
use pol_requirements::Requirement;
use pol_types::Text;
use serde_json::Value;
use std::alloc::Global;
use uuid::Uuid;

/// The type of a requirement.
#[derive(Clone, Copy, PartialEq, Eq)]
pub(crate) enum RequirementType {
    AssertCreate,
    AssertTableUuid,
    AssertRefSnapshotId,
    AssertLastAssignedFieldId,
    AssertCurrentSchemaId,
    AssertLastAssignedPartitionId,
    AssertDefaultSpecId,
    AssertDefaultSortOrderId,
}

impl Word for RequirementType {
    ghost words = { spec.type_words };

    fn of_word(word: &str) -> Option<Self> {
        match word {
            keys::ASSERT_CREATE => Some(RequirementType::AssertCreate),
            keys::ASSERT_TABLE_UUID => Some(RequirementType::AssertTableUuid),
            keys::ASSERT_REF_SNAPSHOT_ID => Some(RequirementType::AssertRefSnapshotId),
            keys::ASSERT_LAST_ASSIGNED_FIELD_ID => Some(RequirementType::AssertLastAssignedFieldId),
            keys::ASSERT_CURRENT_SCHEMA_ID => Some(RequirementType::AssertCurrentSchemaId),
            keys::ASSERT_LAST_ASSIGNED_PARTITION_ID => {
                Some(RequirementType::AssertLastAssignedPartitionId)
            }
            keys::ASSERT_DEFAULT_SPEC_ID => Some(RequirementType::AssertDefaultSpecId),
            keys::ASSERT_DEFAULT_SORT_ORDER_ID => Some(RequirementType::AssertDefaultSortOrderId),
            _ => None,
        }
    }
}

#[tactic(auto, unfolding(crate::specs::Requirements::requirement_type))]
impl Form for RequirementType {
    ghost shape = { spec.requirement_type };

    fn read(alloc: Global, value: &Value) -> Result<Self, ReadError> {
        one_of(alloc, value)
    }
}

#[tactic(auto, unfolding(crate::specs::Requirements::requirement))]
impl Form for Asked<Requirement> {
    ghost shape = { spec.requirement };

    fn read(alloc: Global, value: &Value) -> Result<Self, ReadError> {
        object(alloc, value)?;
        let kind: RequirementType = field(alloc, value, meta_keys::TYPE)?;
        let requirement = requirement_of(alloc, value, kind)?;
        Ok(Asked::new(requirement))
    }
}

/// What a requirement of a type asks.
#[tactic(auto, unfolding(crate::specs::Requirements::requirement_of))]
fn requirement_of(
    alloc: Global,
    value: &Value,
    kind: RequirementType,
) -> Result<Requirement, ReadError>
    ensures { Gives result ((spec.requirement_of kind).read (view value.now)) }
{
    match kind {
        RequirementType::AssertCreate => Ok(Requirement::AssertCreate),
        RequirementType::AssertTableUuid => {
            let uuid: Stored<Uuid> = field(alloc, value, keys::UUID)?;
            Ok(Requirement::AssertTableUuid {
                uuid: uuid.into_value(),
            })
        }
        RequirementType::AssertRefSnapshotId => {
            let reference: Text = field(alloc, value, keys::REF)?;
            let snapshot: Option<Long> = optional(alloc, value, meta_keys::SNAPSHOT_ID)?;
            Ok(Requirement::AssertRefSnapshotId {
                reference,
                snapshot_id: long_of(snapshot),
            })
        }
        RequirementType::AssertLastAssignedFieldId => {
            let id: ColumnId = field(alloc, value, keys::LAST_ASSIGNED_FIELD_ID)?;
            Ok(Requirement::AssertLastAssignedFieldId {
                last_assigned_field_id: id.get() as u32,
            })
        }
        RequirementType::AssertCurrentSchemaId => {
            let id: Id = field(alloc, value, meta_keys::CURRENT_SCHEMA_ID)?;
            Ok(Requirement::AssertCurrentSchemaId {
                current_schema_id: id.get() as u32,
            })
        }
        RequirementType::AssertLastAssignedPartitionId => {
            let id: Id = field(alloc, value, keys::LAST_ASSIGNED_PARTITION_ID)?;
            Ok(Requirement::AssertLastAssignedPartitionId {
                last_assigned_partition_id: id.get() as u32,
            })
        }
        RequirementType::AssertDefaultSpecId => {
            let id: Id = field(alloc, value, meta_keys::DEFAULT_SPEC_ID)?;
            Ok(Requirement::AssertDefaultSpecId {
                default_spec_id: id.get() as u32,
            })
        }
        RequirementType::AssertDefaultSortOrderId => {
            let id: Id = field(alloc, value, meta_keys::DEFAULT_SORT_ORDER_ID)?;
            Ok(Requirement::AssertDefaultSortOrderId {
                default_sort_order_id: id.get() as u32,
            })
        }
    }
}
