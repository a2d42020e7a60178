ghost use Rattle.std.specs.Prelude.{◌≡◌, not, option_copied};
ghost use Rattle.std.specs.List.{find, position};
ghost use Rattle.std.specs.Str.{bytes_eq};
ghost use Rattle.pol_meta.specs.Valid.{snapshot_named};
ghost use Rattle.pol_requirements.specs.Requirements.{is_met};

use pol_meta::{NamedRef, TableMetadata};
use pol_types::Text;
use uuid::Uuid;

/// What a table has to be for a commit to change it (Iceberg REST OpenAPI, TableRequirement).
#[derive(Drop)]
pub enum Requirement {
    /// The table isn't there, so it fails on each that is.
    AssertCreate,
    AssertTableUuid {
        uuid: Uuid,
    },
    /// The reference names this snapshot, or isn't there where no snapshot is told.
    AssertRefSnapshotId {
        reference: Text,
        snapshot_id: Option<u64>,
    },
    AssertLastAssignedFieldId {
        last_assigned_field_id: u32,
    },
    AssertCurrentSchemaId {
        current_schema_id: u32,
    },
    AssertLastAssignedPartitionId {
        last_assigned_partition_id: u32,
    },
    AssertDefaultSpecId {
        default_spec_id: u32,
    },
    AssertDefaultSortOrderId {
        default_sort_order_id: u32,
    },
}

/// The place of the first requirement that doesn't hold of a table's metadata.
pub fn first_unmet(meta: &TableMetadata, requirements: &[Requirement]) -> Option<usize>
    ensures { result ≡ position (λ requirement. not (is_met meta.now requirement)) requirements.now }
{
    requirements
        .iter()
        .position(|requirement| !is_met(meta, requirement))
}

fn is_met(meta: &TableMetadata, requirement: &Requirement) -> bool
    ensures { result ≡ is_met meta.now requirement.now }
{
    match requirement {
        Requirement::AssertCreate => false,
        Requirement::AssertTableUuid { uuid } => meta.table_uuid == *uuid,
        Requirement::AssertRefSnapshotId {
            reference,
            snapshot_id,
        } => snapshot_named(reference.as_str(), meta.refs.as_slice()) == *snapshot_id,
        Requirement::AssertLastAssignedFieldId {
            last_assigned_field_id,
        } => meta.last_column_id == *last_assigned_field_id,
        Requirement::AssertCurrentSchemaId { current_schema_id } => {
            meta.current_schema_id == *current_schema_id
        }
        Requirement::AssertLastAssignedPartitionId {
            last_assigned_partition_id,
        } => meta.last_partition_id == *last_assigned_partition_id,
        Requirement::AssertDefaultSpecId { default_spec_id } => {
            meta.default_spec_id == *default_spec_id
        }
        Requirement::AssertDefaultSortOrderId {
            default_sort_order_id,
        } => meta.default_sort_order_id == *default_sort_order_id,
    }
}

/// The snapshot that a reference names.
pub fn snapshot_named(name: &str, refs: &[NamedRef]) -> Option<u64>
    ensures { result ≡ snapshot_named name.now refs.now }
{
    let named = ref_named(name, refs)?;
    Some(named.reference.snapshot_id)
}

/// The reference of a name.
fn ref_named<'a>(name: &str, refs: &'a [NamedRef]) -> Option<&'a NamedRef>
    ensures { option_copied result ≡ find (λ named. bytes_eq named.name name.now) refs.now }
{
    refs.iter().find(|named| named.name.as_str() == name)
}
