//! Snapshots, references to them, and both logs.
ghost use Rattle.std.specs.Prelude.{◌≡◌, IfOk, map};
ghost use Rattle.pol_metaread.specs.Snapshot as spec;

use crate::ids::{Kept, Long};
use crate::stored::Stored;
use pol_meta::{MetadataLogEntry, NamedRef, RefKind, Snapshot, SnapshotLogEntry, SnapshotRef};
use pol_metajson::{Body, Id};
use pol_metakeys::keys;
use pol_properties::Properties;
use pol_readers::{Entries, Form, ReadError, Word, field, object, one_of, optional};
use pol_types::{Listed, OutOfMemory, Text};
use serde_json::Value;
use std::alloc::Global;

/// How a snapshot was made.
#[derive(Clone, Copy)]
pub(crate) enum Operation {
    Append,
    Replace,
    Overwrite,
    Delete,
}

impl Word for Operation {
    ghost words = { spec.operations };

    fn of_word(word: &str) -> Option<Self> {
        match word {
            keys::APPEND => Some(Operation::Append),
            keys::REPLACE => Some(Operation::Replace),
            keys::OVERWRITE => Some(Operation::Overwrite),
            keys::DELETE => Some(Operation::Delete),
            _ => None,
        }
    }
}

#[tactic(auto, unfolding(crate::specs::Snapshot::operation))]
impl Form for Operation {
    ghost shape = { spec.operation };

    fn read(alloc: Global, value: &Value) -> Result<Self, ReadError> {
        one_of(alloc, value)
    }
}

/// What the texts about a snapshot tell of how it was made.
#[derive(Drop)]
pub(crate) struct Made {
    pub operation: Operation,
}

#[tactic(auto, unfolding(crate::specs::Snapshot::made))]
impl Form for Made {
    ghost shape = { spec.made };

    fn read(alloc: Global, value: &Value) -> Result<Self, ReadError> {
        let operation: Operation = field(alloc, value, keys::OPERATION)?;
        Ok(Made { operation })
    }
}

#[tactic(auto, unfolding(crate::specs::Snapshot::snapshot))]
impl Form for Stored<Snapshot> {
    ghost shape = { spec.snapshot };

    fn read(alloc: Global, value: &Value) -> Result<Self, ReadError> {
        object(alloc, value)?;
        let id: Long = field(alloc, value, keys::SNAPSHOT_ID)?;
        let parent: Option<Long> = optional(alloc, value, keys::PARENT_SNAPSHOT_ID)?;
        let sequence: Long = field(alloc, value, keys::SEQUENCE_NUMBER)?;
        let moment: Long = field(alloc, value, keys::TIMESTAMP_MS)?;
        let manifest_list: Text = field(alloc, value, keys::MANIFEST_LIST)?;
        let summary: Body<Properties> = field(alloc, value, keys::SUMMARY)?;
        let _made: Made = field(alloc, value, keys::SUMMARY)?;
        let schema: Option<Id> = optional(alloc, value, keys::SCHEMA_ID)?;
        Ok(Stored::new(Snapshot {
            snapshot_id: id.get(),
            parent_snapshot_id: long_of(parent),
            sequence_number: sequence.get(),
            timestamp_ms: moment.get(),
            manifest_list,
            summary: summary.into_value(),
            schema_id: id_of(schema),
        }))
    }
}

/// The number that is given, if one is.
pub(crate) fn long_of(given: Option<Long>) -> Option<u64>
    ensures { result ≡ given }
{
    match given {
        Some(number) => Some(number.get()),
        None => None,
    }
}

fn kept_of(given: Option<Kept>) -> Option<u64>
    ensures { result ≡ given }
{
    match given {
        Some(number) => Some(number.get()),
        None => None,
    }
}

fn id_of(given: Option<Id>) -> Option<u32>
    ensures { result ≡ given }
{
    match given {
        Some(id) => Some(id.get() as u32),
        None => None,
    }
}

impl Word for Stored<RefKind> {
    ghost words = { spec.ref_kinds };

    fn of_word(word: &str) -> Option<Self> {
        match word {
            keys::BRANCH => Some(Stored::new(RefKind::Branch)),
            keys::TAG => Some(Stored::new(RefKind::Tag)),
            _ => None,
        }
    }
}

#[tactic(auto, unfolding(crate::specs::Snapshot::ref_kind))]
impl Form for Stored<RefKind> {
    ghost shape = { spec.ref_kind };

    fn read(alloc: Global, value: &Value) -> Result<Self, ReadError> {
        one_of(alloc, value)
    }
}

#[tactic(auto, unfolding(crate::specs::Snapshot::reference))]
impl Form for Stored<SnapshotRef> {
    ghost shape = { spec.reference };

    fn read(alloc: Global, value: &Value) -> Result<Self, ReadError> {
        object(alloc, value)?;
        let kind: Stored<RefKind> = field(alloc, value, keys::TYPE)?;
        let snapshot: Long = field(alloc, value, keys::SNAPSHOT_ID)?;
        let age: Option<Kept> = optional(alloc, value, keys::MAX_REF_AGE_MS)?;
        let snapshot_age: Option<Kept> = optional(alloc, value, keys::MAX_SNAPSHOT_AGE_MS)?;
        let count: Option<Kept> = optional(alloc, value, keys::MIN_SNAPSHOTS_TO_KEEP)?;
        Ok(Stored::new(SnapshotRef {
            kind: kind.into_value(),
            snapshot_id: snapshot.get(),
            max_ref_age_ms: kept_of(age),
            max_snapshot_age_ms: kept_of(snapshot_age),
            min_snapshots_to_keep: kept_of(count),
        }))
    }
}

#[tactic(auto, unfolding(crate::specs::Snapshot::refs))]
impl Form for Stored<Listed<NamedRef>> {
    ghost shape = { spec.refs };

    fn read(alloc: Global, value: &Value) -> Result<Self, ReadError> {
        let entries: Entries<Stored<SnapshotRef>> = Entries::read(alloc, value)?;
        let refs = named_refs(alloc, entries)?;
        Ok(Stored::new(refs))
    }
}

/// The references that entries make.
fn named_refs(
    alloc: Global,
    entries: Entries<Stored<SnapshotRef>>,
) -> Result<Listed<NamedRef>, OutOfMemory>
    ensures { IfOk result (λ refs. refs ≡ map spec.named_of entries) }
{
    let entries: Vec<(Text, Stored<SnapshotRef>)> = entries.into();
    let mut refs = Vec::with_capacity(alloc, entries.len())?;
    for (name, reference) in entries {
        refs.push(NamedRef {
            name,
            reference: reference.into_value(),
        })?;
    }
    Ok(Listed::from(refs))
}

#[tactic(auto, unfolding(crate::specs::Snapshot::metadata_log_entry))]
impl Form for Stored<MetadataLogEntry> {
    ghost shape = { spec.metadata_log_entry };

    fn read(alloc: Global, value: &Value) -> Result<Self, ReadError> {
        object(alloc, value)?;
        let metadata_file: Text = field(alloc, value, keys::METADATA_FILE)?;
        let moment: Long = field(alloc, value, keys::TIMESTAMP_MS)?;
        Ok(Stored::new(MetadataLogEntry {
            metadata_file,
            timestamp_ms: moment.get(),
        }))
    }
}

#[tactic(auto, unfolding(crate::specs::Snapshot::snapshot_log_entry))]
impl Form for Stored<SnapshotLogEntry> {
    ghost shape = { spec.snapshot_log_entry };

    fn read(alloc: Global, value: &Value) -> Result<Self, ReadError> {
        object(alloc, value)?;
        let snapshot: Long = field(alloc, value, keys::SNAPSHOT_ID)?;
        let moment: Long = field(alloc, value, keys::TIMESTAMP_MS)?;
        Ok(Stored::new(SnapshotLogEntry {
            snapshot_id: snapshot.get(),
            timestamp_ms: moment.get(),
        }))
    }
}
