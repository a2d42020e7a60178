ghost use Rattle.pol_commitjson.specs.Actions as spec;

use crate::keys;
use pol_readers::{Form, ReadError, Word, one_of};
use pol_updates::LeftOut;
use serde_json::Value;
use std::alloc::Global;

#[derive(Clone, Copy, PartialEq, Eq)]
pub(crate) enum SchemaAction {
    Add,
    SetCurrent,
    Remove,
}

#[derive(Clone, Copy, PartialEq, Eq)]
pub(crate) enum SpecAction {
    Add,
    SetDefault,
    Remove,
}

#[derive(Clone, Copy, PartialEq, Eq)]
pub(crate) enum OrderAction {
    Add,
    SetDefault,
}

#[derive(Clone, Copy, PartialEq, Eq)]
pub(crate) enum SnapshotAction {
    Add,
    SetRef,
    Remove,
    RemoveRef,
}

/// What an update changes that is no list of members.
#[derive(Clone, Copy, PartialEq, Eq)]
pub enum TextAction {
    AssignUuid,
    UpgradeFormatVersion,
    SetLocation,
    SetProperties,
    RemoveProperties,
}

/// The action of an update: what it changes, and how.
#[derive(Clone, Copy, PartialEq, Eq)]
pub(crate) enum Action {
    Schemas(SchemaAction),
    Specs(SpecAction),
    Orders(OrderAction),
    Snapshots(SnapshotAction),
    Texts(TextAction),
    LeftOut(LeftOut),
}

impl Word for Action {
    ghost words = { spec.action_words };

    fn of_word(word: &str) -> Option<Self> {
        match word {
            keys::ASSIGN_UUID => Some(Action::Texts(TextAction::AssignUuid)),
            keys::UPGRADE_FORMAT_VERSION => Some(Action::Texts(TextAction::UpgradeFormatVersion)),
            keys::ADD_SCHEMA => Some(Action::Schemas(SchemaAction::Add)),
            keys::SET_CURRENT_SCHEMA => Some(Action::Schemas(SchemaAction::SetCurrent)),
            keys::ADD_SPEC => Some(Action::Specs(SpecAction::Add)),
            keys::SET_DEFAULT_SPEC => Some(Action::Specs(SpecAction::SetDefault)),
            keys::ADD_SORT_ORDER => Some(Action::Orders(OrderAction::Add)),
            keys::SET_DEFAULT_SORT_ORDER => Some(Action::Orders(OrderAction::SetDefault)),
            keys::ADD_SNAPSHOT => Some(Action::Snapshots(SnapshotAction::Add)),
            keys::SET_SNAPSHOT_REF => Some(Action::Snapshots(SnapshotAction::SetRef)),
            keys::REMOVE_SNAPSHOTS => Some(Action::Snapshots(SnapshotAction::Remove)),
            keys::REMOVE_SNAPSHOT_REF => Some(Action::Snapshots(SnapshotAction::RemoveRef)),
            keys::SET_LOCATION => Some(Action::Texts(TextAction::SetLocation)),
            keys::SET_PROPERTIES => Some(Action::Texts(TextAction::SetProperties)),
            keys::REMOVE_PROPERTIES => Some(Action::Texts(TextAction::RemoveProperties)),
            keys::REMOVE_PARTITION_SPECS => Some(Action::Specs(SpecAction::Remove)),
            keys::REMOVE_SCHEMAS => Some(Action::Schemas(SchemaAction::Remove)),
            keys::SET_STATISTICS => Some(Action::LeftOut(LeftOut::SetStatistics)),
            keys::REMOVE_STATISTICS => Some(Action::LeftOut(LeftOut::RemoveStatistics)),
            keys::SET_PARTITION_STATISTICS => Some(Action::LeftOut(
                LeftOut::SetPartitionStatistics,
            )),
            keys::REMOVE_PARTITION_STATISTICS => Some(Action::LeftOut(
                LeftOut::RemovePartitionStatistics,
            )),
            keys::ADD_ENCRYPTION_KEY => Some(Action::LeftOut(LeftOut::AddEncryptionKey)),
            keys::REMOVE_ENCRYPTION_KEY => Some(Action::LeftOut(LeftOut::RemoveEncryptionKey)),
            _ => None,
        }
    }
}

#[tactic(auto, unfolding(crate::specs::Actions::action))]
impl Form for Action {
    ghost shape = { spec.action };

    fn read(alloc: Global, value: &Value) -> Result<Self, ReadError> {
        one_of(alloc, value)
    }
}
