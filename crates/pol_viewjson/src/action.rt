ghost use Rattle.pol_viewjson.specs.Actions as spec;

use crate::keys;
use pol_commitjson::{TextAction, keys as commit_keys};
use pol_readers::{Form, ReadError, Word, one_of};
use pol_views::LeftOut;
use serde_json::Value;
use std::alloc::Global;

/// What an update changes of schemas and versions.
#[derive(Clone, Copy, PartialEq, Eq)]
pub(crate) enum VersionAction {
    AddSchema,
    AddViewVersion,
    SetCurrentViewVersion,
}

/// The action of an update of a view: what it changes, and how.
#[derive(Clone, Copy, PartialEq, Eq)]
pub(crate) enum ViewAction {
    Versions(VersionAction),
    Texts(TextAction),
    LeftOut(LeftOut),
}

impl Word for ViewAction {
    ghost words = { spec.action_words };

    fn of_word(word: &str) -> Option<Self> {
        match word {
            commit_keys::ASSIGN_UUID => Some(ViewAction::Texts(TextAction::AssignUuid)),
            commit_keys::UPGRADE_FORMAT_VERSION => {
                Some(ViewAction::Texts(TextAction::UpgradeFormatVersion))
            }
            commit_keys::ADD_SCHEMA => Some(ViewAction::Versions(VersionAction::AddSchema)),
            commit_keys::SET_LOCATION => Some(ViewAction::Texts(TextAction::SetLocation)),
            commit_keys::SET_PROPERTIES => Some(ViewAction::Texts(TextAction::SetProperties)),
            commit_keys::REMOVE_PROPERTIES => Some(ViewAction::Texts(TextAction::RemoveProperties)),
            keys::ADD_VIEW_VERSION => Some(ViewAction::Versions(VersionAction::AddViewVersion)),
            keys::SET_CURRENT_VIEW_VERSION => Some(ViewAction::Versions(
                VersionAction::SetCurrentViewVersion,
            )),
            commit_keys::SET_STATISTICS => Some(ViewAction::LeftOut(LeftOut::SetStatistics)),
            commit_keys::REMOVE_STATISTICS => Some(ViewAction::LeftOut(LeftOut::RemoveStatistics)),
            commit_keys::SET_PARTITION_STATISTICS => Some(ViewAction::LeftOut(
                LeftOut::SetPartitionStatistics,
            )),
            commit_keys::REMOVE_PARTITION_STATISTICS => Some(ViewAction::LeftOut(
                LeftOut::RemovePartitionStatistics,
            )),
            commit_keys::ADD_ENCRYPTION_KEY => Some(ViewAction::LeftOut(LeftOut::AddEncryptionKey)),
            commit_keys::REMOVE_ENCRYPTION_KEY => {
                Some(ViewAction::LeftOut(LeftOut::RemoveEncryptionKey))
            }
            _ => None,
        }
    }
}

#[tactic(auto, unfolding(crate::specs::Actions::action))]
impl Form for ViewAction {
    ghost shape = { spec.action };

    fn read(alloc: Global, value: &Value) -> Result<Self, ReadError> {
        one_of(alloc, value)
    }
}
