ghost use Rattle.pol_readers.specs.Reading.{Gives};
ghost use Rattle.serde_json.specs.View.{view};
ghost use Rattle.pol_viewjson.specs.Updates as spec;

use crate::action::{VersionAction, ViewAction};
use crate::keys;
use crate::viewed::Viewed;
use pol_commitjson::{Asked, TextAction, keys as commit_keys};
use pol_meta::Schema;
use pol_metajson::{Body, Id};
use pol_metakeys::keys as meta_keys;
use pol_metaread::Stored;
use pol_properties::Properties;
use pol_readers::{Form, ReadError, field, object};
use pol_types::{Listed, Text};
use pol_views::{MemberId, UnboundVersion, ViewUpdate};
use serde_json::Value;
use std::alloc::Global;
use uuid::Uuid;

#[tactic(auto, unfolding(crate::specs::Updates::update))]
impl Form for Viewed<ViewUpdate> {
    ghost shape = { spec.update };

    fn read(alloc: Global, value: &Value) -> Result<Self, ReadError> {
        object(alloc, value)?;
        let action: ViewAction = field(alloc, value, commit_keys::ACTION)?;
        let update = update_of(alloc, value, action)?;
        Ok(Viewed::new(update))
    }
}

/// The update of an action.
#[tactic(auto, unfolding(crate::specs::Updates::update_of))]
fn update_of(alloc: Global, value: &Value, action: ViewAction) -> Result<ViewUpdate, ReadError>
    ensures { Gives result ((spec.update_of action).read (view value.now)) }
{
    match action {
        ViewAction::Versions(action) => version_update(alloc, value, action),
        ViewAction::Texts(action) => text_update(alloc, value, action),
        ViewAction::LeftOut(action) => Ok(ViewUpdate::Unsupported { action }),
    }
}

#[tactic(auto, unfolding(crate::specs::Updates::version_update))]
fn version_update(
    alloc: Global,
    value: &Value,
    action: VersionAction,
) -> Result<ViewUpdate, ReadError>
    ensures { Gives result ((spec.version_update action).read (view value.now)) }
{
    match action {
        VersionAction::AddSchema => {
            let schema: Body<Schema> = field(alloc, value, meta_keys::SCHEMA)?;
            Ok(ViewUpdate::AddSchema {
                schema: schema.into_value(),
            })
        }
        VersionAction::AddViewVersion => {
            let version: Viewed<UnboundVersion> = field(alloc, value, keys::VIEW_VERSION)?;
            Ok(ViewUpdate::AddViewVersion {
                view_version: version.into_value(),
            })
        }
        VersionAction::SetCurrentViewVersion => {
            let member: Asked<MemberId> = field(alloc, value, keys::VIEW_VERSION_ID)?;
            Ok(ViewUpdate::SetCurrentViewVersion {
                view_version_id: member.into_value(),
            })
        }
    }
}

#[tactic(auto, unfolding(crate::specs::Updates::text_update))]
fn text_update(alloc: Global, value: &Value, action: TextAction) -> Result<ViewUpdate, ReadError>
    ensures { Gives result ((spec.text_update action).read (view value.now)) }
{
    match action {
        TextAction::AssignUuid => {
            let uuid: Stored<Uuid> = field(alloc, value, commit_keys::UUID)?;
            Ok(ViewUpdate::AssignUuid {
                uuid: uuid.into_value(),
            })
        }
        TextAction::UpgradeFormatVersion => {
            let version: Id = field(alloc, value, meta_keys::FORMAT_VERSION)?;
            Ok(ViewUpdate::UpgradeFormatVersion {
                format_version: version.get() as u32,
            })
        }
        TextAction::SetLocation => {
            let location: Text = field(alloc, value, meta_keys::LOCATION)?;
            Ok(ViewUpdate::SetLocation { location })
        }
        TextAction::SetProperties => {
            let updates: Body<Properties> = field(alloc, value, commit_keys::UPDATES)?;
            Ok(ViewUpdate::SetProperties {
                updates: updates.into_value(),
            })
        }
        TextAction::RemoveProperties => {
            let removals: Listed<Text> = field(alloc, value, commit_keys::REMOVALS)?;
            Ok(ViewUpdate::RemoveProperties { removals })
        }
    }
}
