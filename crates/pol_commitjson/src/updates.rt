ghost use Rattle.std.specs.Prelude.{◌≡◌};
ghost use Rattle.pol_readers.specs.Reading.{Gives};
ghost use Rattle.serde_json.specs.View.{view};
ghost use Rattle.pol_commitjson.specs.Updates as spec;

use crate::action::{Action, OrderAction, SchemaAction, SnapshotAction, SpecAction, TextAction};
use crate::asked::Asked;
use crate::keys;
use crate::members::{ids_of, longs_of};
use pol_meta::{Schema, Snapshot, SnapshotRef, UnboundOrder, UnboundSpec};
use pol_metajson::{Body, Id};
use pol_metakeys::keys as meta_keys;
use pol_metaread::{Long, Stored};
use pol_properties::Properties;
use pol_readers::{Form, ReadError, field, object};
use pol_types::{Listed, Text};
use pol_updates::{MemberId, Update};
use serde_json::Value;
use std::alloc::Global;
use uuid::Uuid;

#[tactic(auto, unfolding(crate::specs::Updates::update))]
impl Form for Asked<Update> {
    ghost shape = { spec.update };

    fn read(alloc: Global, value: &Value) -> Result<Self, ReadError> {
        object(alloc, value)?;
        let action: Action = field(alloc, value, keys::ACTION)?;
        let update = update_of(alloc, value, action)?;
        Ok(Asked::new(update))
    }
}

/// The update of an action.
#[tactic(auto, unfolding(crate::specs::Updates::update_of))]
fn update_of(alloc: Global, value: &Value, action: Action) -> Result<Update, ReadError>
    ensures { Gives result ((spec.update_of action).read (view value.now)) }
{
    match action {
        Action::Schemas(action) => schema_update(alloc, value, action),
        Action::Specs(action) => spec_update(alloc, value, action),
        Action::Orders(action) => order_update(alloc, value, action),
        Action::Snapshots(action) => snapshot_update(alloc, value, action),
        Action::Texts(action) => text_update(alloc, value, action),
        Action::LeftOut(action) => Ok(Update::Unsupported { action }),
    }
}

#[tactic(auto, unfolding(crate::specs::Updates::schema_update))]
fn schema_update(alloc: Global, value: &Value, action: SchemaAction) -> Result<Update, ReadError>
    ensures { Gives result ((spec.schema_update action).read (view value.now)) }
{
    match action {
        SchemaAction::Add => {
            let schema: Body<Schema> = field(alloc, value, meta_keys::SCHEMA)?;
            Ok(Update::AddSchema {
                schema: schema.into_value(),
            })
        }
        SchemaAction::SetCurrent => {
            let member: Asked<MemberId> = field(alloc, value, meta_keys::SCHEMA_ID)?;
            Ok(Update::SetCurrentSchema {
                schema_id: member.into_value(),
            })
        }
        SchemaAction::Remove => {
            let ids: Listed<Id> = field(alloc, value, keys::SCHEMA_IDS)?;
            let schema_ids = ids_of(alloc, ids)?;
            Ok(Update::RemoveSchemas { schema_ids })
        }
    }
}

#[tactic(auto, unfolding(crate::specs::Updates::spec_update))]
fn spec_update(alloc: Global, value: &Value, action: SpecAction) -> Result<Update, ReadError>
    ensures { Gives result ((spec.spec_update action).read (view value.now)) }
{
    match action {
        SpecAction::Add => {
            let spec: Body<UnboundSpec> = field(alloc, value, keys::SPEC)?;
            Ok(Update::AddSpec {
                spec: spec.into_value(),
            })
        }
        SpecAction::SetDefault => {
            let member: Asked<MemberId> = field(alloc, value, meta_keys::SPEC_ID)?;
            Ok(Update::SetDefaultSpec {
                spec_id: member.into_value(),
            })
        }
        SpecAction::Remove => {
            let ids: Listed<Id> = field(alloc, value, keys::SPEC_IDS)?;
            let spec_ids = ids_of(alloc, ids)?;
            Ok(Update::RemovePartitionSpecs { spec_ids })
        }
    }
}

#[tactic(auto, unfolding(crate::specs::Updates::order_update))]
fn order_update(alloc: Global, value: &Value, action: OrderAction) -> Result<Update, ReadError>
    ensures { Gives result ((spec.order_update action).read (view value.now)) }
{
    match action {
        OrderAction::Add => {
            let order: Body<UnboundOrder> = field(alloc, value, keys::SORT_ORDER)?;
            Ok(Update::AddSortOrder {
                sort_order: order.into_value(),
            })
        }
        OrderAction::SetDefault => {
            let member: Asked<MemberId> = field(alloc, value, keys::SORT_ORDER_ID)?;
            Ok(Update::SetDefaultSortOrder {
                sort_order_id: member.into_value(),
            })
        }
    }
}

#[tactic(auto, unfolding(crate::specs::Updates::snapshot_update))]
fn snapshot_update(
    alloc: Global,
    value: &Value,
    action: SnapshotAction,
) -> Result<Update, ReadError>
    ensures { Gives result ((spec.snapshot_update action).read (view value.now)) }
{
    match action {
        SnapshotAction::Add => {
            let snapshot: Stored<Snapshot> = field(alloc, value, keys::SNAPSHOT)?;
            Ok(Update::AddSnapshot {
                snapshot: snapshot.into_value(),
            })
        }
        SnapshotAction::SetRef => {
            let ref_name: Text = field(alloc, value, keys::REF_NAME)?;
            let reference: Stored<SnapshotRef> = Stored::read(alloc, value)?;
            Ok(Update::SetSnapshotRef {
                ref_name,
                reference: reference.into_value(),
            })
        }
        SnapshotAction::Remove => {
            let ids: Listed<Long> = field(alloc, value, keys::SNAPSHOT_IDS)?;
            let snapshot_ids = longs_of(alloc, ids)?;
            Ok(Update::RemoveSnapshots { snapshot_ids })
        }
        SnapshotAction::RemoveRef => {
            let ref_name: Text = field(alloc, value, keys::REF_NAME)?;
            Ok(Update::RemoveSnapshotRef { ref_name })
        }
    }
}

#[tactic(auto, unfolding(crate::specs::Updates::text_update))]
fn text_update(alloc: Global, value: &Value, action: TextAction) -> Result<Update, ReadError>
    ensures { Gives result ((spec.text_update action).read (view value.now)) }
{
    match action {
        TextAction::AssignUuid => {
            let uuid: Stored<Uuid> = field(alloc, value, keys::UUID)?;
            Ok(Update::AssignUuid {
                uuid: uuid.into_value(),
            })
        }
        TextAction::UpgradeFormatVersion => {
            let version: Id = field(alloc, value, meta_keys::FORMAT_VERSION)?;
            Ok(Update::UpgradeFormatVersion {
                format_version: version.get() as u32,
            })
        }
        TextAction::SetLocation => {
            let location: Text = field(alloc, value, meta_keys::LOCATION)?;
            Ok(Update::SetLocation { location })
        }
        TextAction::SetProperties => {
            let updates: Body<Properties> = field(alloc, value, keys::UPDATES)?;
            Ok(Update::SetProperties {
                updates: updates.into_value(),
            })
        }
        TextAction::RemoveProperties => {
            let removals: Listed<Text> = field(alloc, value, keys::REMOVALS)?;
            Ok(Update::RemoveProperties { removals })
        }
    }
}
