use crate::UnboundVersion;
use pol_drafts::MemberId;
use pol_meta::Schema;
use pol_properties::Properties;
use pol_types::{Listed, Text};
use pol_updates::LeftOut;
use uuid::Uuid;

/// One change of a view's metadata (Iceberg REST OpenAPI, ViewUpdate).
#[derive(Drop)]
pub enum ViewUpdate {
    /// The view has this uuid already.
    AssignUuid { uuid: Uuid },
    /// The view has this format version already.
    UpgradeFormatVersion { format_version: u32 },
    /// The schema gets its id by the view, whatever id it has.
    AddSchema { schema: Schema },
    SetLocation { location: Text },
    SetProperties { updates: Properties },
    RemoveProperties { removals: Listed<Text> },
    AddViewVersion { view_version: UnboundVersion },
    SetCurrentViewVersion { view_version_id: MemberId },
    /// It changes nothing here.
    Unsupported { action: LeftOut },
}
