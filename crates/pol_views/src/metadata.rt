ghost use Rattle.std.specs.Prelude.{◌≡◌, IfOk};
ghost use Rattle.std.proofs.Common.{rules};

use crate::{VersionLogEntry, ViewVersion};
use pol_meta::Schema;
use pol_properties::Properties;
use pol_types::{Exact, Listed, OutOfMemory, Text};
use uuid::Uuid;

/// The metadata of a view, with the fields of the Iceberg view spec. Schemas and versions stand in the order in which
/// they were added.
#[derive(Clone, Drop, PartialEq, Eq)]
pub struct ViewMetadata {
    pub current_version_id: u32,
    pub format_version: u32,
    pub location: Text,
    pub properties: Properties,
    pub schemas: Listed<Schema>,
    pub version_log: Listed<VersionLogEntry>,
    pub versions: Listed<ViewVersion>,
    pub view_uuid: Uuid,
}

impl ViewMetadata {
    /// An equal metadata.
    pub fn copy(&self) -> Result<Self, OutOfMemory>
        ensures { IfOk result (λ copy. copy ≡ self.now) }
    {
        Ok(self.clone()?)
    }
}

impl Exact for ViewMetadata {
    ghost use Rattle.pol_views.specs.Exactness.{view_metadata_exact};

    ghost clones_exactly = { Prim.search rules };

    ghost compares_exactly = { view_metadata_exact };
}
