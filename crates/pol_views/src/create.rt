ghost use Rattle.std.specs.Prelude.{◌≡◌, IfOk};
ghost use Rattle.pol_views.specs.Creation.{IsViewAskedFor, assembled_view, created_view, first_version};
ghost use Rattle.pol_views.specs.Valid.{IsValidView};
ghost use Rattle.pol_views.specs.Weight.{asked_view_weight, view_weight};

use crate::{UnboundVersion, VersionLogEntry, ViewMetadata, ViewVersion};
use pol_meta::{Schema, first_schema, list_of_one};
use pol_properties::Properties;
use pol_types::{OutOfMemory, Text};
use std::alloc::{AllocError, Global};
use uuid::Uuid;

impl ViewMetadata {
    /// The metadata of a new view at a moment, in milliseconds since the Unix epoch. Its schema has id 0, and its
    /// version id 1 and that schema, whatever ids they are asked for with. The metadata weighs as much as what the
    /// view is asked for with, and 64 for the entry of its log.
    #[tactic(auto, unfolding(crate::specs::Creation::created_view))]
    pub fn create(
        alloc: Global,
        uuid: Uuid,
        location: &str,
        schema: Schema,
        version: UnboundVersion,
        properties: Properties,
        moment: u64,
    ) -> Result<Self, OutOfMemory>
        ensures value { IfOk result (λ meta. meta ≡ created_view uuid location.now schema version properties moment) }
        ensures valid { IsViewAskedFor schema version moment → IfOk result IsValidView }
        ensures weight { IfOk result (λ meta. view_weight meta
            ≡ asked_view_weight location.now schema version properties) }
    {
        let location = Text::from(String::from_str(alloc, location)?);
        let version = first_version(version);
        Ok(assembled(alloc, uuid, location, schema, version, properties, moment)?)
    }
}

/// The version of a new view.
fn first_version(version: UnboundVersion) -> ViewVersion
    ensures { result ≡ first_version version }
{
    ViewVersion {
        version_id: 1,
        timestamp_ms: version.timestamp_ms,
        schema_id: 0,
        summary: version.summary,
        representations: version.representations,
        default_catalog: version.default_catalog,
        default_namespace: version.default_namespace,
    }
}

/// The metadata of a new view whose version has its id.
fn assembled(
    alloc: Global,
    uuid: Uuid,
    location: Text,
    schema: Schema,
    version: ViewVersion,
    properties: Properties,
    moment: u64,
) -> Result<ViewMetadata, AllocError>
    ensures { IfOk result (λ meta. meta ≡ assembled_view uuid location schema version properties moment) }
{
    let version_id = version.version_id;
    let entry = VersionLogEntry {
        timestamp_ms: moment,
        version_id,
    };
    let schemas = list_of_one(alloc, first_schema(schema))?;
    let version_log = list_of_one(alloc, entry)?;
    let versions = list_of_one(alloc, version)?;
    Ok(ViewMetadata {
        current_version_id: version_id,
        format_version: 1,
        location,
        properties,
        schemas,
        version_log,
        versions,
        view_uuid: uuid,
    })
}
