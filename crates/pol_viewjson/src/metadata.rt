//! Whole metadata are read.
ghost use Rattle.std.specs.Prelude.{IfOk};
ghost use Rattle.pol_readers.specs.Forms as form;
ghost use Rattle.pol_readers.specs.Reading.{Gives};
ghost use Rattle.pol_views.specs.Valid.{HasViewForms};
ghost use Rattle.pol_viewjson.specs.Metadata as spec;

use crate::keys;
use crate::viewed::{Viewed, parts};
use pol_meta::Schema;
use pol_metajson::{Body, Id};
use pol_metakeys::keys as meta_keys;
use pol_metaread::{Stored, parts as stored_parts};
use pol_properties::Properties;
use pol_readers::{Form, Ranged, ReadError, field, object, read_body};
use pol_types::{Listed, Text};
use pol_views::{VersionLogEntry, ViewMetadata, ViewVersion};
use serde_json::Value;
use std::alloc::Global;
use uuid::Uuid;

/// The format version.
type Version = Ranged<1, 1>;

/// Reads the metadata of a view as it is printed (Iceberg view spec, View Metadata). Its fields are tested in byte
/// order of their keys.
#[tactic(auto, using(crate::proofs::FormLemmas::view_holds))]
pub fn read_view(alloc: Global, text: &[u8]) -> Result<ViewMetadata, ReadError>
    ensures reading { Gives result (form.body spec.view_metadata.read text.now) }
    ensures formed { IfOk result HasViewForms }
{
    let viewed: Viewed<ViewMetadata> = read_body(alloc, text)?;
    Ok(viewed.into_value())
}

#[tactic(auto, unfolding(crate::specs::Metadata::view_metadata))]
impl Form for Viewed<ViewMetadata> {
    ghost shape = { spec.view_metadata };

    fn read(alloc: Global, value: &Value) -> Result<Self, ReadError> {
        object(alloc, value)?;
        let current: Id = field(alloc, value, keys::CURRENT_VERSION_ID)?;
        let format: Version = field(alloc, value, meta_keys::FORMAT_VERSION)?;
        let location: Text = field(alloc, value, meta_keys::LOCATION)?;
        let properties: Body<Properties> = field(alloc, value, meta_keys::PROPERTIES)?;
        let schemas: Listed<Stored<Schema>> = field(alloc, value, meta_keys::SCHEMAS)?;
        let log: Listed<Viewed<VersionLogEntry>> = field(alloc, value, keys::VERSION_LOG)?;
        let versions: Listed<Viewed<ViewVersion>> = field(alloc, value, keys::VERSIONS)?;
        let uuid: Stored<Uuid> = field(alloc, value, keys::VIEW_UUID)?;
        let schemas = stored_parts(alloc, schemas)?;
        let version_log = parts(alloc, log)?;
        let versions = parts(alloc, versions)?;
        Ok(Viewed::new(ViewMetadata {
            current_version_id: current.get() as u32,
            format_version: format.get() as u32,
            location,
            properties: properties.into_value(),
            schemas,
            version_log,
            versions,
            view_uuid: uuid.into_value(),
        }))
    }
}
