//! Versions, stored ones and those that are asked for.
ghost use Rattle.pol_viewjson.specs.Versions as spec;

use crate::keys;
use crate::viewed::{Viewed, parts};
use pol_commitjson::Asked;
use pol_metajson::{Body, Id};
use pol_metakeys::keys as meta_keys;
use pol_metaread::Long;
use pol_names::Namespace;
use pol_properties::Properties;
use pol_readers::{Form, ReadError, field, fixed, object, optional};
use pol_types::{Listed, Text};
use pol_views::{MemberId, Representation, UnboundVersion, VersionLogEntry, ViewVersion};
use serde_json::Value;
use std::alloc::Global;

#[tactic(auto, unfolding(crate::specs::Versions::representation))]
impl Form for Viewed<Representation> {
    ghost shape = { spec.representation };

    fn read(alloc: Global, value: &Value) -> Result<Self, ReadError> {
        object(alloc, value)?;
        fixed(alloc, value, meta_keys::TYPE, keys::SQL)?;
        let sql: Text = field(alloc, value, keys::SQL)?;
        let dialect: Text = field(alloc, value, keys::DIALECT)?;
        Ok(Viewed::new(Representation { sql, dialect }))
    }
}

/// What a version tells beside its ids and its time.
#[derive(Drop)]
pub(crate) struct Told {
    pub summary: Properties,
    pub representations: Listed<Representation>,
    pub default_catalog: Option<Text>,
    pub default_namespace: Namespace,
}

#[tactic(auto, unfolding(crate::specs::Versions::told))]
impl Form for Told {
    ghost shape = { spec.told };

    fn read(alloc: Global, value: &Value) -> Result<Self, ReadError> {
        let summary: Body<Properties> = field(alloc, value, meta_keys::SUMMARY)?;
        let written: Listed<Viewed<Representation>> = field(alloc, value, keys::REPRESENTATIONS)?;
        let default_catalog: Option<Text> = optional(alloc, value, keys::DEFAULT_CATALOG)?;
        let namespace: Asked<Namespace> = field(alloc, value, keys::DEFAULT_NAMESPACE)?;
        let representations = parts(alloc, written)?;
        Ok(Told {
            summary: summary.into_value(),
            representations,
            default_catalog,
            default_namespace: namespace.into_value(),
        })
    }
}

#[tactic(auto, unfolding(crate::specs::Versions::view_version))]
impl Form for Viewed<ViewVersion> {
    ghost shape = { spec.view_version };

    fn read(alloc: Global, value: &Value) -> Result<Self, ReadError> {
        object(alloc, value)?;
        let id: Id = field(alloc, value, keys::VERSION_ID)?;
        let moment: Long = field(alloc, value, meta_keys::TIMESTAMP_MS)?;
        let schema: Id = field(alloc, value, meta_keys::SCHEMA_ID)?;
        let told = Told::read(alloc, value)?;
        Ok(Viewed::new(ViewVersion {
            version_id: id.get() as u32,
            timestamp_ms: moment.get(),
            schema_id: schema.get() as u32,
            summary: told.summary,
            representations: told.representations,
            default_catalog: told.default_catalog,
            default_namespace: told.default_namespace,
        }))
    }
}

#[tactic(auto, unfolding(crate::specs::Versions::unbound_version))]
impl Form for Viewed<UnboundVersion> {
    ghost shape = { spec.unbound_version };

    fn read(alloc: Global, value: &Value) -> Result<Self, ReadError> {
        object(alloc, value)?;
        let _given: Id = field(alloc, value, keys::VERSION_ID)?;
        let moment: Long = field(alloc, value, meta_keys::TIMESTAMP_MS)?;
        let schema: Asked<MemberId> = field(alloc, value, meta_keys::SCHEMA_ID)?;
        let told = Told::read(alloc, value)?;
        Ok(Viewed::new(UnboundVersion {
            timestamp_ms: moment.get(),
            schema_id: schema.into_value(),
            summary: told.summary,
            representations: told.representations,
            default_catalog: told.default_catalog,
            default_namespace: told.default_namespace,
        }))
    }
}

#[tactic(auto, unfolding(crate::specs::Versions::version_log_entry))]
impl Form for Viewed<VersionLogEntry> {
    ghost shape = { spec.version_log_entry };

    fn read(alloc: Global, value: &Value) -> Result<Self, ReadError> {
        object(alloc, value)?;
        let moment: Long = field(alloc, value, meta_keys::TIMESTAMP_MS)?;
        let version: Id = field(alloc, value, keys::VERSION_ID)?;
        Ok(Viewed::new(VersionLogEntry {
            timestamp_ms: moment.get(),
            version_id: version.get() as u32,
        }))
    }
}
