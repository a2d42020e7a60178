//! The parts of a view are printed.
ghost use Rattle.std.specs.Prelude.{◌≡◌, IfOk};
ghost use Rattle.serde_json.specs.Data.{string};
ghost use Rattle.serde_json.specs.View.{view};
ghost use Rattle.pol_metaprint.specs.Json.{list_json};
ghost use Rattle.pol_viewjson.specs.Json as spec;

use crate::keys;
use pol_metakeys::keys as meta_keys;
use pol_metaprint::members::{none, pairs, with, with_number, with_optional_text, with_text};
use pol_names::Name;
use pol_types::OutOfMemory;
use pol_views::{Representation, VersionLogEntry, ViewVersion};
use serde_json::Value;
use std::alloc::Global;

/// A part of a view that is printed as JSON.
pub(crate) trait Part {
    ghost use Rattle.serde_json.specs.Data.{Data};

    /// What is printed of a value.
    ghost json: { Self → Data };

    /// The JSON of a value.
    fn printed(&self, alloc: Global) -> Result<Value, OutOfMemory>
        ensures { IfOk result (λ value. view value ≡ json self.now) };
}

/// A list.
pub(crate) fn list<T: Part>(alloc: Global, items: &[T]) -> Result<Value, OutOfMemory>
    ensures { IfOk result (λ value. view value ≡ list_json T.json items.now) }
{
    let mut values = Vec::with_capacity(alloc, items.len())?;
    for item in items {
        values.push(item.printed(alloc)?)?;
    }
    Ok(Value::from(values))
}

/// The levels of a namespace.
fn namespace_value(alloc: Global, levels: &[Name]) -> Result<Value, OutOfMemory>
    ensures { IfOk result (λ value. view value ≡ list_json string levels.now) }
{
    let mut values = Vec::with_capacity(alloc, levels.len())?;
    for level in levels {
        values.push(Value::try_from_str(alloc, level.as_str())?)?;
    }
    Ok(Value::from(values))
}

#[tactic(auto, unfolding(crate::specs::Json::representation_json))]
impl Part for Representation {
    ghost json = { spec.representation_json };

    fn printed(&self, alloc: Global) -> Result<Value, OutOfMemory> {
        let members = with_text(alloc, none(alloc), keys::DIALECT, self.dialect.as_str())?;
        let members = with_text(alloc, members, keys::SQL, self.sql.as_str())?;
        let members = with_text(alloc, members, meta_keys::TYPE, keys::SQL)?;
        Ok(Value::from(members))
    }
}

#[tactic(auto, unfolding(crate::specs::Json::view_version_json))]
impl Part for ViewVersion {
    ghost json = { spec.view_version_json };

    fn printed(&self, alloc: Global) -> Result<Value, OutOfMemory> {
        let namespace = namespace_value(alloc, self.default_namespace.levels())?;
        let written = list(alloc, self.representations.as_slice())?;
        let summary = pairs(alloc, &self.summary)?;
        let members = none(alloc);
        let members = with_optional_text(
            alloc,
            members,
            keys::DEFAULT_CATALOG,
            &self.default_catalog,
        )?;
        let members = with(alloc, members, keys::DEFAULT_NAMESPACE, namespace)?;
        let members = with(alloc, members, keys::REPRESENTATIONS, written)?;
        let members = with_number(alloc, members, meta_keys::SCHEMA_ID, self.schema_id as u64)?;
        let members = with(alloc, members, meta_keys::SUMMARY, summary)?;
        let members = with_number(alloc, members, meta_keys::TIMESTAMP_MS, self.timestamp_ms)?;
        let members = with_number(alloc, members, keys::VERSION_ID, self.version_id as u64)?;
        Ok(Value::from(members))
    }
}

#[tactic(auto, unfolding(crate::specs::Json::version_log_entry_json))]
impl Part for VersionLogEntry {
    ghost json = { spec.version_log_entry_json };

    fn printed(&self, alloc: Global) -> Result<Value, OutOfMemory> {
        let members = none(alloc);
        let members = with_number(alloc, members, meta_keys::TIMESTAMP_MS, self.timestamp_ms)?;
        let members = with_number(alloc, members, keys::VERSION_ID, self.version_id as u64)?;
        Ok(Value::from(members))
    }
}
