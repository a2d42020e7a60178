//! The JSON of answers.
ghost use Rattle.std.specs.Prelude.{◌≡◌, ◌≢◌, ℕ, List, IfOk, OnOk, MatchOption, map, ◌++◌, ◌∷◌, [], codes};
ghost use Rattle.serde_json.specs.Data.{put as with_member, string};
ghost use Rattle.serde_json.specs.View.{view, members_view};
ghost use Rattle.pol_locations.specs.Location.{location_text};
ghost use Rattle.pol_requests.specs.Table.{entry_of};
ghost use Rattle.pol_answers.specs.Json as spec;

use pol_content::CatalogRow;
use pol_locations::Location;
use pol_names::{Name, Namespace, Plain};
use pol_properties::{Properties, Property};
use pol_requests::{BASE_KEY, Row, table_rows};
use pol_types::{Listed, OutOfMemory, Text};
use serde_json::{Map, Value, json, put};
use std::alloc::{AllocError, Global};

/// What the path of each row of the catalogue API behind a prefix begins with.
const PREFIXED: &str = "/api/catalog/v1/{prefix}";

/// What answers have as JSON.
pub(crate) trait ToJson {
    ghost use Rattle.serde_json.specs.Data.{Data};

    /// What stands for a value.
    ghost json: { Self → Data };

    /// The JSON of a value.
    fn to_json(&self, alloc: Global) -> Result<Value, OutOfMemory>
        ensures { IfOk result (λ value. view value ≡ json self.now) };
}

impl ToJson for Text {
    ghost json = { string };

    fn to_json(&self, alloc: Global) -> Result<Value, OutOfMemory> {
        Ok(Value::try_from_str(alloc, self.as_str())?)
    }
}

impl ToJson for Name {
    ghost json = { string };

    fn to_json(&self, alloc: Global) -> Result<Value, OutOfMemory> {
        Ok(Value::try_from_str(alloc, self.as_str())?)
    }
}

impl ToJson for Namespace {
    ghost json = { spec.texts_json };

    fn to_json(&self, alloc: Global) -> Result<Value, OutOfMemory> {
        list(alloc, self.levels())
    }
}

impl ToJson for Location {
    ghost json = { spec.location_json };

    fn to_json(&self, alloc: Global) -> Result<Value, OutOfMemory> {
        Ok(Value::from(self.text(alloc)?))
    }
}

#[tactic(auto, unfolding(crate::specs::Json::catalog_json))]
impl ToJson for CatalogRow {
    ghost json = { spec.catalog_json };

    fn to_json(&self, alloc: Global) -> Result<Value, OutOfMemory> {
        let allowed = list(alloc, self.allowed.as_slice())?;
        let properties = catalog_properties(alloc, self)?;
        Ok(catalog_object(alloc, &self.name, properties, allowed)?)
    }
}

/// The object of a catalogue, made of its parts.
fn catalog_object(
    alloc: Global,
    name: &Plain,
    properties: Map<String, Value>,
    allowed: Value,
) -> Result<Value, AllocError>
    ensures { IfOk result (λ json. view json ≡ spec.catalog_object name.now (members_view properties.entries)
        (view allowed)) }
{
    json!(in alloc; {
        "name": name.as_str(),
        "properties": properties,
        "storageConfigInfo": {"allowedLocations": allowed},
        "type": "INTERNAL"
    })
}

/// The members of a catalogue's properties, its base's text among them.
fn catalog_properties(alloc: Global, row: &CatalogRow) -> Result<Map<String, Value>, OutOfMemory>
    ensures { IfOk result (λ members. members_view members.entries ≡ spec.catalog_members row.now) }
{
    let mut members = property_members(alloc, &row.properties)?;
    let base = row.base.to_json(alloc)?;
    put(&mut members, alloc, BASE_KEY, base)?;
    Ok(members)
}

/// The members of an object with these properties.
fn property_members(
    alloc: Global,
    properties: &Properties,
) -> Result<Map<String, Value>, OutOfMemory>
    ensures { IfOk result (λ members. members_view members.entries ≡ spec.property_members properties.now) }
{
    members_of(alloc, properties.iter().as_slice())
}

/// The members of an object with these pairs.
#[tactic(auto, unfolding(crate::specs::Json::property_members))]
fn members_of(alloc: Global, pairs: &[Property]) -> Result<Map<String, Value>, OutOfMemory>
    ensures { IfOk result (λ members. members_view members.entries ≡ spec.property_members pairs.now) }
{
    let mut members = Map::new(alloc);
    for pair in pairs {
        put_property(alloc, &mut members, pair)?;
    }
    Ok(members)
}

/// Puts a property among the members of an object.
fn put_property(
    alloc: Global,
    members: &mut Map<String, Value>,
    pair: &Property,
) -> Result<(), OutOfMemory>
    ensures { OnOk result (members_view members.new.entries
        ≡ spec.with_property (members_view members.old.entries) pair.now) }
{
    let value = pair.value.to_json(alloc)?;
    Ok(put(members, alloc, pair.key.as_str(), value)?)
}

/// A list.
pub(crate) fn list<T: ToJson>(alloc: Global, items: &[T]) -> Result<Value, OutOfMemory>
    ensures { IfOk result (λ value. view value ≡ spec.list_json T.json items.now) }
{
    let mut values = Vec::with_capacity(alloc, items.len())?;
    for item in items {
        values.push(item.to_json(alloc)?)?;
    }
    Ok(Value::from(values))
}

/// How to speak to a catalogue.
#[tactic(auto, unfolding(crate::specs::Json::config_json))]
pub(crate) fn config_json(alloc: Global, catalog: &Plain) -> Result<Value, OutOfMemory>
    ensures { IfOk result (λ json. view json ≡ spec.config_json catalog.now) }
{
    let texts = endpoints(alloc, table_rows())?;
    let listed = list(alloc, texts.as_slice())?;
    Ok(config_object(alloc, catalog, listed)?)
}

/// The object that tells how to speak to a catalogue, made of its parts.
fn config_object(alloc: Global, catalog: &Plain, endpoints: Value) -> Result<Value, AllocError>
    ensures { IfOk result (λ json. view json ≡ spec.config_object catalog.now (view endpoints)) }
{
    json!(in alloc; {
        "defaults": {},
        "endpoints": endpoints,
        "overrides": {"prefix": catalog.as_str()}
    })
}

/// The endpoints that rows list.
fn endpoints(alloc: Global, rows: &[Row]) -> Result<Vec<Text>, OutOfMemory>
    ensures { IfOk result (λ texts. texts.items ≡ spec.endpoints_of (map entry_of rows.now)) }
{
    let mut texts = Vec::new(alloc);
    for row in rows {
        add_endpoint(alloc, &mut texts, row)?;
    }
    Ok(texts)
}

/// Adds the endpoint of a row, if it has one.
fn add_endpoint(alloc: Global, texts: &mut Vec<Text>, row: &Row) -> Result<(), OutOfMemory>
    ensures { OnOk result (texts.new.items ≡ texts.old.items ++ spec.endpoints_of (entry_of row.now ∷ [])) }
{
    let Some(rest) = behind_prefix(row.1) else {
        return Ok(());
    };
    texts.push(endpoint_text(alloc, row.0, rest)?)?;
    Ok(())
}

/// What stands behind the prefix in a path of the catalogue API.
fn behind_prefix(path: &str) -> Option<&str>
    ensures { MatchOption result ((rest : List ℕ)
        → path.now ≢ spec.prefixed ++ rest) (λ rest. path.now ≡ spec.prefixed ++ rest.now) }
{
    path.strip_prefix(PREFIXED)
}

/// A method, and a path behind the prefix.
fn endpoint_text(alloc: Global, method: &str, rest: &str) -> Result<Text, AllocError>
    ensures { IfOk result (λ text. text ≡ method.now ++ (codes " /v1/{prefix}" ++ rest.now)) }
{
    Ok(Text::from(format!(in alloc; "{method} /v1/{{prefix}}{rest}")?))
}

/// A list of catalogues.
pub(crate) fn catalogs_json(alloc: Global, rows: &Listed<CatalogRow>) -> Result<Value, OutOfMemory>
    ensures { IfOk result (λ json. view json ≡ spec.catalogs_json rows.now) }
{
    let catalogs = list(alloc, rows.as_slice())?;
    Ok(json!(in alloc; {"catalogs": catalogs})?)
}

/// A list of namespaces.
pub(crate) fn namespaces_json(
    alloc: Global,
    namespaces: &Listed<Namespace>,
) -> Result<Value, OutOfMemory>
    ensures { IfOk result (λ json. view json ≡ spec.namespaces_json namespaces.now) }
{
    let namespaces = list(alloc, namespaces.as_slice())?;
    Ok(json!(in alloc; {"namespaces": namespaces})?)
}

/// A namespace with its properties.
pub(crate) fn namespace_json(
    alloc: Global,
    namespace: &Namespace,
    properties: &Properties,
) -> Result<Value, OutOfMemory>
    ensures { IfOk result (λ json. view json ≡ spec.namespace_json namespace.now properties.now) }
{
    let levels = namespace.to_json(alloc)?;
    let members = property_members(alloc, properties)?;
    Ok(json!(in alloc; {"namespace": levels, "properties": members})?)
}

/// What became of properties.
pub(crate) fn updated_json(
    alloc: Global,
    missing: &Listed<Text>,
    removed: &Listed<Text>,
    updated: &Listed<Text>,
) -> Result<Value, OutOfMemory>
    ensures { IfOk result (λ json. view json ≡ spec.updated_json missing.now removed.now updated.now) }
{
    let missing = list(alloc, missing.as_slice())?;
    let removed = list(alloc, removed.as_slice())?;
    let updated = list(alloc, updated.as_slice())?;
    Ok(updated_object(alloc, missing, removed, updated)?)
}

/// The object that tells what became of properties, made of its parts.
fn updated_object(
    alloc: Global,
    missing: Value,
    removed: Value,
    updated: Value,
) -> Result<Value, AllocError>
    ensures { IfOk result (λ json. view json ≡ spec.updated_object (view missing) (view removed) (view updated)) }
{
    json!(in alloc; {"missing": missing, "removed": removed, "updated": updated})
}
