//! The bodies of requests, each as a form.
ghost use Rattle.std.specs.Prelude.{◌≡◌, [], IfOk, unwrap_or};
ghost use Rattle.pol_properties.specs.Properties.{value_of, without_key};
ghost use Rattle.pol_readers.specs.Reading.{Gives, found};
ghost use Rattle.pol_requests.specs.Keys.{base_key};
ghost use Rattle.pol_bodies.specs.Bodies as spec;

use crate::held::Held;
use crate::keys;
use pol_names::{NameRefused, Namespace, NamespaceRefused, Plain};
use pol_properties::{Properties, Property};
use pol_readers::{Entries, Form, ReadError, field, object, optional, under_key, whole};
use pol_requests::BASE_KEY;
use pol_types::{Listed, OutOfMemory, Text};
use serde_json::Value;
use std::alloc::Global;

/// A plain name, which is bad as a whole where it is none.
#[tactic(auto, unfolding(crate::specs::Bodies::plain_name, pol_readers::specs::Forms::holds))]
impl Form for Held<Plain> {
    ghost shape = { spec.plain_name };

    fn read(alloc: Global, value: &Value) -> Result<Self, ReadError> {
        let text = Text::read(alloc, value)?;
        match Plain::new(alloc, text.as_str()) {
            Ok(name) => Ok(Held::new(name)),
            Err(NameRefused::OutOfMemory) => Err(ReadError::OutOfMemory),
            Err(_) => Err(ReadError::here(alloc)),
        }
    }
}

/// A namespace, as the list of its levels. It is one field, into which no path goes.
#[tactic(auto, unfolding(crate::specs::Bodies::levels, pol_readers::specs::Forms::holds))]
impl Form for Held<Namespace> {
    ghost shape = { spec.levels };

    fn read(alloc: Global, value: &Value) -> Result<Self, ReadError> {
        let levels: Listed<Text> = whole(alloc, value)?;
        match Namespace::from_levels(alloc, levels.as_slice()) {
            Ok(namespace) => Ok(Held::new(namespace)),
            Err(NamespaceRefused::OutOfMemory) => Err(ReadError::OutOfMemory),
            Err(_) => Err(ReadError::here(alloc)),
        }
    }
}

/// An object of texts.
#[tactic(auto, unfolding(crate::specs::Bodies::text_map))]
impl Form for Held<Properties> {
    ghost shape = { spec.text_map };

    fn read(alloc: Global, value: &Value) -> Result<Self, ReadError> {
        let entries: Entries<Text> = Entries::read(alloc, value)?;
        let properties = properties_of(alloc, entries)?;
        Ok(Held::new(properties))
    }
}

/// The properties that entries make.
fn properties_of(alloc: Global, entries: Entries<Text>) -> Result<Properties, OutOfMemory>
    ensures { IfOk result (λ properties. properties ≡ spec.properties_of entries) }
{
    let entries: Vec<(Text, Text)> = entries.into();
    let mut pairs = Vec::with_capacity(alloc, entries.len())?;
    for (key, value) in entries {
        pairs.push(Property { key, value })?;
    }
    Properties::of_pairs(alloc, pairs)
}

/// The properties of a field that may be absent.
fn given(alloc: Global, properties: Option<Held<Properties>>) -> Properties
    ensures { result ≡ unwrap_or properties [] }
{
    match properties {
        Some(properties) => properties.into_value(),
        None => Properties::new(alloc),
    }
}

/// The texts of a field that may be absent.
fn listed(alloc: Global, texts: Option<Listed<Text>>) -> Listed<Text>
    ensures { result ≡ unwrap_or texts [] }
{
    match texts {
        Some(texts) => texts,
        None => Listed::from(Vec::new(alloc)),
    }
}

/// The body that creates a namespace (Iceberg REST OpenAPI, CreateNamespaceRequest).
#[derive(Drop)]
pub struct NewNamespace {
    pub namespace: Namespace,
    pub properties: Properties,
}

#[tactic(auto, unfolding(crate::specs::Bodies::new_namespace))]
impl Form for NewNamespace {
    ghost shape = { spec.new_namespace };

    fn read(alloc: Global, value: &Value) -> Result<Self, ReadError> {
        object(alloc, value)?;
        let named: Held<Namespace> = field(alloc, value, keys::NAMESPACE)?;
        let properties = optional(alloc, value, keys::PROPERTIES)?;
        Ok(NewNamespace {
            namespace: named.into_value(),
            properties: given(alloc, properties),
        })
    }
}

/// The body that changes properties (Iceberg REST OpenAPI, UpdateNamespacePropertiesRequest).
#[derive(Drop)]
pub struct PropertyUpdates {
    pub removals: Listed<Text>,
    pub updates: Properties,
}

#[tactic(auto, unfolding(crate::specs::Bodies::property_updates))]
impl Form for PropertyUpdates {
    ghost shape = { spec.property_updates };

    fn read(alloc: Global, value: &Value) -> Result<Self, ReadError> {
        object(alloc, value)?;
        let removals = optional(alloc, value, keys::REMOVALS)?;
        let updates = optional(alloc, value, keys::UPDATES)?;
        Ok(PropertyUpdates {
            removals: listed(alloc, removals),
            updates: given(alloc, updates),
        })
    }
}

/// The properties of a new catalogue: its base, which must be among them, and the others.
#[derive(Drop)]
pub(crate) struct BasedProperties {
    pub base: Text,
    pub properties: Properties,
}

#[tactic(auto, unfolding(crate::specs::Bodies::based_properties))]
impl Form for BasedProperties {
    ghost shape = { spec.based_properties };

    fn read(alloc: Global, value: &Value) -> Result<Self, ReadError> {
        let texts: Held<Properties> = Held::read(alloc, value)?;
        let mut properties = texts.into_value();
        let outcome = take_base(alloc, &mut properties);
        let base = under_key(alloc, BASE_KEY, outcome)?;
        Ok(BasedProperties { base, properties })
    }
}

/// Takes the base out of properties, where it must be.
fn take_base(alloc: Global, properties: &mut Properties) -> Result<Text, ReadError>
    ensures base { Gives result (found (value_of base_key properties.old)) }
    ensures others { properties.new ≡ without_key base_key properties.old }
{
    match properties.remove(BASE_KEY) {
        Some(base) => Ok(base),
        None => Err(ReadError::here(alloc)),
    }
}

/// The storage of a new catalogue: the locations that are allowed beside its base.
#[derive(Drop)]
pub(crate) struct Storage {
    pub allowed: Listed<Text>,
}

#[tactic(auto, unfolding(crate::specs::Bodies::storage))]
impl Form for Storage {
    ghost shape = { spec.storage };

    fn read(alloc: Global, value: &Value) -> Result<Self, ReadError> {
        object(alloc, value)?;
        let allowed = optional(alloc, value, keys::ALLOWED_LOCATIONS)?;
        Ok(Storage {
            allowed: listed(alloc, allowed),
        })
    }
}

/// A new catalogue (Apache Polaris Management Service, Catalog).
#[derive(Drop)]
pub struct NewCatalog {
    pub name: Plain,
    pub external: bool,
    pub base: Text,
    pub properties: Properties,
    pub allowed: Listed<Text>,
}

#[tactic(auto, unfolding(crate::specs::Bodies::new_catalog))]
impl Form for NewCatalog {
    ghost shape = { spec.new_catalog };

    fn read(alloc: Global, value: &Value) -> Result<Self, ReadError> {
        object(alloc, value)?;
        let named: Held<Plain> = field(alloc, value, keys::NAME)?;
        let kind: Option<Text> = optional(alloc, value, keys::TYPE)?;
        let based: BasedProperties = field(alloc, value, keys::PROPERTIES)?;
        let stored = optional(alloc, value, keys::STORAGE_CONFIG_INFO)?;
        Ok(NewCatalog {
            name: named.into_value(),
            external: is_external(kind),
            base: based.base,
            properties: based.properties,
            allowed: allowed_by(alloc, stored),
        })
    }
}

/// Whether a catalogue of this type is kept elsewhere. One without a type is internal.
fn is_external(kind: Option<Text>) -> bool
    ensures { result ≡ spec.is_external kind }
{
    match kind {
        Some(kind) => kind.as_str() != keys::INTERNAL,
        None => false,
    }
}

/// The locations that are allowed by a storage, which may be absent.
fn allowed_by(alloc: Global, stored: Option<Storage>) -> Listed<Text>
    ensures { result ≡ spec.allowed_by stored }
{
    match stored {
        Some(stored) => stored.allowed,
        None => Listed::from(Vec::new(alloc)),
    }
}

/// The body that creates a catalogue (Apache Polaris Management Service, CreateCatalogRequest).
#[derive(Drop)]
pub struct CatalogBody {
    pub catalog: NewCatalog,
}

#[tactic(auto, unfolding(crate::specs::Bodies::catalog_body))]
impl Form for CatalogBody {
    ghost shape = { spec.catalog_body };

    fn read(alloc: Global, value: &Value) -> Result<Self, ReadError> {
        object(alloc, value)?;
        let catalog = field(alloc, value, keys::CATALOG)?;
        Ok(CatalogBody { catalog })
    }
}
