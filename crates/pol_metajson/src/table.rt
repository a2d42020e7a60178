ghost use Rattle.std.specs.Prelude.{◌≡◌, [], IfOk, map, unwrap_or};
ghost use Rattle.pol_names.specs.Name.{name_refusal};
ghost use Rattle.pol_readers.specs.Forms as form;
ghost use Rattle.pol_readers.specs.Reading.{Gives};
ghost use Rattle.pol_metajson.specs.Table as spec;

use crate::Body;
use pol_meta::{Schema, UnboundOrder, UnboundSpec};
use pol_metakeys::keys;
use pol_names::{Name, NameRefused};
use pol_properties::{Properties, Property};
use pol_readers::{Entries, Form, ReadError, field, object, optional, read_body};
use pol_types::{Listed, OutOfMemory, Text};
use serde_json::Value;
use std::alloc::Global;

/// What a table is asked for with: its name, where it is to lie, its schema, spec, order and properties, and whether it
/// is only to be staged.
#[derive(Drop)]
pub struct CreateTable {
    pub name: Name,
    pub location: Option<Text>,
    pub schema: Schema,
    pub partition_spec: UnboundSpec,
    pub write_order: UnboundOrder,
    pub stage_create: bool,
    pub properties: Properties,
}

/// Reads a body that creates a table (Iceberg REST OpenAPI, CreateTableRequest). Its fields are tested in the order
/// name, location, schema, partition-spec, write-order, stage-create, properties.
#[tactic(auto, using(crate::proofs::RequestLemmas::body_formed))]
pub fn read_create_table(alloc: Global, body: &[u8]) -> Result<CreateTable, ReadError>
    ensures reading { Gives result (form.body spec.create_table.read body.now) }
    ensures formed { IfOk result spec.IsFormed }
{
    read_body(alloc, body)
}

#[tactic(auto, unfolding(crate::specs::Table::table_name, pol_readers::specs::Forms::holds))]
impl Form for Body<Name> {
    ghost shape = { spec.table_name };

    fn read(alloc: Global, value: &Value) -> Result<Self, ReadError> {
        let text = Text::read(alloc, value)?;
        match Name::new(alloc, text.as_str()) {
            Ok(name) => Ok(Body::new(name)),
            Err(NameRefused::OutOfMemory) => Err(ReadError::OutOfMemory),
            Err(_) => Err(ReadError::here(alloc)),
        }
    }
}

#[tactic(auto, unfolding(crate::specs::Table::text_map))]
impl Form for Body<Properties> {
    ghost shape = { spec.text_map };

    fn read(alloc: Global, value: &Value) -> Result<Self, ReadError> {
        let entries: Entries<Text> = Entries::read(alloc, value)?;
        let properties = properties_of(alloc, entries)?;
        Ok(Body::new(properties))
    }
}

/// The properties that entries make.
fn properties_of(alloc: Global, entries: Entries<Text>) -> Result<Properties, OutOfMemory>
    ensures { IfOk result (λ properties. properties ≡ spec.properties_of entries) }
{
    let entries: Vec<(Text, Text)> = entries.into();
    let mut pairs = Vec::with_capacity(alloc, entries.len())?;
    for (key, value) in entries {
        pairs.push(Property { key, value })?;
    }
    Properties::of_pairs(alloc, pairs)
}

#[tactic(auto, unfolding(crate::specs::Table::create_table))]
impl Form for CreateTable {
    ghost shape = { spec.create_table };

    fn read(alloc: Global, value: &Value) -> Result<Self, ReadError> {
        object(alloc, value)?;
        let name: Body<Name> = field(alloc, value, keys::NAME)?;
        let location = optional(alloc, value, keys::LOCATION)?;
        let schema: Body<Schema> = field(alloc, value, keys::SCHEMA)?;
        let partition_spec = optional(alloc, value, keys::PARTITION_SPEC)?;
        let write_order = optional(alloc, value, keys::WRITE_ORDER)?;
        let stage_create: Option<bool> = optional(alloc, value, keys::STAGE_CREATE)?;
        let properties = optional(alloc, value, keys::PROPERTIES)?;
        Ok(CreateTable {
            name: name.into_value(),
            location,
            schema: schema.into_value(),
            partition_spec: given_spec(alloc, partition_spec),
            write_order: given_order(alloc, write_order),
            stage_create: stage_create.unwrap_or(false),
            properties: given_properties(alloc, properties),
        })
    }
}

fn given_spec(alloc: Global, given: Option<Body<UnboundSpec>>) -> UnboundSpec
    ensures { result ≡ spec.given_spec given }
{
    match given {
        Some(spec) => spec.into_value(),
        None => UnboundSpec {
            fields: Listed::from(Vec::new(alloc)),
        },
    }
}

fn given_order(alloc: Global, given: Option<Body<UnboundOrder>>) -> UnboundOrder
    ensures { result ≡ spec.given_order given }
{
    match given {
        Some(order) => order.into_value(),
        None => UnboundOrder {
            fields: Listed::from(Vec::new(alloc)),
        },
    }
}

fn given_properties(alloc: Global, given: Option<Body<Properties>>) -> Properties
    ensures { result ≡ unwrap_or given [] }
{
    match given {
        Some(properties) => properties.into_value(),
        None => Properties::new(alloc),
    }
}
