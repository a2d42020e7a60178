ghost use Rattle.std.specs.Prelude.{◌≡◌, ◌≤◌, ◌+◌, ◌∷◌, [], ℕ, None, IfErr, IfOk, OnOk, nat_eq};
ghost use Rattle.std.specs.List.{list_all};
ghost use Rattle.indexmap.specs.IndexSet.{contains};
ghost use Rattle.pol_meta.specs.Columns.{column_ids, has_column};
ghost use Rattle.pol_meta.specs.Creation.{IsAskedFor, IsCreateRefusal, assembled, bound, create_refusal, created, field_ids, first_order, first_schema, first_spec, highest, highest_given, is_same_field, is_same_given, is_same_name, numbered, stands_twice, unnumbered};
ghost use Rattle.pol_meta.specs.Valid.{IsValid};
ghost use Rattle.pol_meta.specs.Weight.{asked_weight, metadata_weight};

use crate::{
    Column, CreateRefused, PartitionField, PartitionSpec, Schema, SortField, SortOrder,
    TableMetadata, UnboundField, UnboundOrder, UnboundSpec, Why,
};
use indexmap::IndexSet;
use pol_properties::Properties;
use pol_types::{Listed, Text};
use std::alloc::{AllocError, AllocFailed, Global};
use uuid::Uuid;

/// The highest id that a partition field may have.
const HIGHEST_ID: u64 = 2_147_483_647;

impl TableMetadata {
    /// The metadata of a new table at a moment, in milliseconds since the Unix epoch. Its schema and spec have id 0,
    /// and its order id 1, or 0 where nothing is sorted. Partition fields without an id get the ids after the highest
    /// one given, and at least 1000. A spec is refused for a source that is no column, then for an id or a name that
    /// stands twice, then for an id above 2,147,483,647; after it an order is refused for a source that is no column.
    /// The metadata weighs as much as what the table is asked for with.
    #[tactic(auto, unfolding(crate::specs::Creation::created))]
    pub fn create(
        alloc: Global,
        uuid: Uuid,
        location: &str,
        schema: Schema,
        spec: UnboundSpec,
        order: UnboundOrder,
        properties: Properties,
        moment: u64,
    ) -> Result<Self, CreateRefused>
        ensures value { IfOk result (λ meta. meta ≡ created uuid location.now schema spec order properties moment) }
        ensures passes { OnOk result (create_refusal schema spec order ≡ None) }
        ensures refused { IfErr result (IsCreateRefusal schema spec order) }
        ensures valid { IsAskedFor schema spec order moment → IfOk result IsValid }
        ensures weight { IfOk result (λ meta. metadata_weight meta
            ≡ asked_weight location.now schema spec order properties) }
    {
        let highest = judge(alloc, &schema, &spec, &order)?;
        let spec = first_spec(alloc, spec, highest)?;
        let location = Text::from(String::from_str(alloc, location)?);
        Ok(assembled(
            alloc,
            uuid,
            location,
            schema,
            spec,
            first_order(order),
            properties,
            moment,
        )?)
    }
}

/// The ids of columns.
fn ids_of(alloc: Global, columns: &[Column]) -> Result<IndexSet<u32>, AllocError>
    ensures { IfOk result (λ ids. (id : ℕ) → contains nat_eq ids id ≡ has_column columns.now id) }
{
    let mut ids = IndexSet::new(alloc);
    for column in columns {
        ids.insert(column.id)?;
    }
    Ok(ids)
}

/// Whether the sources of all these partition fields are columns.
fn are_partition_sources(
    alloc: Global,
    columns: &[Column],
    fields: &[UnboundField],
) -> Result<bool, AllocError>
    ensures { IfOk result (λ known. known ≡ list_all (λ field. has_column columns.now field.source_id) fields.now) }
{
    if fields.is_empty() {
        return Ok(true);
    }
    let ids = ids_of(alloc, columns)?;
    Ok(has_partition_sources(&ids, fields))
}

/// Whether the sources of all these sort fields are columns.
fn are_sort_sources(
    alloc: Global,
    columns: &[Column],
    fields: &[SortField],
) -> Result<bool, AllocError>
    ensures { IfOk result (λ known. known ≡ list_all (λ field. has_column columns.now field.source_id) fields.now) }
{
    if fields.is_empty() {
        return Ok(true);
    }
    let ids = ids_of(alloc, columns)?;
    Ok(has_sort_sources(&ids, fields))
}

fn has_partition_sources(ids: &IndexSet<u32>, fields: &[UnboundField]) -> bool
    ensures { result ≡ list_all (λ field. contains nat_eq ids.now field.source_id) fields.now }
{
    fields.iter().all(|field| ids.contains(&field.source_id))
}

fn has_sort_sources(ids: &IndexSet<u32>, fields: &[SortField]) -> bool
    ensures { result ≡ list_all (λ field. contains nat_eq ids.now field.source_id) fields.now }
{
    fields.iter().all(|field| ids.contains(&field.source_id))
}

/// Whether two of these fields are asked for with one id or one name.
#[tactic(auto, using(crate::proofs::CreationLemmas::twice_either))]
fn is_field_twice(alloc: Global, fields: &[UnboundField]) -> Result<bool, AllocError>
    ensures { IfOk result (λ twice. twice ≡ stands_twice is_same_field fields.now) }
{
    if is_id_twice(alloc, fields)? {
        return Ok(true);
    }
    is_name_twice(alloc, fields)
}

/// Whether two of these fields are asked for with one id.
fn is_id_twice(alloc: Global, fields: &[UnboundField]) -> Result<bool, AllocError>
    ensures { IfOk result (λ twice. twice ≡ stands_twice is_same_given fields.now) }
{
    let mut ids = IndexSet::new(alloc);
    for field in fields {
        if let Some(id) = field.field_id {
            if !ids.insert(id)? {
                return Ok(true);
            }
        }
    }
    Ok(false)
}

/// Whether two of these fields are asked for with one name.
fn is_name_twice(alloc: Global, fields: &[UnboundField]) -> Result<bool, AllocError>
    ensures { IfOk result (λ twice. twice ≡ stands_twice is_same_name fields.now) }
{
    let mut names = IndexSet::new(alloc);
    for field in fields {
        if !names.insert(field.name.clone()?)? {
            return Ok(true);
        }
    }
    Ok(false)
}

/// The highest id that fields are asked for with, at least 999.
fn highest_given(fields: &[UnboundField]) -> u32
    ensures { result ≡ highest_given fields.now }
{
    fields
        .iter()
        .filter_map(|field| field.field_id)
        .fold(999, |highest, id| highest.max(id))
}

/// How many fields are asked for without an id.
fn unnumbered(fields: &[UnboundField]) -> usize
    ensures { result ≡ unnumbered fields.now }
{
    fields
        .iter()
        .filter(|field| field.field_id.is_none())
        .count()
}

/// Judges what a table is asked for with, and tells above which id its partition fields get theirs.
#[tactic(auto, unfolding(crate::specs::Creation::create_refusal, crate::specs::Creation::spec_refusal, crate::specs::Creation::order_refusal))]
fn judge(
    alloc: Global,
    schema: &Schema,
    spec: &UnboundSpec,
    order: &UnboundOrder,
) -> Result<u32, CreateRefused>
    ensures highest { IfOk result (λ highest. highest ≡ highest_given spec.now.fields) }
    ensures bounded { OnOk result (highest_given spec.now.fields + unnumbered spec.now.fields ≤ 2147483647) }
    ensures passes { OnOk result (create_refusal schema.now spec.now order.now ≡ None) }
    ensures refused { IfErr result (IsCreateRefusal schema.now spec.now order.now) }
{
    let columns = schema.fields.as_slice();
    let fields = spec.fields.as_slice();
    if !are_partition_sources(alloc, columns, fields)? {
        return Err(CreateRefused::Refused {
            why: Why::NoSuchField,
        });
    }
    if is_field_twice(alloc, fields)? {
        return Err(CreateRefused::Refused {
            why: Why::FieldTwice,
        });
    }
    let highest = highest_given(fields);
    if highest as u64 + unnumbered(fields) as u64 > HIGHEST_ID {
        return Err(CreateRefused::Refused {
            why: Why::IdsUsedUp,
        });
    }
    if !are_sort_sources(alloc, columns, order.fields.as_slice())? {
        return Err(CreateRefused::Refused {
            why: Why::NoSuchField,
        });
    }
    Ok(highest)
}

/// A field with its id: its own, or this.
fn bound(field: UnboundField, id: u32) -> PartitionField
    ensures { result ≡ bound id field }
{
    PartitionField {
        source_id: field.source_id,
        field_id: id,
        name: field.name,
        transform: field.transform,
    }
}

/// Fields with their ids: those without get the next ones in turn, above this.
fn number(
    alloc: Global,
    fields: Vec<UnboundField>,
    highest: u32,
) -> Result<Vec<PartitionField>, AllocError>
    requires { highest + unnumbered fields.items ≤ 2147483647 }
    ensures { IfOk result (λ bound. bound.items ≡ numbered (highest + 1) fields.items) }
{
    let mut next = highest + 1;
    let mut numbered = Vec::with_capacity(alloc, fields.len())?;
    for field in fields {
        let id = field.field_id.unwrap_or(next);
        if field.field_id.is_none() {
            next += 1;
        }
        numbered.push(bound(field, id))?;
    }
    Ok(numbered)
}

/// The partition spec of a new table.
fn first_spec(alloc: Global, spec: UnboundSpec, highest: u32) -> Result<PartitionSpec, AllocError>
    requires given { highest ≡ highest_given spec.fields }
    requires bounded { highest_given spec.fields + unnumbered spec.fields ≤ 2147483647 }
    ensures { IfOk result (λ first. first ≡ first_spec spec) }
{
    let fields = number(alloc, spec.fields.into(), highest)?;
    Ok(PartitionSpec {
        spec_id: 0,
        fields: Listed::from(fields),
    })
}

/// The sort order of a new table.
fn first_order(order: UnboundOrder) -> SortOrder
    ensures { result ≡ first_order order }
{
    let order_id = if order.fields.is_empty() { 0 } else { 1 };
    SortOrder {
        order_id,
        fields: order.fields,
    }
}

fn last_column_id(columns: &[Column]) -> u32
    ensures { result ≡ highest 0 (column_ids columns.now) }
{
    columns
        .iter()
        .map(|column| column.id)
        .fold(0, |highest, id| highest.max(id))
}

fn last_partition_id(fields: &[PartitionField]) -> u32
    ensures { result ≡ highest 999 (field_ids fields.now) }
{
    fields
        .iter()
        .map(|field| field.field_id)
        .fold(999, |highest, id| highest.max(id))
}

/// The metadata of a new table whose parts have their ids.
fn assembled(
    alloc: Global,
    uuid: Uuid,
    location: Text,
    schema: Schema,
    spec: PartitionSpec,
    order: SortOrder,
    properties: Properties,
    moment: u64,
) -> Result<TableMetadata, AllocError>
    ensures { IfOk result (λ meta. meta ≡ assembled uuid location schema spec order properties moment) }
{
    let last_column_id = last_column_id(schema.fields.as_slice());
    let last_partition_id = last_partition_id(spec.fields.as_slice());
    let default_sort_order_id = order.order_id;
    let schemas = list_of_one(alloc, first_schema(schema))?;
    let partition_specs = list_of_one(alloc, spec)?;
    let sort_orders = list_of_one(alloc, order)?;
    Ok(TableMetadata {
        current_schema_id: 0,
        current_snapshot_id: None,
        default_sort_order_id,
        default_spec_id: 0,
        format_version: 2,
        last_column_id,
        last_partition_id,
        last_sequence_number: 0,
        last_updated_ms: moment,
        location,
        metadata_log: Listed::from(Vec::new(alloc)),
        partition_specs,
        properties,
        refs: Listed::from(Vec::new(alloc)),
        schemas,
        snapshot_log: Listed::from(Vec::new(alloc)),
        snapshots: Listed::from(Vec::new(alloc)),
        sort_orders,
        table_uuid: uuid,
    })
}

/// The schema of a new table.
pub fn first_schema(schema: Schema) -> Schema
    ensures { result ≡ first_schema schema }
{
    Schema {
        schema_id: 0,
        identifier_field_ids: schema.identifier_field_ids,
        fields: schema.fields,
    }
}

pub fn list_of_one<T: Drop>(alloc: Global, item: T) -> Result<Listed<T>, AllocError>
    ensures { IfOk result (λ list. list ≡ item ∷ []) }
{
    let mut items = Vec::with_capacity(alloc, 1)?;
    items.push_reserved(item);
    Ok(Listed::from(items))
}
