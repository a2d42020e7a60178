//! Weights of metadata, and of the parts that those of tables and views share.
ghost use Rattle.std.specs.Prelude.{◌≡◌, ◌<◌, ◌^◌, ℕ, ◌+◌, ◌*◌, length, option_copied, sum_by};
ghost use Rattle.std.specs.Option.{option_map_or};
ghost use Rattle.pol_meta.specs.Weight.{capped, column_weight, log_entry_weight, metadata_weight, named_ref_weight, pair_weight, pairs_weight, part_weight, partition_field_weight, partition_spec_weight, properties_weight, schema_weight, snapshot_weight, sort_order_weight};

use crate::{
    Column, MetadataLogEntry, NamedRef, Part, PartitionField, PartitionSpec, Schema, Snapshot,
    SortOrder, TableMetadata,
};
use pol_properties::{Properties, Property};
use pol_types::Text;

impl TableMetadata {
    /// The lengths of all texts of this metadata, and 64 for each field of a schema, of a partition spec and of a sort
    /// order, for each snapshot, reference, entry of a log and property; 2^64 - 1 where the sum is above it. The
    /// metadata of a new table weighs as much as what the table is asked for with. Updates that weigh at most 2^32 make
    /// of a metadata of at most 2^32 one of at most 2^40 (`pol_updatelaws`). So the weight of each of these is exact.
    #[tactic(auto, unfolding(crate::specs::Weight::capped))]
    pub fn weight(&self) -> u64
        ensures value { result ≡ capped (metadata_weight self.now) }
        ensures exact { metadata_weight self.now < 2 ^ 64 → result ≡ metadata_weight self.now }
    {
        of_metadata(self)
    }
}

fn of_metadata(meta: &TableMetadata) -> u64
    ensures { result ≡ capped (metadata_weight meta.now) }
{
    let weight = plus(
        of_text(&meta.location),
        of_all(meta.metadata_log.as_slice()),
    );
    let weight = plus(weight, of_all(meta.partition_specs.as_slice()));
    let weight = plus(weight, of_properties(&meta.properties));
    let weight = plus(weight, of_all(meta.refs.as_slice()));
    let weight = plus(weight, of_all(meta.schemas.as_slice()));
    let weight = plus(weight, of_items(meta.snapshot_log.len()));
    let weight = plus(weight, of_all(meta.snapshots.as_slice()));
    plus(weight, of_all(meta.sort_orders.as_slice()))
}

/// A part of a metadata that weighs something.
pub trait Weighs {
    ghost weight: { Self → ℕ };

    fn weight(&self) -> u64
        ensures { result ≡ capped (weight self.now) };
}

impl Weighs for Part {
    ghost weight = { part_weight };

    fn weight(&self) -> u64 {
        match self {
            Part::Field { name, doc, .. } => plus(of_text(name), of_optional(doc.as_ref())),
            _ => nothing(),
        }
    }
}

impl Weighs for Property {
    ghost weight = { pair_weight };

    fn weight(&self) -> u64 {
        plus(of_text(&self.key), of_text(&self.value))
    }
}

impl Weighs for Column {
    ghost weight = { column_weight };

    fn weight(&self) -> u64 {
        plus(of_item(), self.part.weight())
    }
}

impl Weighs for Schema {
    ghost weight = { schema_weight };

    fn weight(&self) -> u64 {
        of_all(self.fields.as_slice())
    }
}

impl Weighs for PartitionField {
    ghost weight = { partition_field_weight };

    fn weight(&self) -> u64 {
        plus(of_item(), of_text(&self.name))
    }
}

impl Weighs for PartitionSpec {
    ghost weight = { partition_spec_weight };

    fn weight(&self) -> u64 {
        of_all(self.fields.as_slice())
    }
}

impl Weighs for SortOrder {
    ghost weight = { sort_order_weight };

    fn weight(&self) -> u64 {
        of_items(self.fields.len())
    }
}

impl Weighs for Snapshot {
    ghost weight = { snapshot_weight };

    fn weight(&self) -> u64 {
        plus(
            plus(of_item(), of_text(&self.manifest_list)),
            of_pairs(&self.summary),
        )
    }
}

impl Weighs for NamedRef {
    ghost weight = { named_ref_weight };

    fn weight(&self) -> u64 {
        plus(of_item(), of_text(&self.name))
    }
}

impl Weighs for MetadataLogEntry {
    ghost weight = { log_entry_weight };

    fn weight(&self) -> u64 {
        plus(of_item(), of_text(&self.metadata_file))
    }
}

/// The sum of two weights.
#[tactic(auto, unfolding(crate::specs::Weight::capped))]
pub fn plus(left: u64, right: u64) -> u64
    ensures { (x y : ℕ) → left ≡ capped x → right ≡ capped y → result ≡ capped (x + y) }
{
    left.saturating_add(right)
}

#[tactic(auto, unfolding(crate::specs::Weight::capped))]
pub fn nothing() -> u64
    ensures { result ≡ capped 0 }
{
    0
}

/// What anything that counts by itself weighs.
#[tactic(auto, unfolding(crate::specs::Weight::capped))]
fn of_item() -> u64
    ensures { result ≡ capped 64 }
{
    64
}

#[tactic(auto, unfolding(crate::specs::Weight::capped))]
pub fn of_items(count: usize) -> u64
    ensures { result ≡ capped (64 * count) }
{
    (count as u64).saturating_mul(64)
}

#[tactic(auto, unfolding(crate::specs::Weight::capped))]
pub fn of_text(text: &Text) -> u64
    ensures { result ≡ capped (length text.now) }
{
    text.len() as u64
}

pub fn of_optional(text: Option<&Text>) -> u64
    ensures { result ≡ capped (option_map_or length (option_copied text.entry) 0) }
{
    match text {
        Some(text) => of_text(text),
        None => nothing(),
    }
}

/// The texts of pairs.
pub fn of_pairs(pairs: &Properties) -> u64
    ensures { result ≡ capped (pairs_weight pairs.now) }
{
    of_all(pairs.iter().as_slice())
}

pub fn of_properties(properties: &Properties) -> u64
    ensures { result ≡ capped (properties_weight properties.now) }
{
    plus(of_items(properties.len()), of_pairs(properties))
}

pub fn of_all<T: Weighs>(items: &[T]) -> u64
    ensures { result ≡ capped (sum_by T.weight items.now) }
{
    let mut weight = nothing();
    for item in items {
        weight = plus(weight, item.weight());
    }
    weight
}
