//! The ids that the members of a metadata are known by.
ghost use Rattle.std.specs.Prelude.{◌≡◌, IfOk};
ghost use Rattle.pol_meta.specs.Columns.{column_ids};
ghost use Rattle.pol_meta.specs.Valid as valid;
ghost use Rattle.pol_metacodec.specs.Whole.{is_among};

use pol_meta::{Column, PartitionSpec, Schema, Snapshot, SortOrder};
use pol_types::OutOfMemory;
use std::alloc::Global;

pub(crate) fn column_ids(alloc: Global, columns: &[Column]) -> Result<Vec<u32>, OutOfMemory>
    ensures { IfOk result (λ ids. ids.items ≡ column_ids columns.now) }
{
    Ok(columns.iter().map(|column| column.id).collect(alloc)?)
}

#[tactic(auto, using(crate::proofs::IdLemmas::ids_more))]
pub fn schema_ids(alloc: Global, schemas: &[Schema]) -> Result<Vec<u32>, OutOfMemory>
    ensures { IfOk result (λ ids. ids.items ≡ valid.schema_ids schemas.now) }
{
    let mut ids = Vec::new(alloc);
    for schema in schemas {
        ids.push(schema.schema_id)?;
    }
    Ok(ids)
}

pub(crate) fn spec_ids(alloc: Global, specs: &[PartitionSpec]) -> Result<Vec<u32>, OutOfMemory>
    ensures { IfOk result (λ ids. ids.items ≡ valid.spec_ids specs.now) }
{
    Ok(specs.iter().map(|spec| spec.spec_id).collect(alloc)?)
}

pub(crate) fn order_ids(alloc: Global, orders: &[SortOrder]) -> Result<Vec<u32>, OutOfMemory>
    ensures { IfOk result (λ ids. ids.items ≡ valid.order_ids orders.now) }
{
    Ok(orders.iter().map(|order| order.order_id).collect(alloc)?)
}

pub(crate) fn snapshot_ids(alloc: Global, snapshots: &[Snapshot]) -> Result<Vec<u64>, OutOfMemory>
    ensures { IfOk result (λ ids. ids.items ≡ valid.snapshot_ids snapshots.now) }
{
    Ok(
        snapshots
            .iter()
            .map(|snapshot| snapshot.snapshot_id)
            .collect(alloc)?,
    )
}

/// Whether an id is among others.
#[tactic(auto, using(crate::proofs::IdLemmas::among_others))]
pub fn is_among(ids: &[u32], id: u32) -> bool
    ensures { result ≡ is_among ids.now id }
{
    ids.contains(&id)
}
