//! Whether the members of a metadata have ids of their own, and what it names is there.
ghost use Rattle.std.specs.Prelude.{◌≡◌, ◌&&◌, ℕ, IfOk, codes, nat_eq};
ghost use Rattle.std.specs.List.{list_all};
ghost use Rattle.indexmap.specs.IndexSet.{contains};
ghost use Rattle.pol_meta.specs.Valid.{snapshot_ids, snapshot_named};
ghost use Rattle.pol_metacodec.specs.Whole as spec;

use crate::ids::{is_among, order_ids, schema_ids, snapshot_ids, spec_ids};
use indexmap::IndexSet;
use pol_columncodec::differ;
use pol_meta::{NamedRef, TableMetadata};
use pol_types::OutOfMemory;
use std::alloc::Global;

/// Whether references are in order, ids differ, and what is named is there.
pub(crate) fn is_whole(alloc: Global, meta: &TableMetadata) -> Result<bool, OutOfMemory>
    ensures { IfOk result (λ whole. whole ≡ spec.is_whole meta.now) }
{
    if !names_ascend(meta.refs.as_slice()) {
        return Ok(false);
    }
    if !has_own_ids(alloc, meta)? {
        return Ok(false);
    }
    names_members(alloc, meta)
}

/// Whether the members of each kind have ids of their own.
fn has_own_ids(alloc: Global, meta: &TableMetadata) -> Result<bool, OutOfMemory>
    ensures { IfOk result (λ own. own ≡ spec.has_own_ids meta.now) }
{
    if !differ(alloc, schema_ids(alloc, meta.schemas.as_slice())?)? {
        return Ok(false);
    }
    if !differ(alloc, spec_ids(alloc, meta.partition_specs.as_slice())?)? {
        return Ok(false);
    }
    if !differ(alloc, order_ids(alloc, meta.sort_orders.as_slice())?)? {
        return Ok(false);
    }
    differ(alloc, snapshot_ids(alloc, meta.snapshots.as_slice())?)
}

/// Whether what is named is there, and the current snapshot is that of `main`.
fn names_members(alloc: Global, meta: &TableMetadata) -> Result<bool, OutOfMemory>
    ensures { IfOk result (λ names. names ≡ spec.names_members meta.now) }
{
    let schemas = schema_ids(alloc, meta.schemas.as_slice())?;
    if !is_among(&schemas, meta.current_schema_id) {
        return Ok(false);
    }
    let specs = spec_ids(alloc, meta.partition_specs.as_slice())?;
    if !is_among(&specs, meta.default_spec_id) {
        return Ok(false);
    }
    let orders = order_ids(alloc, meta.sort_orders.as_slice())?;
    if !is_among(&orders, meta.default_sort_order_id) {
        return Ok(false);
    }
    names_snapshots(alloc, meta)
}

/// Whether the snapshots that are named are there, and the current one is that of `main`.
fn names_snapshots(alloc: Global, meta: &TableMetadata) -> Result<bool, OutOfMemory>
    ensures { IfOk result (λ names. names ≡ (list_all (spec.names_snapshot meta.now) meta.now.refs
        && spec.is_same meta.now.current_snapshot_id (snapshot_named (codes "main") meta.now.refs))) }
{
    if !has_snapshots(alloc, meta)? {
        return Ok(false);
    }
    Ok(has_current(meta))
}

/// Whether the snapshots that references name are there.
fn has_snapshots(alloc: Global, meta: &TableMetadata) -> Result<bool, OutOfMemory>
    ensures { IfOk result (λ names. names ≡ list_all (spec.names_snapshot meta.now) meta.now.refs) }
{
    let ids = snapshots_known(alloc, meta)?;
    Ok(are_named(&ids, meta))
}

fn snapshots_known(alloc: Global, meta: &TableMetadata) -> Result<IndexSet<u64>, OutOfMemory>
    ensures { IfOk result (λ ids. (id : ℕ)
        → contains nat_eq ids id ≡ spec.is_among (snapshot_ids meta.now.snapshots) id) }
{
    let ids = snapshot_ids(alloc, meta.snapshots.as_slice())?;
    Ok(ids.into_iter().collect(alloc)?)
}

fn are_named(ids: &IndexSet<u64>, meta: &TableMetadata) -> bool
    ensures { result ≡ list_all (λ named. contains nat_eq ids.now named.reference.snapshot_id) meta.now.refs }
{
    let refs = meta.refs.as_slice();
    refs.iter()
        .all(|named| ids.contains(&named.reference.snapshot_id))
}

/// Whether each name is below the next.
fn names_ascend(refs: &[NamedRef]) -> bool
    ensures { result ≡ spec.names_ascend refs.now }
{
    for i in 1..refs.len() {
        if !is_below(&refs[i - 1], &refs[i]) {
            return false;
        }
    }
    true
}

fn is_below(left: &NamedRef, right: &NamedRef) -> bool
    ensures { result ≡ spec.is_below left.now right.now }
{
    left.name < right.name
}

/// Whether the current snapshot is that of `main`.
fn has_current(meta: &TableMetadata) -> bool
    ensures { result ≡ spec.is_same meta.now.current_snapshot_id (snapshot_named (codes "main") meta.now.refs) }
{
    is_same(
        meta.current_snapshot_id,
        main_snapshot(meta.refs.as_slice()),
    )
}

fn main_snapshot(refs: &[NamedRef]) -> Option<u64>
    ensures { result ≡ snapshot_named (codes "main") refs.now }
{
    let main = refs.iter().find(|named| named.name.as_str() == "main")?;
    Some(main.reference.snapshot_id)
}

fn is_same(left: Option<u64>, right: Option<u64>) -> bool
    ensures { result ≡ spec.is_same left right }
{
    match (left, right) {
        (None, None) => true,
        (Some(one), Some(other)) => one == other,
        (None, Some(_)) | (Some(_), None) => false,
    }
}
