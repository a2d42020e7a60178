ghost use Rattle.std.specs.Prelude.{◌≡◌, ◌≤◌, ◌^◌, ◌||◌, IfOk, nat_eq, length, false, option_copied};
ghost use Rattle.std.specs.List.{list_all, list_any, find};
ghost use Rattle.std.specs.Option.{option_map};
ghost use Rattle.pol_meta.specs.Columns.{has_column};
ghost use Rattle.pol_meta.specs.Creation.{bound, is_same_name, stands_twice};
ghost use Rattle.pol_drafts.specs.Drafts.{Gives};
ghost use Rattle.pol_drafts.specs.Ids.{is_above};
ghost use Rattle.pol_drafts.specs.Partitions.{asked_fields, bound_fields, earlier_id, ids_of, is_as, judged_fields, known_id};

use crate::draft::{Draft, current_columns, has_column};
use crate::ids::is_above;
use crate::stop::Stop;
use indexmap::IndexSet;
use pol_meta::{Column, PartitionField, PartitionSpec, UnboundField, UnboundSpec, Why};
use pol_types::Listed;
use std::alloc::{AllocError, Global};

/// The id of the first field of a spec that has the source, name and transform of this one.
#[tactic(auto, using(crate::proofs::PartitionLemmas::earlier_past, crate::proofs::PartitionLemmas::earlier_here))]
fn earlier_id(field: &UnboundField, specs: &[PartitionSpec]) -> Option<u32>
    ensures { result ≡ earlier_id field.now specs.now }
{
    for spec in specs {
        if let Some(id) = id_in(field, spec.fields.as_slice()) {
            return Some(id);
        }
    }
    None
}

/// The id of the first of these fields that has the source, name and transform of this one.
fn id_in(wanted: &UnboundField, fields: &[PartitionField]) -> Option<u32>
    ensures { result ≡ option_map (λ field. field.field_id) (find (is_as wanted.now) fields.now) }
{
    let same = field_as(wanted, fields)?;
    Some(same.field_id)
}

/// The first of these fields that has the source, name and transform of this one.
fn field_as<'a>(wanted: &UnboundField, fields: &'a [PartitionField]) -> Option<&'a PartitionField>
    ensures { option_copied result ≡ find (is_as wanted.now) fields.now }
{
    fields.iter().find(|field| is_as(wanted, field))
}

/// Whether a field that is asked for has the source, name and transform of one that is there.
fn is_as(wanted: &UnboundField, field: &PartitionField) -> bool
    ensures { result ≡ is_as wanted.now field.now }
{
    field.source_id == wanted.source_id
        && field.name == wanted.name
        && field.transform == wanted.transform
}

fn known_id(specs: &[PartitionSpec], field: &UnboundField) -> Option<u64>
    ensures { result ≡ known_id specs.now field.now }
{
    let id = field.field_id.or(earlier_id(field, specs))?;
    Some(id as u64)
}

/// The fields of a spec that is asked for, where they may be those of one.
#[tactic(auto, unfolding(crate::specs::Partitions::asked_fields))]
pub fn asked_fields(
    alloc: Global,
    draft: &Draft,
    spec: &UnboundSpec,
) -> Result<Listed<PartitionField>, Stop>
    ensures { Gives (asked_fields spec.now draft.now) result }
{
    let fields = spec.fields.as_slice();
    let next = draft.meta.last_partition_id as u64 + 1;
    let ids = ids_of(alloc, draft.meta.partition_specs.as_slice(), next, fields)?;
    judged_fields(alloc, current_columns(&draft.meta), ids.as_slice(), fields)
}

/// The ids of fields: those without one get the next ones in turn.
#[tactic(auto, using(crate::proofs::PartitionLemmas::ids_past))]
fn ids_of(
    alloc: Global,
    specs: &[PartitionSpec],
    next: u64,
    fields: &[UnboundField],
) -> Result<Vec<u64>, AllocError>
    requires { next ≤ 2 ^ 32 }
    ensures ids { IfOk result (λ ids. ids.items ≡ ids_of specs.now next fields.now) }
    ensures count { IfOk result (λ ids. length ids.items ≡ length fields.now) }
{
    let mut next = next;
    let mut ids = Vec::with_capacity(alloc, fields.len())?;
    for field in fields {
        let known = known_id(specs, field);
        let id = known.unwrap_or(next);
        if known.is_none() {
            next += 1;
        }
        ids.push(id)?;
    }
    Ok(ids)
}

/// Fields with these ids, where they may be those of a spec of a table with these columns.
fn judged_fields(
    alloc: Global,
    columns: &[Column],
    ids: &[u64],
    fields: &[UnboundField],
) -> Result<Listed<PartitionField>, Stop>
    requires { length ids.now ≡ length fields.now }
    ensures { Gives (judged_fields columns.now ids.now fields.now) result }
{
    if !are_sources(columns, fields) {
        return Err(Stop::Refused(Why::NoSuchField));
    }
    if is_field_twice(alloc, ids, fields)? {
        return Err(Stop::Refused(Why::FieldTwice));
    }
    if is_one_above(ids) {
        return Err(Stop::Refused(Why::IdsUsedUp));
    }
    Ok(bound_fields(alloc, ids, fields)?)
}

/// Whether an id or a name stands twice.
fn is_field_twice(alloc: Global, ids: &[u64], fields: &[UnboundField]) -> Result<bool, AllocError>
    ensures { IfOk result (λ twice. twice ≡ (stands_twice nat_eq ids.now || stands_twice is_same_name fields.now)) }
{
    if is_id_twice(alloc, ids)? {
        return Ok(true);
    }
    is_name_twice(alloc, fields)
}

/// Whether the sources of all these fields are columns.
fn are_sources(columns: &[Column], fields: &[UnboundField]) -> bool
    ensures { result ≡ list_all (λ field. has_column columns.now field.source_id) fields.now }
{
    fields
        .iter()
        .all(|field| has_column(columns, field.source_id))
}

/// Whether one of these ids is above the highest that there may be.
fn is_one_above(ids: &[u64]) -> bool
    ensures { result ≡ list_any is_above ids.now }
{
    ids.iter().any(|id| is_above(*id))
}

/// Whether an id stands twice.
fn is_id_twice(alloc: Global, ids: &[u64]) -> Result<bool, AllocError>
    ensures { IfOk result (λ twice. twice ≡ stands_twice nat_eq ids.now) }
{
    let mut seen = IndexSet::new(alloc);
    for id in ids {
        if !seen.insert(*id)? {
            return Ok(true);
        }
    }
    Ok(false)
}

/// Whether a name stands twice.
fn is_name_twice(alloc: Global, fields: &[UnboundField]) -> Result<bool, AllocError>
    ensures { IfOk result (λ twice. twice ≡ stands_twice is_same_name fields.now) }
{
    let mut names = IndexSet::new(alloc);
    for field in fields {
        if !names.insert(field.name.clone()?)? {
            return Ok(true);
        }
    }
    Ok(false)
}

/// Fields with these ids.
#[tactic(auto, using(crate::proofs::PartitionLemmas::bound_past, crate::proofs::PartitionLemmas::ids_within))]
fn bound_fields(
    alloc: Global,
    ids: &[u64],
    fields: &[UnboundField],
) -> Result<Listed<PartitionField>, AllocError>
    requires count { length ids.now ≡ length fields.now }
    requires within { list_any is_above ids.now ≡ false }
    ensures { IfOk result (λ made. made ≡ bound_fields ids.now fields.now) }
{
    let mut made = Vec::with_capacity(alloc, fields.len())?;
    for (place, field) in fields.iter().enumerate() {
        made.push(bound(field, ids[place] as u32)?)?;
    }
    Ok(Listed::from(made))
}

fn bound(field: &UnboundField, id: u32) -> Result<PartitionField, AllocError>
    ensures { IfOk result (λ made. made ≡ bound id field.now) }
{
    Ok(PartitionField {
        source_id: field.source_id,
        field_id: id,
        name: field.name.clone()?,
        transform: field.transform,
    })
}
