ghost use Rattle.std.specs.Prelude.{◌≡◌, not, filter, OnOk, option_copied};
ghost use Rattle.std.specs.List.{find};
ghost use Rattle.pol_meta.specs.Creation.{field_ids, highest};
ghost use Rattle.pol_meta.specs.Valid.{spec_ids};
ghost use Rattle.pol_drafts.specs.Drafts.{Becomes};
ghost use Rattle.pol_drafts.specs.Ids.{chosen, given, has_id, next_id};
ghost use Rattle.pol_drafts.specs.Partitions.{add_spec, is_spec_of, noted_spec, remove_specs, same_spec_id};
ghost use Rattle.pol_drafts.specs.Partitions.{set_default_spec, with_spec};

use crate::draft::Draft;
use crate::ids::{has_id, next_after, still_last};
use crate::lists::{push, taken};
use crate::member::MemberId;
use crate::partition_fields::asked_fields;
use crate::stop::Stop;
use pol_meta::{PartitionField, PartitionSpec, UnboundSpec, Why};
use pol_types::{Listed, OutOfMemory};
use std::alloc::Global;

/// Adds a partition spec, or finds the first that has the same fields. A field without an id gets that of the first
/// field of a spec that has its source, name and transform, else the next one.
#[tactic(auto, unfolding(crate::specs::Partitions::add_spec))]
pub fn add_spec(alloc: Global, draft: &mut Draft, spec: &UnboundSpec) -> Result<(), Stop>
    ensures { Becomes (add_spec spec.now draft.old) result draft.new }
{
    let fields = asked_fields(alloc, draft, spec)?;
    if let Some(id) = same_spec_id(&fields, draft.meta.partition_specs.as_slice()) {
        note_spec(draft, id, fields.as_slice());
        return Ok(());
    }
    let id = next_spec_id(draft.meta.partition_specs.as_slice())?;
    Ok(add_numbered_spec(alloc, draft, id, fields)?)
}

/// Makes the spec that is named the default one.
#[tactic(auto, unfolding(crate::specs::Partitions::set_default_spec))]
pub fn set_default_spec(draft: &mut Draft, member: MemberId) -> Result<(), Stop>
    ensures { Becomes (set_default_spec member draft.old) result draft.new }
{
    let id = chosen_spec(draft, member)?;
    draft.meta.default_spec_id = id;
    Ok(())
}

/// Removes the specs of these ids.
#[tactic(auto, unfolding(crate::specs::Partitions::remove_specs))]
pub fn remove_specs(alloc: Global, draft: &mut Draft, ids: &[u32]) -> Result<(), Stop>
    ensures { Becomes (remove_specs ids.now draft.old) result draft.new }
{
    if has_id(ids, draft.meta.default_spec_id) {
        return Err(Stop::Refused(Why::InUse));
    }
    let specs = taken(alloc, &mut draft.meta.partition_specs);
    draft.meta.partition_specs = Listed::from(specs_left(specs, ids));
    draft.last_spec = still_last(ids, draft.last_spec);
    Ok(())
}

fn specs_left(specs: Vec<PartitionSpec>, gone: &[u32]) -> Vec<PartitionSpec>
    ensures { result.items ≡ filter (λ spec. not (has_id spec.spec_id gone.now)) specs.items }
{
    let mut left = specs;
    left.retain(|spec| !has_id(gone, spec.spec_id));
    left
}

#[tactic(auto, unfolding(crate::specs::Ids::chosen))]
fn chosen_spec(draft: &Draft, member: MemberId) -> Result<u32, Why>
    ensures { result ≡ chosen member draft.now.last_spec (spec_ids draft.now.meta.partition_specs) }
{
    match member {
        MemberId::LastAdded => draft.last_spec.ok_or(Why::NoneAdded),
        MemberId::Id { id } => {
            if has_spec(draft.meta.partition_specs.as_slice(), id) {
                Ok(id)
            } else {
                Err(Why::NoSuchId)
            }
        }
    }
}

fn has_spec(specs: &[PartitionSpec], id: u32) -> bool
    ensures { result ≡ has_id id (spec_ids specs.now) }
{
    specs
        .iter()
        .map(|spec| spec.spec_id)
        .any(|other| other == id)
}

/// The id of the first spec that has the same fields.
fn same_spec_id(fields: &Listed<PartitionField>, specs: &[PartitionSpec]) -> Option<u32>
    ensures { result ≡ same_spec_id fields.now specs.now }
{
    let same = same_spec(fields, specs)?;
    Some(same.spec_id)
}

/// The first spec that has the same fields.
fn same_spec<'a>(
    fields: &Listed<PartitionField>,
    specs: &'a [PartitionSpec],
) -> Option<&'a PartitionSpec>
    ensures { option_copied result ≡ find (is_spec_of fields.now) specs.now }
{
    specs.iter().find(|spec| is_spec_of(fields, spec))
}

/// Whether a spec has these fields.
fn is_spec_of(fields: &Listed<PartitionField>, spec: &PartitionSpec) -> bool
    ensures { result ≡ is_spec_of fields.now spec.now }
{
    spec.fields == *fields
}

/// The id after those of these specs.
fn next_spec_id(specs: &[PartitionSpec]) -> Result<u32, Why>
    ensures { result ≡ given (next_id (spec_ids specs.now)) }
{
    next_after(
        specs
            .iter()
            .map(|spec| spec.spec_id)
            .fold(0, |highest, id| highest.max(id)),
    )
}

/// Adds a spec under an id that is new.
fn add_numbered_spec(
    alloc: Global,
    draft: &mut Draft,
    id: u32,
    fields: Listed<PartitionField>,
) -> Result<(), OutOfMemory>
    ensures { OnOk result (draft.new ≡ with_spec id fields draft.old) }
{
    note_spec(draft, id, fields.as_slice());
    let spec = PartitionSpec {
        spec_id: id,
        fields,
    };
    push(alloc, &mut draft.meta.partition_specs, spec)?;
    Ok(())
}

/// Notes a spec of this id as the last added.
fn note_spec(draft: &mut Draft, id: u32, fields: &[PartitionField])
    ensures { draft.new ≡ noted_spec id fields.now draft.old }
{
    let last = draft.meta.last_partition_id;
    draft.meta.last_partition_id = last_partition_id(last, fields);
    draft.last_spec = Some(id);
}

/// The highest id of a partition field, no less than the last one.
fn last_partition_id(last: u32, fields: &[PartitionField]) -> u32
    ensures { result ≡ highest last (field_ids fields.now) }
{
    fields
        .iter()
        .map(|field| field.field_id)
        .fold(last, |highest, id| highest.max(id))
}
