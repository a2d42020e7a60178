//! Whether the members of a view's metadata have ids of their own, and what it names is there.
ghost use Rattle.std.specs.Prelude.{◌≡◌, ◌&&◌, ℕ, IfOk, nat_eq};
ghost use Rattle.std.specs.List.{list_all};
ghost use Rattle.indexmap.specs.IndexSet.{contains};
ghost use Rattle.pol_meta.specs.Valid.{schema_ids};
ghost use Rattle.pol_metacodec.specs.Whole as whole;
ghost use Rattle.pol_views.specs.Valid.{version_ids};
ghost use Rattle.pol_viewcodec.specs.Views as spec;

use indexmap::IndexSet;
use pol_columncodec::differ;
use pol_metacodec::{is_among, schema_ids};
use pol_types::OutOfMemory;
use pol_views::{ViewMetadata, ViewVersion};
use std::alloc::Global;

/// Whether ids differ, and what is named is there.
pub(crate) fn is_whole_view(alloc: Global, meta: &ViewMetadata) -> Result<bool, OutOfMemory>
    ensures { IfOk result (λ whole. whole ≡ spec.is_whole_view meta.now) }
{
    if !differ(alloc, schema_ids(alloc, meta.schemas.as_slice())?)? {
        return Ok(false);
    }
    if !differ(alloc, version_ids(alloc, meta.versions.as_slice())?)? {
        return Ok(false);
    }
    names_members(alloc, meta)
}

/// Whether the current version is there, and the schema of each version.
fn names_members(alloc: Global, meta: &ViewMetadata) -> Result<bool, OutOfMemory>
    ensures { IfOk result (λ names. names ≡ (whole.is_among (version_ids meta.now.versions) meta.now.current_version_id
        && list_all (spec.has_schema meta.now) meta.now.versions)) }
{
    let versions = version_ids(alloc, meta.versions.as_slice())?;
    if !is_among(&versions, meta.current_version_id) {
        return Ok(false);
    }
    has_schemas(alloc, meta)
}

#[tactic(auto, using(crate::proofs::IdLemmas::ids_more))]
fn version_ids(alloc: Global, versions: &[ViewVersion]) -> Result<Vec<u32>, OutOfMemory>
    ensures { IfOk result (λ ids. ids.items ≡ version_ids versions.now) }
{
    let mut ids = Vec::new(alloc);
    for version in versions {
        ids.push(version.version_id)?;
    }
    Ok(ids)
}

/// Whether the schema of each version is there.
fn has_schemas(alloc: Global, meta: &ViewMetadata) -> Result<bool, OutOfMemory>
    ensures { IfOk result (λ there. there ≡ list_all (spec.has_schema meta.now) meta.now.versions) }
{
    let ids = schemas_known(alloc, meta)?;
    Ok(are_named(&ids, meta))
}

fn schemas_known(alloc: Global, meta: &ViewMetadata) -> Result<IndexSet<u32>, OutOfMemory>
    ensures { IfOk result (λ ids. (id : ℕ)
        → contains nat_eq ids id ≡ whole.is_among (schema_ids meta.now.schemas) id) }
{
    let ids = schema_ids(alloc, meta.schemas.as_slice())?;
    Ok(ids.into_iter().collect(alloc)?)
}

fn are_named(ids: &IndexSet<u32>, meta: &ViewMetadata) -> bool
    ensures { result ≡ list_all (λ version. contains nat_eq ids.now version.schema_id) meta.now.versions }
{
    let versions = meta.versions.as_slice();
    versions
        .iter()
        .all(|version| ids.contains(&version.schema_id))
}
