//! Whole metadata are printed.
ghost use Rattle.std.specs.Prelude.{◌≡◌, ◌≤◌, false, IfOk};
ghost use Rattle.serde_json.specs.Data.{depth, object};
ghost use Rattle.serde_json.specs.Read.{max_depth};
ghost use Rattle.serde_json.specs.View.{members_view, view};
ghost use Rattle.serde_json.specs.Written.{has_float};
ghost use Rattle.pol_views.specs.Valid.{HasViewForms};
ghost use Rattle.pol_viewjson.specs.Json as spec;

use crate::keys;
use crate::part::list;
use pol_metakeys::keys as meta_keys;
use pol_metaprint::members::{Members, none, pairs, with, with_number, with_text};
use pol_metaprint::{list as schemas_list, uuid_text};
use pol_types::OutOfMemory;
use pol_views::ViewMetadata;
use serde_json::Value;
use std::alloc::Global;

/// The JSON of a view's metadata, in which no number is a float. Where the metadata's parts have their forms, it nests
/// no deeper than JSON that is read may.
#[tactic(auto, using(crate::proofs::WholeLemmas::view_whole, crate::proofs::DepthLemmas::view_nests))]
pub fn view_value(alloc: Global, meta: &ViewMetadata) -> Result<Value, OutOfMemory>
    ensures json { IfOk result (λ value. view value ≡ spec.view_json meta.now) }
    ensures whole { IfOk result (λ value. has_float (view value) ≡ false) }
    ensures nests { HasViewForms meta.now → IfOk result (λ value. depth (view value) ≤ max_depth) }
{
    let members = all_members(alloc, meta)?;
    Ok(Value::from(members))
}

/// The members of a metadata.
#[tactic(auto, unfolding(crate::specs::Json::view_json))]
fn all_members(alloc: Global, meta: &ViewMetadata) -> Result<Members, OutOfMemory>
    ensures { IfOk result (λ all. object (members_view all.entries) ≡ spec.view_json meta.now) }
{
    let members = with_view(alloc, none(alloc), meta)?;
    with_versions(alloc, members, meta)
}

/// The members, and what a metadata is of.
#[tactic(auto, unfolding(crate::specs::Json::put_view))]
fn with_view(alloc: Global, members: Members, meta: &ViewMetadata) -> Result<Members, OutOfMemory>
    ensures { IfOk result (λ all. members_view all.entries ≡ spec.put_view meta.now (members_view members.entries)) }
{
    let properties = pairs(alloc, &meta.properties)?;
    let uuid = uuid_text(alloc, meta.view_uuid)?;
    let members = with_text(alloc, members, meta_keys::LOCATION, meta.location.as_str())?;
    let members = with(alloc, members, meta_keys::PROPERTIES, properties)?;
    with_text(alloc, members, keys::VIEW_UUID, uuid.as_str())
}

/// The members, and the versions of a metadata and what is told of them.
#[tactic(auto, unfolding(crate::specs::Json::put_versions))]
fn with_versions(
    alloc: Global,
    members: Members,
    meta: &ViewMetadata,
) -> Result<Members, OutOfMemory>
    ensures { IfOk result (λ all. members_view all.entries
        ≡ spec.put_versions meta.now (members_view members.entries)) }
{
    let current = meta.current_version_id as u64;
    let format = meta.format_version as u64;
    let schemas = schemas_list(alloc, meta.schemas.as_slice())?;
    let version_log = list(alloc, meta.version_log.as_slice())?;
    let versions = list(alloc, meta.versions.as_slice())?;
    let members = with_number(alloc, members, keys::CURRENT_VERSION_ID, current)?;
    let members = with_number(alloc, members, meta_keys::FORMAT_VERSION, format)?;
    let members = with(alloc, members, meta_keys::SCHEMAS, schemas)?;
    let members = with(alloc, members, keys::VERSION_LOG, version_log)?;
    with(alloc, members, keys::VERSIONS, versions)
}
