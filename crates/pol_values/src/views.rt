//! What the body that creates a view makes, what metadata of views are read as, and what a commit makes of one.
ghost use Rattle.std.specs.Prelude.{◌≡◌, IfOk, string_bytes};
ghost use Rattle.serde_json.specs.Written.{compact_text};
ghost use Rattle.pol_viewjson.specs.Json.{view_json};
ghost use Rattle.pol_values.specs.Views as spec;

use crate::tables::{CREATED, location_of, made_uuid};
use crate::unread::Unread;
use pol_readers::ReadError;
use pol_types::OutOfMemory;
use pol_updates::ApplyRefused;
use pol_viewjson::{read_create_view, read_view, read_view_commit, view_text};
use pol_views::{CreateView, ViewCommit, ViewMetadata, ViewUpdate, apply_view, first_unmet_view};
use std::alloc::Global;

/// The moment of a commit, in milliseconds since the Unix epoch.
const MOMENT: u64 = 2000;

/// How the body of a view is told: by the metadata that it makes, or by its first bad field.
pub(crate) fn view(alloc: Global, body: &str) -> Result<String, Unread>
    ensures { IfOk result (λ told. spec.TellsView body.now (string_bytes told)) }
{
    match read_create_view(alloc, body.as_bytes()) {
        Ok(request) => request_text(alloc, request),
        Err(ReadError::Field(path)) => Ok(format!(in alloc; "Unreadable: {path}")?),
        Err(ReadError::OutOfMemory) => Err(Unread::NoMemory),
    }
}

/// How a metadata of a view is told: by the JSON that it is printed as, or by its first bad field.
pub(crate) fn view_metadata(alloc: Global, text: &str) -> Result<String, Unread>
    ensures { IfOk result (λ told. spec.TellsViewMetadata text.now (string_bytes told)) }
{
    match read_view(alloc, text.as_bytes()) {
        Ok(meta) => metadata_text(alloc, &meta),
        Err(ReadError::Field(path)) => Ok(format!(in alloc; "Unreadable: {path}")?),
        Err(ReadError::OutOfMemory) => Err(Unread::NoMemory),
    }
}

/// How a commit to a metadata of a view is told: by the metadata after it, by its first bad field, or by what stands
/// against it.
pub(crate) fn view_commit(alloc: Global, meta: &str, body: &str) -> Result<String, Unread>
    ensures { IfOk result (λ told. spec.TellsViewCommit meta.now body.now (string_bytes told)) }
{
    match read_view(alloc, meta.as_bytes()) {
        Ok(meta) => body_text(alloc, &meta, body),
        Err(ReadError::Field(_)) => Err(Unread::Form),
        Err(ReadError::OutOfMemory) => Err(Unread::NoMemory),
    }
}

/// How the body of a commit is told.
fn body_text(alloc: Global, meta: &ViewMetadata, body: &str) -> Result<String, Unread>
    ensures { IfOk result (λ told. spec.TellsViewBody meta.now body.now (string_bytes told)) }
{
    match read_view_commit(alloc, body.as_bytes()) {
        Ok(commit) => commit_text(alloc, meta, &commit),
        Err(ReadError::Field(path)) => Ok(format!(in alloc; "Unreadable: {path}")?),
        Err(ReadError::OutOfMemory) => Err(Unread::NoMemory),
    }
}

/// How a commit is told: its requirements before its updates.
fn commit_text(alloc: Global, meta: &ViewMetadata, commit: &ViewCommit) -> Result<String, Unread>
    ensures { IfOk result (λ told. spec.TellsViewChange meta.now commit.now (string_bytes told)) }
{
    match first_unmet_view(meta, commit.requirements.as_slice()) {
        Some(place) => Ok(format!(in alloc; "Unmet: {place}")?),
        None => updates_text(alloc, meta, commit.updates.as_slice()),
    }
}

/// How updates are told.
fn updates_text(
    alloc: Global,
    meta: &ViewMetadata,
    updates: &[ViewUpdate],
) -> Result<String, Unread>
    ensures { IfOk result (λ told. spec.TellsViewUpdates meta.now updates.now (string_bytes told)) }
{
    match apply_view(alloc, meta, updates, MOMENT) {
        Ok(made) => metadata_text(alloc, &made),
        Err(ApplyRefused::Refused { index, why }) => {
            Ok(format!(in alloc; "Refused: {index} {why}")?)
        }
        Err(ApplyRefused::OutOfMemory) => Err(Unread::NoMemory),
    }
}

/// How a view that is asked for is told.
fn request_text(alloc: Global, request: CreateView) -> Result<String, Unread>
    ensures { IfOk result (λ told. string_bytes told ≡ compact_text (view_json (spec.made request))) }
{
    let meta = created(alloc, request)?;
    metadata_text(alloc, &meta)
}

/// The metadata of a view that is asked for.
fn created(alloc: Global, request: CreateView) -> Result<ViewMetadata, OutOfMemory>
    ensures { IfOk result (λ meta. meta ≡ spec.made request) }
{
    let location = location_of(alloc, &request.location, &request.name)?;
    let CreateView {
        schema,
        view_version,
        properties,
        ..
    } = request;
    ViewMetadata::create(
        alloc,
        made_uuid(),
        location.as_str(),
        schema,
        view_version,
        properties,
        CREATED,
    )
}

/// The JSON that a metadata is printed as.
fn metadata_text(alloc: Global, meta: &ViewMetadata) -> Result<String, Unread>
    ensures { IfOk result (λ text. string_bytes text ≡ compact_text (view_json meta.now)) }
{
    Ok(view_text(alloc, meta)?)
}
