ghost use Rattle.std.specs.Prelude.{◌≡◌, IfOk, option_copied};
ghost use Rattle.std.specs.List.{find};
ghost use Rattle.pol_drafts.specs.Drafts.{Becomes};
ghost use Rattle.pol_drafts.specs.Ids.{chosen, given, has_id, next_id};
ghost use Rattle.pol_views.specs.Valid.{version_ids};
ghost use Rattle.pol_views.specs.Versions.{add_version, bound_version, is_version_of, same_version_id, set_current_version};

use crate::draft::ViewDraft;
use crate::{UnboundVersion, VersionLogEntry, ViewVersion};
use pol_drafts::{MemberId, Stop, chosen_schema, copied, next_after, push};
use pol_meta::Why;
use std::alloc::{AllocError, Global};

/// Adds a version, or finds the first that is equal but for id and time.
#[tactic(auto, unfolding(crate::specs::Versions::add_version))]
pub fn add_version(
    alloc: Global,
    draft: &mut ViewDraft,
    version: &UnboundVersion,
) -> Result<(), Stop>
    ensures { Becomes (add_version version.now draft.old) result draft.new }
{
    let schemas = draft.meta.schemas.as_slice();
    let schema_id = chosen_schema(version.schema_id, draft.last_schema, schemas)?;
    if let Some(id) = same_version_id(schema_id, version, draft.meta.versions.as_slice()) {
        draft.last_version = Some(id);
        return Ok(());
    }
    let id = next_version_id(draft.meta.versions.as_slice())?;
    let added = bound(version, id, schema_id)?;
    push(alloc, &mut draft.meta.versions, added)?;
    draft.last_version = Some(id);
    Ok(())
}

/// Makes the version that is named the current one at a moment, which the log tells.
#[tactic(auto, unfolding(crate::specs::Versions::set_current_version))]
pub fn set_current_version(
    alloc: Global,
    draft: &mut ViewDraft,
    moment: u64,
    member: MemberId,
) -> Result<(), Stop>
    ensures { Becomes (set_current_version moment member draft.old) result draft.new }
{
    let versions = draft.meta.versions.as_slice();
    let version_id = chosen_version(member, draft.last_version, versions)?;
    draft.meta.current_version_id = version_id;
    let entry = VersionLogEntry {
        timestamp_ms: moment,
        version_id,
    };
    push(alloc, &mut draft.meta.version_log, entry)?;
    Ok(())
}

/// The id of the version that is named, among these.
#[tactic(auto, unfolding(pol_drafts::specs::Ids::chosen))]
fn chosen_version(member: MemberId, last: Option<u32>, versions: &[ViewVersion]) -> Result<u32, Why>
    ensures { result ≡ chosen member last (version_ids versions.now) }
{
    match member {
        MemberId::LastAdded => last.ok_or(Why::NoneAdded),
        MemberId::Id { id } => {
            if has_version(versions, id) {
                Ok(id)
            } else {
                Err(Why::NoSuchId)
            }
        }
    }
}

/// Whether a version has this id.
pub fn has_version(versions: &[ViewVersion], id: u32) -> bool
    ensures { result ≡ has_id id (version_ids versions.now) }
{
    versions
        .iter()
        .map(|version| version.version_id)
        .any(|other| other == id)
}

/// The id of the first version that is equal but for id and time.
fn same_version_id(
    schema_id: u32,
    version: &UnboundVersion,
    versions: &[ViewVersion],
) -> Option<u32>
    ensures { result ≡ same_version_id schema_id version.now versions.now }
{
    let same = same_version(schema_id, version, versions)?;
    Some(same.version_id)
}

/// The first version that is equal but for id and time.
fn same_version<'a>(
    schema_id: u32,
    version: &UnboundVersion,
    versions: &'a [ViewVersion],
) -> Option<&'a ViewVersion>
    ensures { option_copied result ≡ find (is_version_of schema_id version.now) versions.now }
{
    versions
        .iter()
        .find(|other| is_version_of(schema_id, version, other))
}

/// Whether a version is the one that is asked for, but for id and time.
fn is_version_of(schema_id: u32, version: &UnboundVersion, other: &ViewVersion) -> bool
    ensures { result ≡ is_version_of schema_id version.now other.now }
{
    other.schema_id == schema_id
        && other.summary == version.summary
        && other.representations == version.representations
        && other.default_catalog == version.default_catalog
        && other.default_namespace == version.default_namespace
}

/// The id after those of these versions.
fn next_version_id(versions: &[ViewVersion]) -> Result<u32, Why>
    ensures { result ≡ given (next_id (version_ids versions.now)) }
{
    next_after(
        versions
            .iter()
            .map(|version| version.version_id)
            .fold(0, |highest, id| highest.max(id)),
    )
}

/// A copy of a version that is asked for, with its id and that of its schema.
fn bound(version: &UnboundVersion, id: u32, schema_id: u32) -> Result<ViewVersion, AllocError>
    ensures { IfOk result (λ made. made ≡ bound_version id schema_id version.now) }
{
    Ok(ViewVersion {
        version_id: id,
        timestamp_ms: version.timestamp_ms,
        schema_id,
        summary: version.summary.clone()?,
        representations: version.representations.clone()?,
        default_catalog: copied(&version.default_catalog)?,
        default_namespace: copied(&version.default_namespace)?,
    })
}
