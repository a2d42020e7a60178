//! Which versions are left after a list of updates, and which entries of the log.
ghost use Rattle.std.specs.Prelude.{◌≡◌, ◌==◌, IfOk, not, filter};
ghost use Rattle.std.specs.List.{suffix_len};
ghost use Rattle.pol_views.specs.Left as spec;
ghost use Rattle.pol_views.specs.Valid.{version_ids};

use crate::version_updates::has_version;
use crate::{VersionLogEntry, ViewVersion};
use pol_types::OutOfMemory;
use pol_updates::last_items;
use std::alloc::Global;

/// The most versions that a view keeps.
const MOST_VERSIONS: usize = 100;

/// The versions without those of the least ids that aren't current, so many that 100 are left.
pub fn versions_left(
    alloc: Global,
    current: u32,
    versions: Vec<ViewVersion>,
) -> Result<Vec<ViewVersion>, OutOfMemory>
    ensures { IfOk result (λ left. left.items ≡ spec.versions_left current versions.items) }
{
    let surplus = versions.len().saturating_sub(MOST_VERSIONS);
    let others = other_ids(alloc, current, versions.as_slice())?;
    Ok(without_least(versions, current, others.as_slice(), surplus))
}

/// The versions without so many of those others that have the least ids.
fn without_least(
    versions: Vec<ViewVersion>,
    current: u32,
    others: &[u32],
    surplus: usize,
) -> Vec<ViewVersion>
    ensures { result.items
        ≡ filter (λ version. not (spec.goes current others.now surplus version.version_id)) versions.items }
{
    let mut left = versions;
    left.retain(|version| !goes(current, others, surplus, version.version_id));
    left
}

/// Whether a version goes: it isn't current, and fewer of those others have a lower id than are to go.
fn goes(current: u32, others: &[u32], surplus: usize, id: u32) -> bool
    ensures { result ≡ spec.goes current others.now surplus id }
{
    id != current && lower(id, others) < surplus
}

/// How many of these ids are lower.
fn lower(id: u32, ids: &[u32]) -> usize
    ensures { result ≡ spec.lower id ids.now }
{
    ids.iter().filter(|other| **other < id).count()
}

/// The ids of the versions that aren't current.
fn other_ids(alloc: Global, current: u32, versions: &[ViewVersion]) -> Result<Vec<u32>, OutOfMemory>
    ensures { IfOk result (λ ids. ids.items ≡ spec.other_ids current versions.now) }
{
    let ids = all_ids(alloc, versions)?;
    Ok(without_one(ids, current))
}

/// The ids of all versions.
fn all_ids(alloc: Global, versions: &[ViewVersion]) -> Result<Vec<u32>, OutOfMemory>
    ensures { IfOk result (λ ids. ids.items ≡ version_ids versions.now) }
{
    let mut ids = Vec::with_capacity(alloc, versions.len())?;
    for version in versions {
        ids.push(version.version_id)?;
    }
    Ok(ids)
}

/// These ids without one.
fn without_one(ids: Vec<u32>, one: u32) -> Vec<u32>
    ensures { result.items ≡ filter (λ id. not (id == one)) ids.items }
{
    let mut others = ids;
    others.retain(|id| *id != one);
    others
}

/// The longest end of a log whose versions are all there.
pub fn log_left(
    alloc: Global,
    versions: &[ViewVersion],
    log: Vec<VersionLogEntry>,
) -> Result<Vec<VersionLogEntry>, OutOfMemory>
    ensures { IfOk result (λ left. left.items ≡ spec.log_left versions.now log.items) }
{
    let there = there_at_end(versions, log.as_slice());
    last_items(alloc, log, there)
}

/// Whether the version of an entry is there.
fn is_there(versions: &[ViewVersion], entry: &VersionLogEntry) -> bool
    ensures { result ≡ spec.is_there versions.now entry.now }
{
    has_version(versions, entry.version_id)
}

/// How many entries at the end of a log have versions that are there.
#[tactic(auto, using(pol_updates::proofs::CommitLemmas::ends))]
fn there_at_end(versions: &[ViewVersion], log: &[VersionLogEntry]) -> usize
    ensures { result ≡ suffix_len (spec.is_there versions.now) log.now }
{
    let mut start = log.len();
    while start > 0 {
        if !is_there(versions, &log[start - 1]) {
            return log.len() - start;
        }
        start -= 1;
    }
    log.len()
}
