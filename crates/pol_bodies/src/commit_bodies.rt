//! The bodies that commit to one table and to several.
ghost use Rattle.std.specs.Prelude.{◌≡◌, IfOk};
ghost use Rattle.pol_commitjson.specs.Commits.{AreFormed};
ghost use Rattle.pol_requests.specs.Refused.{Meets};
ghost use Rattle.pol_bodies.specs.CommitBodies as spec;

use crate::body::unread;
use pol_commands::Commit;
use pol_commitjson::{read_commit, read_transaction};
use pol_names::Identifier;
use pol_requests::Unplanned;
use pol_types::{Listed, OutOfMemory};
use pol_updates::TableChange;
use std::alloc::Global;

/// What a body commits to a table. Its first bad field is told by its path.
#[tactic(auto, using(crate::proofs::CommitBodyLemmas::unread_commit), unfolding(crate::specs::CommitBodies::commit_of))]
pub fn commit_of(alloc: Global, identifier: Identifier, bytes: &[u8]) -> Result<Commit, Unplanned>
    ensures { Meets (spec.commit_of identifier bytes.now) result }
{
    match read_commit(alloc, bytes) {
        Ok(read) => Ok(Commit {
            identifier,
            requirements: read.requirements,
            updates: read.updates,
        }),
        Err(error) => Err(unread(alloc, error)),
    }
}

/// What a body commits to several tables. Its first bad field is told by its path.
#[tactic(auto, using(crate::proofs::CommitBodyLemmas::unread_commits), unfolding(crate::specs::CommitBodies::commits_of))]
pub fn commits_of(alloc: Global, bytes: &[u8]) -> Result<Listed<Commit>, Unplanned>
    ensures { Meets (spec.commits_of bytes.now) result }
{
    match read_transaction(alloc, bytes) {
        Ok(read) => Ok(all_changed_in(alloc, read)?),
        Err(error) => Err(unread(alloc, error)),
    }
}

/// The commits of a body, as a command has them.
#[tactic(auto, using(crate::proofs::CommitBodyLemmas::all_changed))]
fn all_changed_in(alloc: Global, read: Listed<TableChange>) -> Result<Listed<Commit>, OutOfMemory>
    requires { ∥ AreFormed read ∥₁ }
    ensures { IfOk result (λ commits.
        (known : ∥ AreFormed read ∥₁) → commits ≡ spec.all_changed_in read known) }
{
    let read: Vec<TableChange> = read.into();
    let mut commits = Vec::with_capacity(alloc, read.len())?;
    for change in read {
        commits.push(Commit {
            identifier: change.identifier,
            requirements: change.requirements,
            updates: change.updates,
        })?;
    }
    Ok(Listed::from(commits))
}
