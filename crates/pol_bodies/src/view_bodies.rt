//! The bodies that create a view and commit to one.
ghost use Rattle.pol_requests.specs.Refused.{Meets};
ghost use Rattle.pol_bodies.specs.ViewBodies as spec;

use crate::body::unread;
use pol_commands::{CreateView, ViewCommit};
use pol_names::Identifier;
use pol_requests::Unplanned;
use pol_viewjson::{read_create_view, read_view_commit};
use std::alloc::Global;

/// What a body that creates a view asks for. Its first bad field is told by its path.
#[tactic(auto, using(crate::proofs::ViewBodyLemmas::unread_view), unfolding(crate::specs::ViewBodies::create_view_of))]
pub fn create_view_of(alloc: Global, bytes: &[u8]) -> Result<CreateView, Unplanned>
    ensures { Meets (spec.create_view_of bytes.now) result }
{
    match read_create_view(alloc, bytes) {
        Ok(request) => Ok(CreateView {
            name: request.name,
            location: request.location,
            schema: request.schema,
            view_version: request.view_version,
            properties: request.properties,
        }),
        Err(error) => Err(unread(alloc, error)),
    }
}

/// What a body commits to a view. Its first bad field is told by its path.
#[tactic(auto, using(crate::proofs::ViewBodyLemmas::unread_commit), unfolding(crate::specs::ViewBodies::view_commit_of))]
pub fn view_commit_of(
    alloc: Global,
    identifier: Identifier,
    bytes: &[u8],
) -> Result<ViewCommit, Unplanned>
    ensures { Meets (spec.view_commit_of identifier bytes.now) result }
{
    match read_view_commit(alloc, bytes) {
        Ok(read) => Ok(ViewCommit {
            identifier,
            requirements: read.requirements,
            updates: read.updates,
        }),
        Err(error) => Err(unread(alloc, error)),
    }
}
