//! Bodies as requests read them.
ghost use Rattle.pol_readers.specs.Shape.{body};
ghost use Rattle.pol_requests.specs.Refused.{Meets};
ghost use Rattle.pol_bodies.specs.Body as spec;

use pol_readers::{Form, ReadError, read_body};
use pol_requests::{RouteRefused, Unplanned};
use pol_types::Text;
use std::alloc::Global;

/// What a body is read as. Its first bad field is told by its path.
#[tactic(auto, using(crate::proofs::UnreadLemmas::read_body, crate::proofs::UnreadLemmas::unread_body))]
pub fn body_of<F: Form>(alloc: Global, bytes: &[u8]) -> Result<F, Unplanned>
    ensures { Meets (spec.body_of (body F.shape bytes.now)) result }
{
    match read_body(alloc, bytes) {
        Ok(read) => Ok(read),
        Err(error) => Err(unread(alloc, error)),
    }
}

/// Why a body isn't read.
pub(crate) fn unread(alloc: Global, error: ReadError) -> Unplanned
    ensures { spec.IsUnread error result }
{
    match error {
        ReadError::Field(path) => match path.to_string(alloc) {
            Ok(field) => Unplanned::Refused(RouteRefused::Unreadable {
                field: Text::from(field),
            }),
            Err(_) => Unplanned::OutOfMemory,
        },
        ReadError::OutOfMemory => Unplanned::OutOfMemory,
    }
}
