//! Why a message has no plan, and why none is made.
ghost use Rattle.pol_requests.specs.Refused.{IsRefused};
ghost use Rattle.pol_requests.specs.declared.refused.RouteRefused.TheVariants.{Unreadable};

use pol_types::{OutOfMemory, Text};
use std::alloc::{AllocError, Global};

/// Why a message has no plan. The refusals of the route come first, in the order in which they stand here.
#[derive(Drop, PartialEq, Eq)]
pub enum RouteRefused {
    /// The path is none of the table's.
    NoRoute,
    /// The path is one of the table's, and none of its methods is the request's.
    WrongMethod,
    /// A part of the request can't be read: `path` for a segment of the path, else a key of the query or a place of
    /// the body.
    Unreadable { field: Text },
    /// A token request isn't UTF-8 once decoded, lacks a field, has one twice or empty, or has too many scopes.
    InvalidRequest,
    /// A token request is of a grant type other than `client_credentials`.
    GrantType,
}

/// Why no plan of a message is made.
#[derive(Drop)]
pub enum Unplanned {
    /// The message has none.
    Refused(RouteRefused),
    /// Memory was wanting.
    OutOfMemory,
}

impl From<RouteRefused> for Unplanned {
    ghost use Rattle.std.specs.Prelude.{◌≡◌};
    ghost use Rattle.pol_requests.specs.declared.refused.Unplanned.TheVariants.{Refused};

    ghost from_gives = { λ why unplanned. unplanned ≡ Refused why };

    fn from(why: RouteRefused) -> Self {
        Unplanned::Refused(why)
    }
}

impl From<OutOfMemory> for Unplanned {
    ghost use Rattle.std.specs.Prelude.{◌≡◌};
    ghost use Rattle.pol_requests.specs.declared.refused.Unplanned.TheVariants as unplanned;

    ghost from_gives = { λ _ why. why ≡ unplanned.OutOfMemory };

    fn from(_error: OutOfMemory) -> Self {
        Unplanned::OutOfMemory
    }
}

/// A refusal that names a field, or want of memory for its name.
pub fn unreadable(alloc: Global, field: &str) -> Unplanned
    ensures { IsRefused (Unreadable field.now) result }
{
    match String::from_str(alloc, field) {
        Ok(field) => Unplanned::Refused(RouteRefused::Unreadable {
            field: Text::from(field),
        }),
        Err(AllocError) => Unplanned::OutOfMemory,
    }
}
