ghost use Rattle.std.specs.Prelude.{◌≡◌};

use pol_locations::Location;
use pol_tokens::Act;
use std::marker::Model;

/// Leave to do this with the object at a path, or with those below it, which the access at this place of the
/// catalogue's history gave. It is made by `Shared::access` alone, and serves once.
#[derive(Drop)]
pub struct Permit {
    place: u64,
    path: Location,
    act: Act,
}

impl Model for Permit {
    ghost use Rattle.pol_shared.specs.Permits.{Permitted};

    ghost Value = { Permitted };

    ghost view = { λ permit. record { place = permit.place; path = permit.path; act = permit.act } };
}

impl Permit {
    pub(crate) fn new(place: u64, path: Location, act: Act) -> Self
        ensures { result ≡ record { place = place; path = path; act = act } }
    {
        Permit { place, path, act }
    }

    /// The place of the access in the catalogue's history, counted from 0.
    pub fn place(&self) -> u64
        ensures { result ≡ self.now.place }
    {
        self.place
    }

    /// The path that the access asked for.
    pub fn path(&self) -> &Location
        ensures { result.now ≡ self.now.path }
    {
        &self.path
    }

    /// What it asked to do there.
    pub fn act(&self) -> Act
        ensures { result ≡ self.now.act }
    {
        self.act
    }

    /// The path, once the permit has served.
    pub fn into_path(self) -> Location
        ensures { result ≡ self.path }
    {
        self.path
    }
}
