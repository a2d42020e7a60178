//! Laws of locations: each is a function without a body, whose clause is the law.
ghost use Rattle.std.specs.Prelude.{◌≡◌, ℕ, List};
ghost use Rattle.std.specs.Cmp.Lexicographic.{slice_cmp};
ghost use Rattle.std.specs.Ordering.{nat_cmp};
ghost use Rattle.pol_locations.specs.Laws.{CoverIsAntisymmetric, CoverIsReflexive, CoverIsTransitive, CoversOverlap, LocationsPass, OnlyTextsPass, OverlapIsSymmetric, TextsPass, TextsReadBack};

use crate::Location;

/// Locations compare segment by segment, and segments byte by byte.
pub fn locations_are_in_byte_order()
    ensures { (left right : List (List ℕ)) → ⟦<Location as Ord>⟧.cmp left right
        ≡ slice_cmp (slice_cmp nat_cmp) left right }
{}

/// The rules refuse no list of segments exactly where it is a location.
pub fn locations_pass()
    ensures { LocationsPass }
{}

/// The text of a location stands for it, and beside such texts only those with one `/` more are read.
pub fn texts_stand_for_locations()
    ensures pass { TextsPass }
    ensures read_back { TextsReadBack }
    ensures only { OnlyTextsPass }
{}

/// Cover is a partial order.
pub fn cover_is_a_partial_order()
    ensures reflexive { CoverIsReflexive }
    ensures transitive { CoverIsTransitive }
    ensures antisymmetric { CoverIsAntisymmetric }
{}

/// Overlap is symmetric, and two locations that cover one location overlap.
pub fn overlap_is_symmetric()
    ensures symmetric { OverlapIsSymmetric }
    ensures covers { CoversOverlap }
{}
