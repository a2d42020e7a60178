//! Laws of names and namespaces: each is a function without a body, whose clause is the law.
ghost use Rattle.std.specs.Prelude.{◌≡◌, ℕ, List};
ghost use Rattle.std.specs.Cmp.Lexicographic.{slice_cmp};
ghost use Rattle.std.specs.Ordering.{nat_cmp};
ghost use Rattle.pol_names.specs.Laws.{NamesPass, NamespacesPass, PlainNamesPass, SegmentsReadBack, SegmentsWriteBack};

use crate::{Name, Namespace, Plain};

/// The rules refuse no text exactly where it is a name.
pub fn names_pass()
    ensures { NamesPass }
{}

/// The rules refuse no text exactly where it is a plain name.
pub fn plain_names_pass()
    ensures { PlainNamesPass }
{}

/// The rules refuse no list of levels exactly where it is a namespace.
pub fn namespaces_pass()
    ensures { NamespacesPass }
{}

/// A segment of a path and a namespace stand for one another.
pub fn segments_stand_for_namespaces()
    ensures read_back { SegmentsReadBack }
    ensures write_back { SegmentsWriteBack }
{}

/// Names compare byte by byte, and namespaces level by level.
pub fn names_are_in_byte_order()
    ensures names { (left right : List ℕ) → ⟦<Name as Ord>⟧.cmp left right ≡ slice_cmp nat_cmp left right }
    ensures plain_names { (left right : List ℕ) → ⟦<Plain as Ord>⟧.cmp left right ≡ slice_cmp nat_cmp left right }
    ensures namespaces { (left right : List (List ℕ))
        → ⟦<Namespace as Ord>⟧.cmp left right ≡ slice_cmp (slice_cmp nat_cmp) left right }
{}
