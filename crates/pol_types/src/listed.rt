ghost use Rattle.std.specs.Prelude.{◌≡◌, ◌↔◌, IsTrue, List, ℕ, [], length};
ghost use Rattle.std.specs.Cmp.Lexicographic.{pointwise, slice_cmp, slice_partial_cmp, lists_agrees, lists_equiv, lists_per, lists_po, lists_ties, lists_total};
ghost use Rattle.std.specs.Hash as fed;
ghost use Rattle.std.specs.Hash.{items_Alike};
ghost use Rattle.std.specs.Slice.Iter.{iter_rest};
ghost use Rattle.std.proofs.Common.{rules};
ghost use Rattle.pol_types.specs.Exact.{pointwise_exact};

use crate::Exact;
use std::alloc::AllocError;
use std::cmp::Ordering;
use std::hash::{Hash, Hasher};
use std::marker::Model;
use std::slice;

/// A list of values of one type, which contracts see as the list of them. It is made from a `Vec` and gives it
/// back without taking memory. Lists compare item by item, a proper prefix first.
#[derive(Drop)]
pub struct Listed<T> {
    items: Vec<T>,
}

impl<T> Model for Listed<T> {
    ghost Value = { List T };

    ghost view = { λ l. l.items.items };
}

impl<T> Listed<T> {
    pub fn as_slice(&self) -> &[T]
        ensures { result.now ≡ self.now }
    {
        self.items.as_slice()
    }

    pub fn iter(&self) -> slice::Iter<'_, T>
        ensures { iter_rest result ≡ self.now }
    {
        self.items.iter()
    }

    pub fn len(&self) -> usize
        ensures { result ≡ length self.now }
    {
        self.items.len()
    }

    pub fn is_empty(&self) -> bool
        ensures { IsTrue result ↔ (self.now ≡ []) }
    {
        self.items.is_empty()
    }
}

impl<T> From<Vec<T>> for Listed<T> {
    ghost from_gives = { λ source list. list ≡ source.items };

    fn from(items: Vec<T>) -> Self {
        Listed { items }
    }
}

impl<T> From<Listed<T>> for Vec<T> {
    ghost from_gives = { λ source items. items.items ≡ source };

    fn from(list: Listed<T>) -> Self {
        list.items
    }
}

impl<T: Exact> Clone for Listed<T> {
    ghost is_clone = { λ source clone. clone ≡ source };

    fn clone(&self) -> Result<Self, AllocError> {
        Ok(Listed {
            items: self.items.clone()?,
        })
    }
}

impl<T: Exact> Exact for Listed<T> {
    ghost clones_exactly = { λ source clone same. same };

    ghost compares_exactly = { pointwise_exact T.compares_exactly };
}

impl<T: PartialEq> PartialEq for Listed<T> {
    ghost eq = { pointwise T.eq };

    ghost laws = { lists_per T.laws };

    fn eq(&self, other: &Self) -> bool {
        self.as_slice() == other.as_slice()
    }
}

impl<T: Eq> Eq for Listed<T> {
    ghost laws = { lists_equiv T.Eq.laws };
}

impl<T: PartialOrd> PartialOrd for Listed<T> {
    ghost partial_cmp = { slice_partial_cmp T.partial_cmp };

    ghost laws = { lists_po T.PartialOrd.laws };

    fn partial_cmp(&self, other: &Self) -> Option<Ordering> {
        self.as_slice().partial_cmp(&other.as_slice())
    }
}

impl<T: Ord> Ord for Listed<T> {
    ghost cmp = { slice_cmp T.cmp };

    ghost total = { lists_total T.total };

    ghost matches_partial_cmp = { lists_agrees T.matches_partial_cmp };

    ghost matches_eq = { lists_ties T.cmp T.matches_eq };

    fn cmp(&self, other: &Self) -> Ordering {
        self.as_slice().cmp(&other.as_slice())
    }
}

impl<T: Hash> Hash for Listed<T> {
    ghost hash_input = { fed.slice T.hash_input };

    ghost respects_eq = { (items_Alike (record { fed = T.respects_eq })).fed };

    fn hash<H: Hasher>(&self, state: &mut H) {
        self.as_slice().hash(state);
    }
}
