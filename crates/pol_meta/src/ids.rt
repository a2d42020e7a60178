ghost use Rattle.std.specs.Prelude.{◌≡◌, List, ℕ, length, nat_eq};
ghost use Rattle.std.specs.Cmp.{partial_equiv_from_equiv};
ghost use Rattle.std.specs.Cmp.Lexicographic.{pointwise, nat_list_eq_equiv};
ghost use Rattle.std.proofs.Common.{rules};

use pol_types::Exact;
use std::alloc::AllocError;
use std::marker::Model;

/// Ids, each of four bytes, which contracts see as the list of them. It is made from a `Vec` and gives it back
/// without taking memory.
#[derive(Drop)]
pub struct Ids {
    ids: Vec<u32>,
}

impl Model for Ids {
    ghost Value = { List ℕ };

    ghost view = { λ i. i.ids.items };
}

impl Ids {
    pub fn as_slice(&self) -> &[u32]
        ensures { result.now ≡ self.now }
    {
        self.ids.as_slice()
    }

    pub fn len(&self) -> usize
        ensures { result ≡ length self.now }
    {
        self.ids.len()
    }
}

impl From<Vec<u32>> for Ids {
    ghost from_gives = { λ source ids. ids ≡ source.items };

    fn from(ids: Vec<u32>) -> Self {
        Ids { ids }
    }
}

impl From<Ids> for Vec<u32> {
    ghost from_gives = { λ source ids. ids.items ≡ source };

    fn from(ids: Ids) -> Self {
        ids.ids
    }
}

impl Clone for Ids {
    ghost is_clone = { λ source clone. clone ≡ source };

    fn clone(&self) -> Result<Self, AllocError> {
        Ok(Ids {
            ids: self.ids.clone()?,
        })
    }
}

impl Exact for Ids {
    ghost clones_exactly = { λ source clone same. same };

    ghost compares_exactly = { Prim.search rules };
}

impl PartialEq for Ids {
    ghost eq = { pointwise nat_eq };

    ghost laws = { partial_equiv_from_equiv nat_list_eq_equiv };

    fn eq(&self, other: &Self) -> bool {
        self.as_slice() == other.as_slice()
    }
}

impl Eq for Ids {
    ghost laws = { nat_list_eq_equiv };
}
