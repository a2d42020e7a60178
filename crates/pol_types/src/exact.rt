ghost use Rattle.std.specs.Prelude.{◌≡◌, true};
ghost use Rattle.std.proofs.Common.{rules};

/// A type whose `clone` and `==` are exact, as contracts see its values: a clone is equal to its source, and only
/// equal values compare as equal. A row derives both traits and adds this trait by two lines: the proofs are found
/// from its fields, the first by `Prim.search rules`, the second by `Prim.grind exactness` (`specs/Exact.antt`).
pub trait Exact: Clone + Eq {
    ghost clones_exactly: { (source clone : Self) → Self.is_clone source clone → clone ≡ source };

    ghost compares_exactly: { (left right : Self) → Self.eq left right ≡ true → left ≡ right };
}

impl Exact for bool {
    ghost clones_exactly = { λ source clone same. same };

    ghost compares_exactly = { Prim.search rules };
}

impl Exact for u8 {
    ghost clones_exactly = { λ source clone same. same };

    ghost compares_exactly = { Prim.search rules };
}

impl Exact for u64 {
    ghost clones_exactly = { λ source clone same. same };

    ghost compares_exactly = { Prim.search rules };
}

impl<T: Exact> Exact for Option<T> {
    ghost clones_exactly = { Prim.search rules };

    ghost compares_exactly = { Prim.search rules };
}
