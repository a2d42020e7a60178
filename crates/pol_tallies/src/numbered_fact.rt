use crate::Grouped;
use pol_tables::{Fact, Keyed, NameOf, Named, number_of};
use pol_types::Exact;

/// A fact as a row, under the number at which it was put. It is sought by the fact.
#[derive(Clone, Drop, PartialEq, Eq)]
pub(crate) struct NumberedFact<T> {
    pub(crate) number: u64,
    pub(crate) fact: T,
}

impl<T: Fact> Exact for NumberedFact<T> {
    ghost use Rattle.std.proofs.Common.{rules};

    ghost clones_exactly = { Prim.search rules };

    ghost compares_exactly = { Prim.search rules };
}

impl<T: Fact> Keyed for NumberedFact<T> {
    ghost key = { λ row. row.number };

    fn key(&self) -> u64 {
        self.number
    }
}

impl<T: Fact> Named for NumberedFact<T> {
    ghost use Rattle.pol_tables.specs.Number.{number_of};

    ghost number = { λ row. number_of (T.hash_input row.fact) };

    fn number(&self) -> u64 {
        number_of(&self.fact)
    }
}

impl<T: Fact + Grouped> Grouped for NumberedFact<T> {
    ghost groups = { λ row. T.groups row.fact };

    ghost MOST = { T.MOST };

    const MOST: usize = T::MOST;

    fn group_count(&self) -> usize {
        self.fact.group_count()
    }

    fn group(&self, place: usize) -> u64 {
        self.fact.group(place)
    }
}

/// A fact that is sought.
#[derive(Drop)]
pub(crate) struct SoughtFact<'a, T> {
    pub(crate) fact: &'a T,
}

impl<T: Fact> NameOf<NumberedFact<T>> for SoughtFact<'_, T> {
    ghost use Rattle.std.proofs.Common.{sym, ap};
    ghost use Rattle.pol_tables.specs.Number.{number_of};
    ghost use Rattle.pol_tables.specs.Same.{same};
    ghost use Rattle.pol_tables.proofs.SameLemmas.{same-true};

    ghost names = { λ sought row. same T.coded sought.fact.now row.fact };

    ghost numbered = { λ sought. number_of (T.hash_input sought.fact.now) };

    fn number(&self) -> u64 {
        number_of(self.fact)
    }

    fn names(&self, row: &NumberedFact<T>) -> bool {
        *self.fact == row.fact
    }

    ghost numbers_agree = { λ sought row so.
        ap (λ fact. number_of (T.hash_input fact)) (sym (same-true T.coded sought.fact.now row.fact so)) };
}
