ghost use Rattle.std.specs.Prelude.{◌≡◌, map};
ghost use Rattle.std.specs.Iterator.{YieldsFirstRef, item_count};

use crate::numbered_fact::NumberedFact;
use pol_tables::Rows;
use std::marker::Model;

/// The facts of a set from one on, in their order. Contracts see those that are left.
#[derive(Drop)]
pub struct FactRows<'a, T> {
    rows: Rows<'a, NumberedFact<T>>,
}

impl<'a, T> Model for FactRows<'a, T> {
    ghost use Rattle.std.specs.Prelude.{List, map};

    ghost Value = { List T };

    ghost view = { λ facts. map (λ row. row.fact) facts.rows };
}

impl<'a, T> FactRows<'a, T> {
    pub(crate) fn new(rows: Rows<'a, NumberedFact<T>>) -> Self
        ensures { result ≡ map (λ row. row.fact) rows.entry }
    {
        FactRows { rows }
    }

    /// Those that are left, once more.
    pub fn rest(&self) -> FactRows<'a, T>
        ensures { result ≡ self.now }
    {
        FactRows {
            rows: self.rows.rest(),
        }
    }
}

impl<'a, T> Iterator for FactRows<'a, T> {
    type Item = &'a T;

    ghost next_gives = { YieldsFirstRef (λ rest. rest) };

    ghost remaining = { item_count (λ rest. rest) };

    fn next(&mut self) -> Option<&'a T> {
        let row = self.rows.next()?;
        Some(&row.fact)
    }

    fn size_hint(&self) -> (usize, Option<usize>) {
        self.rows.size_hint()
    }
}

impl<'a, T> ExactSizeIterator for FactRows<'a, T> {
    fn len(&self) -> usize {
        self.rows.len()
    }
}
