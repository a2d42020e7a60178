ghost use Rattle.std.specs.Prelude.{◌≡◌, map, IfOk};
ghost use Rattle.std.specs.Cmp.{IsTotalOrder};
ghost use Rattle.std.specs.declared.cmp.Ordering.{Ordering};
ghost use Rattle.pol_tables.specs.Order.{in_order};

use crate::{Fact, Rows};
use pol_types::OutOfMemory;
use std::alloc::{AllocError, Global};
use std::cmp::Ordering;

/// A row that stands in lists in an order of its own, as that of its name. Rows that tie need not be equal.
pub trait Sortable {
    ghost cmp: { Self → Self → Ordering };

    fn compare(&self, other: &Self) -> Ordering
        ensures { result ≡ cmp self.now other.now };

    ghost total: { IsTotalOrder cmp };
}

/// The rows in rising order, where those that tie stay in theirs.
pub fn rows_in_order<'a, R: Sortable>(
    alloc: Global,
    rows: Rows<'a, R>,
) -> Result<Vec<&'a R>, OutOfMemory>
    ensures { IfOk result (λ sorted. map (λ row. row.now) sorted.items ≡ in_order R.cmp rows.entry) }
{
    sorted_rows(lent(alloc, rows)?)
}

/// The same of rows that are lent.
pub fn sorted_rows<'a, R: Sortable>(rows: Vec<&'a R>) -> Result<Vec<&'a R>, OutOfMemory>
    ensures { IfOk result (λ sorted.
        map (λ row. row.now) sorted.items ≡ in_order R.cmp (map (λ row. row.now) rows.entry.items)) }
{
    let mut sorted = rows;
    sorted.sort_by(|left, right| left.compare(right))?;
    Ok(sorted)
}

/// The facts in rising order, in which a list of changes has them.
pub fn sorted_facts<T: Fact + Ord>(facts: Vec<T>) -> Result<Vec<T>, OutOfMemory>
    ensures { IfOk result (λ sorted. sorted.items ≡ in_order T.cmp facts.items) }
{
    let mut sorted = facts;
    sorted.sort()?;
    Ok(sorted)
}

fn lent<'a, R>(alloc: Global, rows: Rows<'a, R>) -> Result<Vec<&'a R>, AllocError>
    ensures { IfOk result (λ lent. map (λ row. row.now) lent.items ≡ rows.entry) }
{
    rows.collect(alloc)
}
