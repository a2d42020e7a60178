//! Rows of which no two have one key.
ghost use Rattle.std.specs.Prelude.{◌≡◌, [], ◌∷◌, ◌++◌, not, true, IfOk};
ghost use Rattle.pol_sound_access.specs.Judged.{all_differ};
ghost use Rattle.indexmap.specs.IndexSet.{keys};
ghost use Rattle.pol_tables.specs.Facts.{holds};
ghost use Rattle.pol_tables.specs.Same.{same};

use indexmap::IndexSet;
use pol_tables::{Fact, Rows};
use pol_tallies::FactRows;
use pol_types::OutOfMemory;
use std::alloc::Global;

/// A row that has a key, by which it is told apart from others.
pub trait Told<K: Fact> {
    ghost told: { Self → K };

    /// The row's key.
    fn told(&self, alloc: Global) -> Result<K, OutOfMemory>
        ensures { IfOk result (λ key. key ≡ told self.now) };
}

/// Whether no two of a table's rows have one key.
pub fn keys_differ<R: Told<K>, K: Fact>(
    alloc: Global,
    rows: Rows<'_, R>,
) -> Result<bool, OutOfMemory>
    ensures { IfOk result (λ apart. apart
        ≡ all_differ (λ left right. same K.coded (R.told left) (R.told right)) rows.entry) }
{
    let mut seen = IndexSet::new(alloc);
    for row in rows {
        if !is_new(alloc, row, &mut seen)? {
            return Ok(false);
        }
    }
    let _seen = seen.len();
    Ok(true)
}

/// The same of the facts of a set.
pub(crate) fn fact_keys_differ<R: Told<K>, K: Fact>(
    alloc: Global,
    facts: FactRows<'_, R>,
) -> Result<bool, OutOfMemory>
    ensures { IfOk result (λ apart. apart
        ≡ all_differ (λ left right. same K.coded (R.told left) (R.told right)) facts.entry) }
{
    let mut seen = IndexSet::new(alloc);
    for fact in facts {
        if !is_new(alloc, fact, &mut seen)? {
            return Ok(false);
        }
    }
    let _seen = seen.len();
    Ok(true)
}

/// Whether the row's key wasn't seen before. It is seen then.
fn is_new<R: Told<K>, K: Fact>(
    alloc: Global,
    row: &R,
    seen: &mut IndexSet<K>,
) -> Result<bool, OutOfMemory>
    ensures test { IfOk result (λ new. new ≡ not (holds K.coded (R.told row.now) (keys seen.old))) }
    ensures seen { IfOk result (λ new. new ≡ true → keys seen.new ≡ keys seen.old ++ R.told row.now ∷ []) }
{
    let key = row.told(alloc)?;
    Ok(seen.insert(key)?)
}
