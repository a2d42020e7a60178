//! Whether the members of a list differ.
ghost use Rattle.std.specs.Prelude.{◌≡◌, IfOk};
ghost use Rattle.indexmap.specs.IndexSet.{IsFromIterResult};
ghost use Rattle.pol_columnforms.specs.Distinct.{are_distinct};

use indexmap::IndexSet;
use pol_types::OutOfMemory;
use std::alloc::Global;
use std::hash::Hash;

/// Whether the keys differ.
pub fn differ<K: Eq + Hash + Drop>(alloc: Global, keys: Vec<K>) -> Result<bool, OutOfMemory>
    ensures { IfOk result (λ differ. differ ≡ are_distinct K.eq keys.items) }
{
    let count = keys.len();
    let set = set_of(alloc, keys)?;
    Ok(set.len() == count)
}

fn set_of<K: Eq + Hash + Drop>(alloc: Global, keys: Vec<K>) -> Result<IndexSet<K>, OutOfMemory>
    ensures { IfOk result (IsFromIterResult K.eq keys.items) }
{
    Ok(keys.into_iter().collect(alloc)?)
}
