ghost use Rattle.std.specs.Prelude.{◌≡◌, ◌++◌, ◌∷◌, [], IfOk, OnOk};

use pol_types::{Exact, Listed};
use std::alloc::{AllocError, AllocFailed, Global};
use std::mem;

/// Puts an item at the end of a list. After a failure nothing is said of the list.
pub fn push<T: Drop>(alloc: Global, list: &mut Listed<T>, item: T) -> Result<(), AllocFailed<T>>
    ensures { OnOk result (list.new ≡ list.old ++ item ∷ []) }
{
    let mut items = taken(alloc, list);
    items.push(item)?;
    *list = Listed::from(items);
    Ok(())
}

/// Takes the items out of a list.
pub fn taken<T: Drop>(alloc: Global, list: &mut Listed<T>) -> Vec<T>
    ensures { result.items ≡ list.old }
{
    mem::replace(list, Listed::from(Vec::new(alloc))).into()
}

/// A copy of an item.
pub fn copied<T: Exact>(item: &T) -> Result<T, AllocError>
    ensures { IfOk result (λ copy. copy ≡ item.now) }
{
    item.clone()
}
