//! The views of a namespace.
ghost use Rattle.std.specs.Prelude.{◌≡◌, filter, map, nat_eq, IfOk};
ghost use Rattle.pol_view_rows.specs.Views.{views_in};

use crate::ViewRow;
use pol_tables::{Rows, sorted_rows};
use pol_types::OutOfMemory;
use std::alloc::{AllocError, Global};

/// Those of the views that are in the namespace, in byte order of their names. It goes over all of them.
pub fn views_in<'a>(
    alloc: Global,
    rows: Rows<'a, ViewRow>,
    namespace: u64,
) -> Result<Vec<&'a ViewRow>, OutOfMemory>
    ensures { IfOk result (λ found. map (λ row. row.now) found.items ≡ views_in namespace rows.entry) }
{
    sorted_rows(rows_in(alloc, rows, namespace)?)
}

/// The same in the order of the rows.
fn rows_in<'a>(
    alloc: Global,
    rows: Rows<'a, ViewRow>,
    namespace: u64,
) -> Result<Vec<&'a ViewRow>, AllocError>
    ensures { IfOk result (λ found.
        map (λ row. row.now) found.items ≡ filter (λ row. nat_eq row.namespace namespace) rows.entry) }
{
    rows.filter(|row| row.namespace == namespace).collect(alloc)
}
