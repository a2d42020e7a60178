ghost use Rattle.std.specs.Prelude.{◌≡◌, IfOk};

use pol_types::OutOfMemory;
use std::alloc::Global;
use std::marker::Model;

/// A row that a change puts. It lies apart from the change, so that a list of changes takes little room for those that
/// put nothing. Contracts see the row.
#[derive(Drop)]
pub struct PutRow<T> {
    row: Box<T, Global>,
}

impl<T> Model for PutRow<T> {
    ghost Value = { T };

    ghost view = { λ put. put.row.value };
}

impl<T> PutRow<T> {
    pub fn new(alloc: Global, row: T) -> Result<Self, OutOfMemory>
    where
        T: Drop,
        ensures { IfOk result (λ put. put ≡ row) }
    {
        Ok(PutRow {
            row: Box::new(alloc, row)?,
        })
    }

    pub fn row(&self) -> &T
        ensures { result.now ≡ self.now }
    {
        &*self.row
    }

    /// The row itself. Takes no memory.
    pub fn into_row(self) -> T
        ensures { result ≡ self }
    {
        Box::into_inner(self.row)
    }
}

impl<T: PartialEq> PartialEq for PutRow<T> {
    ghost eq = { T.eq };

    ghost laws = { T.laws };

    fn eq(&self, other: &Self) -> bool {
        *self.row() == *other.row()
    }
}

impl<T: Eq> Eq for PutRow<T> {
    ghost laws = { T.Eq.laws };
}
