ghost use Rattle.std.specs.Prelude.{◌≡◌, option_copied};
ghost use Rattle.pol_tables.specs.Slots.{has_row, row_in, slot_key};

use crate::Keyed;

/// A place of a table: a row, or the id of one that was taken.
#[derive(Clone, Drop)]
pub(crate) enum Slot<R> {
    Kept(R),
    Gone(u64),
}

impl<R> Slot<R> {
    /// The row, if it wasn't taken.
    pub(crate) fn row(&self) -> Option<&R>
        ensures { option_copied result ≡ row_in self.now }
    {
        match self {
            Slot::Kept(row) => Some(row),
            Slot::Gone(_) => None,
        }
    }

    /// The row itself, if it wasn't taken.
    pub(crate) fn into_row(self) -> Option<R>
    where
        R: Drop,
        ensures { result ≡ row_in self }
    {
        match self {
            Slot::Kept(row) => Some(row),
            Slot::Gone(_) => None,
        }
    }
}

impl<R: Keyed> Slot<R> {
    /// The id of the row, also once it was taken.
    pub(crate) fn id(&self) -> u64
        ensures { result ≡ slot_key R.key self.now }
    {
        match self {
            Slot::Kept(row) => row.key(),
            Slot::Gone(id) => *id,
        }
    }

    /// Whether the row of this id is here.
    pub(crate) fn has(&self, id: u64) -> bool
        ensures { result ≡ has_row R.key id self.now }
    {
        match self {
            Slot::Kept(row) => id == row.key(),
            Slot::Gone(_) => false,
        }
    }
}
