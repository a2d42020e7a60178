ghost use Rattle.std.specs.Prelude.{◌≡◌, IfOk};

use crate::TableRow;
use pol_locations::Location;
use pol_types::OutOfMemory;
use std::marker::Model;

/// A row of a table that is to be put, with its location once more: the table of rows takes the one, and the set of all
/// locations the other, and neither takes memory then. Contracts see the row.
#[derive(Drop)]
pub struct TablePut {
    row: TableRow,
    place: Location,
}

impl Model for TablePut {
    ghost use Rattle.std.specs.Prelude.{◌≡◌};
    ghost use Rattle.pol_table_rows.specs.declared.row.TableRow.{TableRow};

    ghost Value = { TableRow };

    ghost view = { λ put. put.row };

    ghost invariant = { λ put. put.place ≡ put.row.location };
}

impl TablePut {
    pub fn new(row: TableRow) -> Result<Self, OutOfMemory>
        ensures { IfOk result (λ put. put ≡ row) }
    {
        let place = row.location.clone()?;
        Ok(TablePut { row, place })
    }

    pub fn row(&self) -> &TableRow
        ensures { result.now ≡ self.now }
    {
        &self.row
    }

    /// The row, and its location once more.
    pub(crate) fn into_parts(self) -> (TableRow, Location)
        ensures row { result.0 ≡ self }
        ensures place { result.1 ≡ self.location }
    {
        (self.row, self.place)
    }
}

impl PartialEq for TablePut {
    ghost use Rattle.pol_table_rows.specs.contracts.row.TableRowPartialEq.TheImpl.Laws.{laws-law};

    ghost eq = { ⟦<TableRow as PartialEq>⟧.eq };

    ghost laws = { laws-law };

    fn eq(&self, other: &Self) -> bool {
        self.row == other.row
    }
}

impl Eq for TablePut {
    ghost use Rattle.pol_table_rows.specs.contracts.row.TableRowEq.TheImpl.Laws.{laws-law};

    ghost laws = { laws-law };
}
