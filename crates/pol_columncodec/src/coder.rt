//! The form of the columns of a schema.
ghost use Rattle.pol_columnforms.specs.Columns as spec;

use crate::columns::read_fields;
use crate::stored::tell_stored;
use crate::written::write_fields;
use pol_forms::{CodecRefused, Coder, Unread};
use pol_meta::Column;
use pol_types::{Listed, OutOfMemory};
use std::alloc::Global;

/// How many types may stand in one another in a column of a schema.
const MOST_TYPES: u32 = 32;

/// What stands for the form of the columns of a schema.
pub struct Columns;

/// The number of fields, and each with its type, in which the columns in it are.
#[tactic(auto, using(pol_columnforms::proofs::HeldLemmas::columns_held), unfolding(pol_columnforms::specs::Columns::columns))]
impl Coder<Listed<Column>> for Columns {
    ghost form = { spec.columns };

    ghost rule = { spec.AreColumns };

    fn write(columns: &Listed<Column>, written: &mut Vec<u8>) -> Result<(), OutOfMemory> {
        let columns = columns.as_slice();
        tell_stored(columns);
        write_fields(MOST_TYPES, 0, columns, written)
    }

    fn read(alloc: Global, unread: &mut Unread<'_>) -> Result<Listed<Column>, CodecRefused> {
        read_fields(alloc, MOST_TYPES, 0, unread)
    }
}
