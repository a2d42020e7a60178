ghost use Rattle.serde_json.specs.View.{items_view};
ghost use Rattle.pol_readers.specs.Forms as spec;
ghost use Rattle.pol_readers.specs.Reading.{Gives};
ghost use Rattle.pol_readers.specs.Shape as shapes;

use crate::error::ReadError;
use crate::form::{Form, under_place};
use pol_types::Listed;
use serde_json::Value;
use std::alloc::Global;

/// An array whose members are of one form. They are tested by rising place, and a bad one's path begins with its place,
/// which is counted from 0.
#[tactic(auto, unfolding(crate::specs::Forms::list))]
impl<F: Form> Form for Listed<F> {
    ghost shape = { shapes.list F.shape };

    fn read(alloc: Global, value: &Value) -> Result<Self, ReadError> {
        match value.as_array() {
            Some(items) => read_items(alloc, items),
            None => Err(ReadError::here(alloc)),
        }
    }
}

/// Reads the members of a list.
fn read_items<F: Form>(alloc: Global, items: &Vec<Value>) -> Result<Listed<F>, ReadError>
    ensures { Gives result (spec.items F.shape.read 0 (items_view items.now.items)) }
{
    let mut read = Vec::with_capacity(alloc, items.len())?;
    for (place, item) in items.iter().enumerate() {
        let value = under_place(place, F::read(alloc, item))?;
        read.push(value)?;
    }
    Ok(Listed::from(read))
}
