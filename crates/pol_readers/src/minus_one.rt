ghost use Rattle.pol_readers.specs.Shape as shapes;

use crate::error::ReadError;
use crate::form::Form;
use serde_json::Value;
use std::alloc::Global;

/// A value of another form, or the whole number -1, to which a field gives a meaning of its own. -1 is tested first.
#[derive(Drop)]
pub enum OrMinusOne<F> {
    MinusOne,
    Other(F),
}

#[tactic(auto, unfolding(crate::specs::Forms::or_minus_one))]
impl<F: Form> Form for OrMinusOne<F> {
    ghost shape = { shapes.or_minus_one F.shape };

    fn read(alloc: Global, value: &Value) -> Result<Self, ReadError> {
        match value.as_i64() {
            Some(-1) => Ok(OrMinusOne::MinusOne),
            _ => Ok(OrMinusOne::Other(F::read(alloc, value)?)),
        }
    }
}
