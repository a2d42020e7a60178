ghost use Rattle.std.specs.Prelude.{◌≡◌, ◌≤◌};
ghost use Rattle.pol_readers.specs.Shape as shapes;

use crate::error::ReadError;
use crate::form::Form;
use serde_json::Value;
use std::alloc::Global;
use std::marker::Model;

/// A whole number from `LOW` to `HIGH`, both included, which contracts see as that number.
///
/// In JSON (RFC 8259, section 6) it has no sign, fraction or exponent: `-0`, `1.0`, `1e0` and numbers past 64 bits are
/// refused, and so is one out of the bounds.
#[derive(Drop)]
pub struct Ranged<const LOW: u64, const HIGH: u64> {
    number: u64,
}

impl<const LOW: u64, const HIGH: u64> Model for Ranged<LOW, HIGH> {
    ghost use Rattle.std.specs.Prelude.{ℕ, ◌≤◌};

    ghost Value = { ℕ };

    ghost view = { λ ranged. ranged.number };

    ghost invariant = { λ ranged. (LOW ≤ ranged.number) × (ranged.number ≤ HIGH) };
}

impl<const LOW: u64, const HIGH: u64> Ranged<LOW, HIGH> {
    /// The number.
    pub fn get(&self) -> u64
        ensures same { result ≡ self.now }
        ensures low { LOW ≤ result }
        ensures high { result ≤ HIGH }
    {
        self.number
    }
}

#[tactic(auto, unfolding(crate::specs::Forms::whole_number))]
impl<const LOW: u64, const HIGH: u64> Form for Ranged<LOW, HIGH> {
    ghost shape = { shapes.whole_number LOW HIGH };

    fn read(alloc: Global, value: &Value) -> Result<Self, ReadError> {
        match value.as_u64() {
            Some(number) if LOW <= number && number <= HIGH => Ok(Ranged { number }),
            _ => Err(ReadError::here(alloc)),
        }
    }
}
