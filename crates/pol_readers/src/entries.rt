ghost use Rattle.std.specs.Prelude.{◌≡◌};
ghost use Rattle.serde_json.specs.View.{members_view};
ghost use Rattle.pol_readers.specs.Entries.{KeysRise};
ghost use Rattle.pol_readers.specs.Forms as spec;
ghost use Rattle.pol_readers.specs.Reading.{Gives};
ghost use Rattle.pol_readers.specs.Shape as shapes;

use crate::error::ReadError;
use crate::form::{Form, under_key};
use pol_types::Text;
use serde_json::{Map, Value};
use std::alloc::Global;
use std::marker::Model;

/// The members of an object whose values are of one form, each with its key, in byte order of the keys. No two keys are
/// equal. Contracts see them as the list of pairs. They give their `Vec` back without taking memory.
#[derive(Drop)]
pub struct Entries<F> {
    entries: Vec<(Text, F)>,
}

impl<F> Model for Entries<F> {
    ghost use Rattle.std.specs.Prelude.{List, ℕ};
    ghost use Rattle.pol_readers.specs.Entries.{KeysRise};

    ghost Value = { List (List ℕ × F) };

    ghost view = { λ e. e.entries.items };

    ghost invariant = { λ e. KeysRise e.entries.items };
}

impl<F> Entries<F> {
    /// The keys with their values, by rising keys.
    pub fn as_slice(&self) -> &[(Text, F)]
        ensures same { result.now ≡ self.now }
        ensures rise { KeysRise result.now }
    {
        self.entries.as_slice()
    }
}

impl<F> From<Entries<F>> for Vec<(Text, F)> {
    ghost use Rattle.std.specs.Prelude.{◌≡◌};
    ghost use Rattle.pol_readers.specs.Entries.{KeysRise};

    ghost from_gives = { λ source entries. (entries.items ≡ source) × KeysRise source };

    fn from(entries: Entries<F>) -> Self {
        entries.entries
    }
}

/// An object whose values are of one form. They are tested by rising keys, and a bad one's path begins with its key.
#[tactic(auto, unfolding(crate::specs::Forms::entries))]
impl<F: Form> Form for Entries<F> {
    ghost shape = { shapes.entries F.shape };

    fn read(alloc: Global, value: &Value) -> Result<Self, ReadError> {
        match value.as_object() {
            Some(members) => read_members(alloc, members),
            None => Err(ReadError::here(alloc)),
        }
    }
}

/// Reads the members of an object.
fn read_members<F: Form>(
    alloc: Global,
    members: &Map<String, Value>,
) -> Result<Entries<F>, ReadError>
    ensures { Gives result (spec.members F.shape.read (members_view members.now.entries)) }
{
    let mut entries = Vec::with_capacity(alloc, members.len())?;
    for (key, member) in members.iter() {
        let value = under_key(alloc, key.as_str(), F::read(alloc, member))?;
        entries.push((Text::from(key.clone()?), value))?;
    }
    Ok(Entries { entries })
}
