ghost use Rattle.std.specs.Prelude.{◌≡◌, ◌++◌, IfOk, OnOk, string_bytes};
ghost use Rattle.pol_changetexts.specs.Told as spec;

use pol_locations::Location;
use pol_properties::Property;
use pol_types::OutOfMemory;
use std::alloc::Global;

/// What worked examples tell of a value.
pub trait Told {
    ghost use Rattle.std.specs.Prelude.{List, ℕ};

    /// The text of a value.
    ghost text: { Self → List ℕ };

    /// Makes the text.
    fn told(&self, alloc: Global) -> Result<String, OutOfMemory>
        ensures { IfOk result (λ told. string_bytes told ≡ text self.now) };
}

impl Told for u64 {
    ghost use Rattle.std.specs.Prelude.{decimal};

    ghost text = { decimal };

    fn told(&self, alloc: Global) -> Result<String, OutOfMemory> {
        Ok(self.to_string(alloc)?)
    }
}

impl Told for Location {
    ghost use Rattle.pol_locations.specs.Location.{location_text};

    ghost text = { location_text };

    fn told(&self, alloc: Global) -> Result<String, OutOfMemory> {
        Ok(self.to_string(alloc)?)
    }
}

/// Its key, and the text under it.
impl Told for Property {
    ghost text = { spec.property_text };

    fn told(&self, alloc: Global) -> Result<String, OutOfMemory> {
        let (key, value) = (&self.key, &self.value);
        Ok(format!(in alloc; "{key} {value}")?)
    }
}

/// The number of members, and behind a mark each of them.
pub fn list<T: Told>(alloc: Global, mark: &str, items: &[T]) -> Result<String, OutOfMemory>
    ensures { IfOk result (λ told. string_bytes told ≡ spec.list_text mark.now T.text items.now) }
{
    let mut told = items.len().to_string(alloc)?;
    for item in items {
        push(alloc, &mut told, mark, item)?;
    }
    Ok(told)
}

/// Adds a mark and a member.
fn push<T: Told>(alloc: Global, told: &mut String, mark: &str, item: &T) -> Result<(), OutOfMemory>
    ensures { OnOk result (string_bytes told.new ≡ string_bytes told.old ++ (mark.now ++ T.text item.now)) }
{
    let text = item.told(alloc)?;
    told.push_str(mark)?;
    Ok(told.push_str(text.as_str())?)
}

/// A name, and behind a space a value.
pub(crate) fn named<T: Told>(alloc: Global, name: &str, value: &T) -> Result<String, OutOfMemory>
    ensures { IfOk result (λ told. string_bytes told ≡ spec.named_text name.now T.text value.now) }
{
    let text = value.told(alloc)?;
    Ok(format!(in alloc; "{name} {text}")?)
}
