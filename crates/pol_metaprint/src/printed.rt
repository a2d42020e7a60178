ghost use Rattle.std.specs.Prelude.{◌≡◌, IfOk};
ghost use Rattle.serde_json.specs.View.{view};
ghost use Rattle.pol_metaprint.specs.Json as spec;

use pol_types::OutOfMemory;
use serde_json::Value;
use std::alloc::Global;

/// A part of a metadata that is printed as JSON.
pub trait Printed {
    ghost use Rattle.serde_json.specs.Data.{Data};

    /// What is printed of a value.
    ghost json: { Self → Data };

    /// The JSON of a value.
    fn printed(&self, alloc: Global) -> Result<Value, OutOfMemory>
        ensures { IfOk result (λ value. view value ≡ json self.now) };
}

/// A list.
pub fn list<T: Printed>(alloc: Global, items: &[T]) -> Result<Value, OutOfMemory>
    ensures { IfOk result (λ value. view value ≡ spec.list_json T.json items.now) }
{
    let mut values = Vec::with_capacity(alloc, items.len())?;
    for item in items {
        values.push(item.printed(alloc)?)?;
    }
    Ok(Value::from(values))
}
