//! What a form is, and the combinators that forms of objects are made of.
ghost use Rattle.std.specs.Prelude.{◌≡◌, IfOk};
ghost use Rattle.serde_json.specs.View.{view};
ghost use Rattle.pol_readers.specs.Reading.{Reading, Gives, under};
ghost use Rattle.pol_readers.specs.Forms as spec;
ghost use Rattle.pol_readers.specs.declared.path.Step.TheVariants.{Key, Place};

use crate::error::ReadError;
use crate::path::Step;
use pol_types::{OutOfMemory, Text};
use serde_json::Value;
use std::alloc::Global;

/// A type whose values stand in JSON (RFC 8259). Its shape says what a value of JSON stands for, or the path to its
/// first bad field, and the grammar of the same, with the proof that the two agree.
///
/// The shape of an object is a chain: `object`, and then one part for each rule, in the order in which they are tested
/// (`field`, `optional`, `fixed`, `holds`). Its code is the chain of the calls of these names, each with `?`. Keys that
/// no part names are ignored.
pub trait Form: Drop {
    ghost use Rattle.pol_readers.specs.Shape.{Shape};

    /// What a value of JSON stands for, and the grammar of the same.
    ghost shape: { Shape Self };

    /// Reads a value of JSON. An error is the first bad field, or want of memory, for which no clause names a cause.
    fn read(alloc: Global, value: &Value) -> Result<Self, ReadError>
        ensures { Gives result (shape.read (view value.now)) };
}

/// What was read of the member of that key, seen from the object: a bad field's path begins with the key. Want of
/// memory is handed on, and told where there is none for the key.
pub fn under_key<T>(alloc: Global, key: &str, outcome: Result<T, ReadError>) -> Result<T, ReadError>
    ensures { (reading : Reading T) → Gives outcome reading
        → Gives result (under (Key key.now) reading) }
{
    match outcome {
        Err(ReadError::Field(path)) => {
            let step = key_step(alloc, key)?;
            Err(ReadError::Field(path.under(step)?))
        }
        outcome => outcome,
    }
}

/// What was read of the member at that place, counted from 0, seen from the list: a bad field's path begins with the
/// place. Want of memory is handed on, and told where there is none for the step.
pub fn under_place<T>(place: usize, outcome: Result<T, ReadError>) -> Result<T, ReadError>
    ensures { (reading : Reading T) → Gives outcome reading
        → Gives result (under (Place place) reading) }
{
    match outcome {
        Err(ReadError::Field(path)) => Err(ReadError::Field(path.under(Step::Place(place))?)),
        outcome => outcome,
    }
}

/// The step to the member of that key.
fn key_step(alloc: Global, key: &str) -> Result<Step, OutOfMemory>
    ensures { IfOk result (λ step. step ≡ Key key.now) }
{
    Ok(Step::Key(Text::from(String::from_str(alloc, key)?)))
}

/// A rule that what was read must meet; else the value itself is bad. Within `under_key` the member of that key is bad.
#[tactic(auto, unfolding(crate::specs::Forms::holds))]
pub fn holds(alloc: Global, rule: bool) -> Result<(), ReadError>
    ensures { Gives result (spec.holds rule) }
{
    if rule {
        Ok(())
    } else {
        Err(ReadError::here(alloc))
    }
}

/// The value must be an object; else the value itself is bad. The form of an object begins with this.
#[tactic(auto, unfolding(crate::specs::Forms::is_object))]
pub fn object(alloc: Global, value: &Value) -> Result<(), ReadError>
    ensures { Gives result (spec.is_object (view value.now)) }
{
    holds(alloc, value.is_object())
}

/// A field that must be there: an absent one is bad. A null is tested by the field's own form.
#[tactic(auto, unfolding(crate::specs::Forms::field))]
pub fn field<F: Form>(alloc: Global, value: &Value, key: &str) -> Result<F, ReadError>
    ensures { Gives result (spec.field key.now F.shape.read (view value.now)) }
{
    let outcome = match value.get(key) {
        Some(member) => F::read(alloc, member),
        None => Err(ReadError::here(alloc)),
    };
    under_key(alloc, key, outcome)
}

/// A field that may be absent: a null stands for an absent one.
#[tactic(auto, unfolding(crate::specs::Forms::optional))]
pub fn optional<F: Form>(alloc: Global, value: &Value, key: &str) -> Result<Option<F>, ReadError>
    ensures { Gives result (spec.optional key.now F.shape.read (view value.now)) }
{
    match value.get(key) {
        Some(member) if !member.is_null() => {
            let member = under_key(alloc, key, F::read(alloc, member))?;
            Ok(Some(member))
        }
        _ => Ok(None),
    }
}

/// A field that must be there and be that word, as a text.
#[tactic(auto, unfolding(crate::specs::Forms::field))]
pub fn fixed(alloc: Global, value: &Value, key: &str, word: &str) -> Result<(), ReadError>
    ensures { Gives result (spec.field key.now (spec.fixed word.now) (view value.now)) }
{
    let outcome = match value.get(key) {
        Some(member) => read_fixed(alloc, member, word),
        None => Err(ReadError::here(alloc)),
    };
    under_key(alloc, key, outcome)
}

/// The value must be that word.
#[tactic(auto, unfolding(crate::specs::Forms::fixed, crate::specs::Forms::one_of, crate::specs::Forms::text))]
fn read_fixed(alloc: Global, value: &Value, word: &str) -> Result<(), ReadError>
    ensures { Gives result (spec.fixed word.now (view value.now)) }
{
    match value.as_str() {
        Some(text) if word == text => Ok(()),
        _ => Err(ReadError::here(alloc)),
    }
}

/// Reads a value as one field, into which no path goes: whatever is bad in it, the value itself is.
#[tactic(auto, unfolding(crate::specs::Forms::whole))]
pub fn whole<F: Form>(alloc: Global, value: &Value) -> Result<F, ReadError>
    ensures { Gives result (spec.whole F.shape.read (view value.now)) }
{
    match F::read(alloc, value) {
        Err(ReadError::Field(_)) => Err(ReadError::here(alloc)),
        outcome => outcome,
    }
}
