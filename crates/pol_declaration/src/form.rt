//! What a form of TOML is, and the combinators that forms of tables are made of.
ghost use Rattle.std.specs.Prelude.{◌≡◌, IfOk, find, map, not, option_copied, string_bytes};
ghost use Rattle.std.specs.List.{list_any};
ghost use Rattle.std.specs.Map.{keys_of};
ghost use Rattle.std.specs.Str.{bytes_eq};
ghost use Rattle.toml.specs.View.{view, items_view, table_view};
ghost use Rattle.pol_declaration.specs.Forms as spec;
ghost use Rattle.pol_declaration.specs.Reading.{Reading, Gives, fault_under, under};
ghost use Rattle.pol_readers.specs.declared.path.Step.TheVariants.{Key, Place};

use crate::fault::{DeclarationRefused, Fault, Why};
use pol_readers::Step;
use pol_types::{Listed, OutOfMemory, Text};
use std::alloc::Global;
use toml::{Table, Value};

/// A type whose values stand in TOML.
///
/// The shape of a table is a chain: `table`, which tests its keys, and then one part for each key, in order (`field`,
/// `optional`, `listed`). Its code is the chain of the calls of these names, each with `?`.
pub trait Form: Drop {
    ghost use Rattle.toml.specs.Data.{Data};
    ghost use Rattle.pol_declaration.specs.Reading.{Reading};

    /// What a value of TOML stands for, or its first fault.
    ghost shape: { Data → Reading Self };

    /// Reads a value of TOML. An error is its first fault, or want of memory, for which no clause names a cause.
    fn read(alloc: Global, value: &Value) -> Result<Self, DeclarationRefused>
        ensures { Gives result (shape (view value.now)) };
}

/// What was read of the member of that key, seen from the table.
fn under_key<T>(
    alloc: Global,
    key: &str,
    outcome: Result<T, DeclarationRefused>,
) -> Result<T, DeclarationRefused>
    ensures { (reading : Reading T) → Gives outcome reading
        → Gives result (under (Key key.now) reading) }
{
    match outcome {
        Err(DeclarationRefused::BadDeclaration(fault)) => {
            let step = key_step(alloc, key)?;
            Err(seen_from(step, fault)?)
        }
        outcome => outcome,
    }
}

/// What was read of the member at that place, counted from 0, seen from the list.
fn under_place<T>(
    place: usize,
    outcome: Result<T, DeclarationRefused>,
) -> Result<T, DeclarationRefused>
    ensures { (reading : Reading T) → Gives outcome reading
        → Gives result (under (Place place) reading) }
{
    match outcome {
        Err(DeclarationRefused::BadDeclaration(fault)) => {
            Err(seen_from(Step::Place(place), fault)?)
        }
        outcome => outcome,
    }
}

/// The step to the member of that key.
fn key_step(alloc: Global, key: &str) -> Result<Step, OutOfMemory>
    ensures { IfOk result (λ step. step ≡ Key key.now) }
{
    Ok(Step::Key(Text::from(String::from_str(alloc, key)?)))
}

/// The fault, seen from one step further out.
fn seen_from(step: Step, fault: Fault) -> Result<DeclarationRefused, OutOfMemory>
    ensures { IfOk result (λ refused. refused ≡ DeclarationRefused.BadDeclaration (fault_under step fault)) }
{
    match fault {
        Fault::At { path, why } => {
            let path = path.under(step)?;
            Ok(DeclarationRefused::BadDeclaration(Fault::At { path, why }))
        }
        whole => Ok(DeclarationRefused::BadDeclaration(whole)),
    }
}

/// The value must be a table that has no keys but these. The form of a table begins with this.
#[tactic(auto, unfolding(crate::specs::Forms::table))]
pub fn table(alloc: Global, value: &Value, keys: &[&str]) -> Result<(), DeclarationRefused>
    ensures { Gives result (spec.table (map (λ key. key.now) keys.now) (view value.now)) }
{
    match value.as_table() {
        Some(members) => listed_keys(alloc, members, keys),
        None => Err(DeclarationRefused::here(alloc, Why::NotTable)),
    }
}

/// The keys of the members must be among these.
#[tactic(auto, unfolding(crate::specs::Forms::only_listed))]
fn listed_keys(alloc: Global, members: &Table, keys: &[&str]) -> Result<(), DeclarationRefused>
    ensures { Gives result (spec.only_listed (map (λ key. key.now) keys.now) (table_view members.now)) }
{
    match unlisted_key(members, keys) {
        Some(key) => under_key(
            alloc,
            key.as_str(),
            Err(DeclarationRefused::here(alloc, Why::Unlisted)),
        ),
        None => Ok(()),
    }
}

/// The first key of the members that isn't among these.
fn unlisted_key<'a>(members: &'a Table, keys: &[&str]) -> Option<&'a String>
    ensures { option_copied result
        ≡ find (λ key. not (list_any (λ one. bytes_eq one.now (string_bytes key)) keys.now)) (keys_of members.now.entries) }
{
    members.keys().find(|key| !is_listed(keys, key.as_str()))
}

/// Whether the key is one of these.
fn is_listed(keys: &[&str], key: &str) -> bool
    ensures { result ≡ list_any (λ one. bytes_eq one.now key.now) keys.now }
{
    keys.iter().any(|one| *one == key)
}

/// The value of a key that must be there.
#[tactic(auto, unfolding(crate::specs::Forms::field))]
pub fn field<F: Form>(alloc: Global, value: &Value, key: &str) -> Result<F, DeclarationRefused>
    ensures { Gives result (spec.field key.now F.shape (view value.now)) }
{
    let outcome = match value.get(key) {
        Some(member) => F::read(alloc, member),
        None => Err(DeclarationRefused::here(alloc, Why::Missing)),
    };
    under_key(alloc, key, outcome)
}

/// The value of a key that may be absent.
#[tactic(auto, unfolding(crate::specs::Forms::optional))]
pub fn optional<F: Form>(
    alloc: Global,
    value: &Value,
    key: &str,
) -> Result<Option<F>, DeclarationRefused>
    ensures { Gives result (spec.optional key.now F.shape (view value.now)) }
{
    match value.get(key) {
        Some(member) => {
            let member = under_key(alloc, key, F::read(alloc, member))?;
            Ok(Some(member))
        }
        None => Ok(None),
    }
}

/// The list of a key, which is empty where the key is absent.
#[tactic(auto, unfolding(crate::specs::Forms::listed))]
pub fn listed<F: Form>(
    alloc: Global,
    value: &Value,
    key: &str,
) -> Result<Listed<F>, DeclarationRefused>
    ensures { Gives result (spec.listed key.now F.shape (view value.now)) }
{
    match optional(alloc, value, key)? {
        Some(values) => Ok(values),
        None => Ok(Listed::from(Vec::new(alloc))),
    }
}

/// A string.
#[tactic(auto, unfolding(crate::specs::Forms::text))]
impl Form for Text {
    ghost shape = { spec.text };

    fn read(alloc: Global, value: &Value) -> Result<Self, DeclarationRefused> {
        match value.as_str() {
            Some(text) => Ok(Text::from(String::from_str(alloc, text)?)),
            None => Err(DeclarationRefused::here(alloc, Why::NotText)),
        }
    }
}

/// An array whose members are of one form. They are read by rising place.
#[tactic(auto, unfolding(crate::specs::Forms::list))]
impl<F: Form> Form for Listed<F> {
    ghost shape = { spec.list F.shape };

    fn read(alloc: Global, value: &Value) -> Result<Self, DeclarationRefused> {
        match value.as_array() {
            Some(items) => read_items(alloc, items),
            None => Err(DeclarationRefused::here(alloc, Why::NotList)),
        }
    }
}

/// Reads the members of a list.
fn read_items<F: Form>(alloc: Global, items: &Vec<Value>) -> Result<Listed<F>, DeclarationRefused>
    ensures { Gives result (spec.items F.shape 0 (items_view items.now.items)) }
{
    let mut read = Vec::with_capacity(alloc, items.len())?;
    for (place, item) in items.iter().enumerate() {
        let value = under_place(place, F::read(alloc, item))?;
        read.push(value)?;
    }
    Ok(Listed::from(read))
}
