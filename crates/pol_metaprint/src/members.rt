//! Members of objects.
ghost use Rattle.std.specs.Prelude.{◌≡◌, IfOk};
ghost use Rattle.std.specs.List.{fold};
ghost use Rattle.serde_json.specs.Data.{no_members, object, put as with_put, string};
ghost use Rattle.serde_json.specs.View.{members_view, view};
ghost use Rattle.pol_metaprint.specs.Columns.{put_text};
ghost use Rattle.pol_metaprint.specs.Json as spec;

pub use pol_json_texts::Members;
use pol_properties::{Properties, Property};
use pol_types::{OutOfMemory, Text};
use serde_json::{Map, Value, put};
use std::alloc::Global;

pub fn none(alloc: Global) -> Members
    ensures { members_view result.entries ≡ no_members }
{
    Map::new(alloc)
}

/// The members, and one more.
pub fn with(
    alloc: Global,
    members: Members,
    key: &str,
    value: Value,
) -> Result<Members, OutOfMemory>
    ensures { IfOk result (λ all. members_view all.entries
        ≡ with_put key.now (view value) (members_view members.entries)) }
{
    let mut all = members;
    put(&mut all, alloc, key, value)?;
    Ok(all)
}

/// The members, and a text.
pub fn with_text(
    alloc: Global,
    members: Members,
    key: &str,
    text: &str,
) -> Result<Members, OutOfMemory>
    ensures { IfOk result (λ all. members_view all.entries
        ≡ with_put key.now (string text.now) (members_view members.entries)) }
{
    let value = Value::try_from_str(alloc, text)?;
    with(alloc, members, key, value)
}

/// The members, and a number.
pub fn with_number(
    alloc: Global,
    members: Members,
    key: &str,
    number: u64,
) -> Result<Members, OutOfMemory>
    ensures { IfOk result (λ all. members_view all.entries
        ≡ with_put key.now (spec.number_json number) (members_view members.entries)) }
{
    with(alloc, members, key, Value::from(number))
}

/// The members, and a number if it is there.
pub(crate) fn with_optional(
    alloc: Global,
    members: Members,
    key: &str,
    number: Option<u64>,
) -> Result<Members, OutOfMemory>
    ensures { IfOk result (λ all. members_view all.entries
        ≡ spec.put_number key.now number (members_view members.entries)) }
{
    match number {
        Some(number) => with_number(alloc, members, key, number),
        None => Ok(members),
    }
}

/// The members, and a text if it is there.
pub fn with_optional_text(
    alloc: Global,
    members: Members,
    key: &str,
    text: &Option<Text>,
) -> Result<Members, OutOfMemory>
    ensures { IfOk result (λ all. members_view all.entries
        ≡ put_text key.now text.now (members_view members.entries)) }
{
    match text {
        Some(text) => with_text(alloc, members, key, text.as_str()),
        None => Ok(members),
    }
}

/// An object of texts.
#[tactic(auto, unfolding(crate::specs::Json::pairs_json))]
pub fn pairs(alloc: Global, properties: &Properties) -> Result<Value, OutOfMemory>
    ensures { IfOk result (λ value. view value ≡ spec.pairs_json properties.now) }
{
    let members = pair_members(alloc, properties.iter().as_slice())?;
    Ok(Value::from(members))
}

fn pair_members(alloc: Global, pairs: &[Property]) -> Result<Members, OutOfMemory>
    ensures { IfOk result (λ all. members_view all.entries ≡ fold spec.put_pair no_members pairs.now) }
{
    let mut members = none(alloc);
    for pair in pairs {
        members = with_text(alloc, members, pair.key.as_str(), pair.value.as_str())?;
    }
    Ok(members)
}
