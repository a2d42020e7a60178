ghost use Rattle.std.specs.Prelude.{◌≡◌, ◌-◌, ◌++◌, drop, length, take, false, true, IfOk};
ghost use Rattle.serde_json.specs.View.{members_view, view};
ghost use Rattle.serde_json.specs.Written.{comma_if, compact_text, has_float, members_have_float, members_text};
ghost use Rattle.pol_json_texts.specs.Objects.{are_some, named_text, opened_text};

use json::Writer;
use pol_types::OutOfMemory;
use serde_json::{Map, Value};
use std::alloc::Global;

/// The members of an object.
pub type Members = Map<String, Value>;

/// Writes an object with these members, which have no floats, but for its end.
#[tactic(auto, using(crate::proofs::ObjectLemmas::opened_object))]
pub fn open_object(alloc: Global, text: Vec<u8>, members: Members) -> Result<Vec<u8>, OutOfMemory>
    requires { members_have_float (members_view members.entries) ≡ false }
    ensures { IfOk result (λ all. all.items ≡ text.items ++ opened_text (members_view members.entries)) }
{
    let object = object_text(alloc, Value::from(members))?;
    write_bytes(text, before_end(object.as_slice()))
}

/// Writes the name of a member, whose value comes next. `later` says whether another member stands before it.
#[tactic(auto, using(crate::proofs::ObjectLemmas::named_member))]
pub fn name_member(text: Vec<u8>, later: bool, name: &str) -> Result<Vec<u8>, OutOfMemory>
    ensures { IfOk result (λ all. all.items ≡ text.items ++ named_text later name.now) }
{
    let mut out = Writer::new(with_comma(text, later)?);
    out.key(name)?;
    Ok(out.into_inner())
}

/// The text, and a comma where another member stands before.
fn with_comma(text: Vec<u8>, later: bool) -> Result<Vec<u8>, OutOfMemory>
    ensures { IfOk result (λ all. all.items ≡ text.items ++ comma_if later) }
{
    write_bytes(text, if later { b"," } else { b"" })
}

/// Writes the last members of an object, which have no floats, behind another one, and its end.
#[tactic(auto, using(crate::proofs::ObjectLemmas::closed_object))]
pub fn close_object(alloc: Global, text: Vec<u8>, members: Members) -> Result<Vec<u8>, OutOfMemory>
    requires { members_have_float (members_view members.entries) ≡ false }
    ensures { IfOk result (λ all. all.items
        ≡ text.items ++ members_text true (members_view members.entries)) }
{
    let text = with_comma(text, are_some(&members))?;
    let object = object_text(alloc, Value::from(members))?;
    write_bytes(text, past_bracket(object.as_slice()))
}

/// Whether there are members.
fn are_some(members: &Members) -> bool
    ensures { result ≡ are_some (members_view members.now.entries) }
{
    !members.is_empty()
}

/// The text of an object but for its end.
fn before_end(object: &[u8]) -> &[u8]
    ensures { result.now ≡ take (length object.now - 1) object.now }
{
    match object.split_last() {
        Some((_, front)) => front,
        None => object,
    }
}

/// The text of an object behind its bracket.
fn past_bracket(object: &[u8]) -> &[u8]
    ensures { result.now ≡ drop 1 object.now }
{
    match object.split_first() {
        Some((_, rest)) => rest,
        None => object,
    }
}

/// The text of an object without floats.
fn object_text(alloc: Global, object: Value) -> Result<Vec<u8>, OutOfMemory>
    requires { has_float (view object) ≡ false }
    ensures { IfOk result (λ text. text.items ≡ compact_text (view object)) }
{
    Ok(object.to_vec(alloc)?)
}

/// The text, and more behind it.
fn write_bytes(text: Vec<u8>, more: &[u8]) -> Result<Vec<u8>, OutOfMemory>
    ensures { IfOk result (λ all. all.items ≡ text.items ++ more.now) }
{
    let mut text = text;
    text.extend_from_slice(more)?;
    Ok(text)
}
