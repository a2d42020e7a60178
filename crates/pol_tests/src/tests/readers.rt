//! Bodies of a small form, which has each kind of part, also those that no command reads yet.
mod change;

ghost use Rattle.std.specs.Prelude.{◌≡◌, Err, IfOk, List, string_bytes};
ghost use Rattle.pol_readers.specs.Laws.{BodiesAreExact};
ghost use Rattle.pol_readers.specs.Path.{path_text};
ghost use Rattle.pol_readers.specs.Shape as spec;
ghost use Rattle.pol_readers.specs.declared.path.Step.{Step};

use change::{Action, Body, Update};
use pol_readers::{Form, OrMinusOne, ReadError, laws, read_body};
use std::alloc::{AllocError, Global};
use std::fmt::Write;

/// What is told of a body: what was read of it, or the path to its first bad field.
fn told(alloc: Global, bytes: &[u8]) -> Result<String, AllocError>
    ensures { (path : List Step) → spec.body ⟦<Body as Form>⟧.shape bytes.now ≡ Err path
        → IfOk result (λ text. string_bytes text ≡ path_text path) }
{
    match read_body::<Body>(alloc, bytes) {
        Ok(body) => printed(alloc, &body),
        Err(ReadError::Field(path)) => path.to_string(alloc),
        Err(ReadError::OutOfMemory) => Err(AllocError),
    }
}

/// A body that was read.
fn printed(alloc: Global, body: &Body) -> Result<String, AllocError> {
    let mut text = String::new(alloc);
    write!(text, "{}", body.name)?;
    if let Some(properties) = &body.properties {
        for (key, value) in properties.as_slice() {
            write!(text, " {key}={value}")?;
        }
    }
    for update in body.updates.iter() {
        print_update(&mut text, update)?;
    }
    Ok(text)
}

fn print_update(text: &mut String, update: &Update) -> Result<(), AllocError> {
    let action = update.action;
    write!(text, "; {action:?} {}", update.snapshot.get())?;
    match &update.schema {
        Some(OrMinusOne::MinusOne) => write!(text, " last"),
        Some(OrMinusOne::Other(schema)) => write!(text, " {}", schema.get()),
        None => Ok(()),
    }
}

/// Bodies, and what is told of them.
const BODIES: [(&str, &str); 13] = [
    ("[]", "body"),
    (r#"{"updates":[]}"#, "name"),
    (r#"{"name":"","updates":[]}"#, "name"),
    (r#"{"name":"c"}"#, "updates"),
    (r#"{"updates":1,"name":"c","properties":1}"#, "properties"),
    (r#"{"name":"c","properties":{"b":1,"a":2}}"#, "properties.a"),
    (r#"{"name":"c","updates":[1]}"#, "updates[0]"),
    (
        r#"{"name":"c","updates":[{"action":"add"}]}"#,
        "updates[0].kind",
    ),
    (
        r#"{"name":"c","updates":[{"kind":"updates"}]}"#,
        "updates[0].kind",
    ),
    (
        r#"{"name":"c","updates":[{"kind":"update","action":"Add"}]}"#,
        "updates[0].action",
    ),
    (
        r#"{"name":"c","updates":[{"kind":"update","action":"add","snapshot":1},{"kind":"update","action":"add"},{}]}"#,
        "updates[1].snapshot",
    ),
    (r#"{"name":"é","properties":null,"updates":[]}"#, "é"),
    (
        r#"{"name":"c","properties":{"b":"1","a":"2","é":"3","Z":"4","b":"5"},"updates":[]}"#,
        "c Z=4 a=2 b=5 é=3",
    ),
];

const SNAPSHOT: &str = "updates[0].snapshot";

const SCHEMA: &str = "updates[0].schema";

/// Fields of an update, and what is told of a body with it.
const NUMBERS: [(&str, &str); 16] = [
    (r#""snapshot":0"#, SNAPSHOT),
    (r#""snapshot":-1"#, SNAPSHOT),
    (r#""snapshot":1.0"#, SNAPSHOT),
    (r#""snapshot":1e0"#, SNAPSHOT),
    (r#""snapshot":"1""#, SNAPSHOT),
    (r#""snapshot":null"#, SNAPSHOT),
    (r#""snapshot":9223372036854775808"#, SNAPSHOT),
    (r#""snapshot":18446744073709551617"#, SNAPSHOT),
    (r#""snapshot":1,"schema":-2"#, SCHEMA),
    (r#""snapshot":1,"schema":-0"#, SCHEMA),
    (r#""snapshot":1,"schema":-1.0"#, SCHEMA),
    (r#""snapshot":1,"schema":2147483648"#, SCHEMA),
    (r#""snapshot":1"#, "c; Remove 1"),
    (
        r#""snapshot":9223372036854775807,"schema":0"#,
        "c; Remove 9223372036854775807 0",
    ),
    (
        r#""snapshot":2,"schema":2147483647"#,
        "c; Remove 2 2147483647",
    ),
    (r#""snapshot":3,"schema":-1"#, "c; Remove 3 last"),
];

/// The first of these cases whose body, with so much in front and behind, is told otherwise.
fn first_other<'a>(
    alloc: Global,
    front: &str,
    cases: &[(&'a str, &str)],
    behind: &str,
) -> Result<&'a str, AllocError> {
    for (text, expected) in cases {
        let body = format!(in alloc; "{front}{text}{behind}")?;
        if told(alloc, body.as_bytes())?.as_str() != *expected {
            return Ok(*text);
        }
    }
    Ok("none")
}

#[test]
fn bodies_are_read_or_their_first_bad_field_is_told(rt: HostRuntime) {
    let alloc = rt.alloc();
    assert!(rt; first_other(alloc, "", &BODIES, "") == Ok("none"));
    let front = r#"{"name":"c","updates":[{"kind":"update","action":"remove","#;
    assert!(rt; first_other(alloc, front, &NUMBERS, "}]}") == Ok("none"));
}

/// The whole form is exact on its grammar.
fn bodies_are_exact()
    ensures { BodiesAreExact ⟦<Body as Form>⟧.shape }
{
    laws::bodies_are_exact::<Body>()
}

#[test]
fn laws_hold_of_a_form() {
    bodies_are_exact();
    laws::fields_are_exact::<Body>();
    laws::optional_fields_are_exact::<Body>();
    laws::lists_are_exact::<Body>();
    laws::entries_are_exact::<Body>();
    laws::wholes_are_exact::<Body>();
    laws::numbers_or_minus_one_are_exact::<Body>();
    laws::words_are_exact::<Action>();
    laws::other_bodies_are_bad::<Body>();
    laws::last_of_equal_keys_counts::<Body>();
    laws::other_keys_are_ignored::<Body>();
}
