//! Types of columns that have no columns in them.
ghost use Rattle.std.specs.Prelude.{◌≡◌, ◌<◌, length, IfSome, option_copied};
ghost use Rattle.pol_metajson.specs.Kind as spec;

use crate::brackets::{between, sized};
use crate::numeral::numeral;
use pol_meta::Kind;

/// The type that a word names.
#[tactic(auto, unfolding(crate::specs::Kind::kind_of))]
pub(crate) fn kind_of(word: &str) -> Option<Kind>
    ensures { result ≡ spec.kind_of word.now }
{
    if let Some(kind) = plain_kind(word) {
        return Some(kind);
    }
    if let Some(kind) = timed_kind(word) {
        return Some(kind);
    }
    if let Some(length) = sized(word, "fixed[") {
        return Some(Kind::Fixed { length });
    }
    decimal(word)
}

/// A truth value, a number or a date.
fn plain_kind(word: &str) -> Option<Kind>
    ensures { result ≡ spec.plain_kind word.now }
{
    match word {
        "boolean" => Some(Kind::Boolean),
        "int" => Some(Kind::Int),
        "long" => Some(Kind::Long),
        "float" => Some(Kind::Float),
        "double" => Some(Kind::Double),
        "date" => Some(Kind::Date),
        _ => None,
    }
}

/// A time, a text, a uuid or bytes.
fn timed_kind(word: &str) -> Option<Kind>
    ensures { result ≡ spec.timed_kind word.now }
{
    match word {
        "time" => Some(Kind::Time),
        "timestamp" => Some(Kind::Timestamp),
        "timestamptz" => Some(Kind::Timestamptz),
        "string" => Some(Kind::String),
        "uuid" => Some(Kind::Uuid),
        "binary" => Some(Kind::Binary),
        _ => None,
    }
}

/// A decimal, whose precision and scale stand in brackets.
fn decimal(word: &str) -> Option<Kind>
    ensures { result ≡ spec.decimal_of word.now }
{
    let inner = between(word, "decimal(", ")")?;
    let place = comma_of(inner)?;
    decimal_at(inner, place)
}

/// The place of the first comma.
fn comma_of(bytes: &[u8]) -> Option<usize>
    ensures place { result ≡ spec.comma_of bytes.now }
    ensures within { IfSome result (λ place. place < length bytes.now) }
{
    bytes.iter().position(|byte| *byte == b',')
}

/// A decimal of a precision from 1 to 38 and a scale from 0 to the precision, with a comma between the two at this
/// place, and one space behind it or none.
fn decimal_at(inner: &[u8], place: usize) -> Option<Kind>
    requires { place < length inner.now }
    ensures { result ≡ spec.decimal_at inner.now place }
{
    let precision = numeral(&inner[..place], 1, 38)?;
    let scale = numeral(without_space(&inner[place + 1..]), 0, precision)?;
    Some(Kind::Decimal { precision, scale })
}

/// The bytes without one space at their head.
fn without_space(bytes: &[u8]) -> &[u8]
    ensures { result.now ≡ spec.without_space bytes.now }
{
    match bytes.strip_prefix(b" ") {
        Some(rest) => rest,
        None => bytes,
    }
}
