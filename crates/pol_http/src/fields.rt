//! What the fields of a head say of its message (RFC 9110, sections 5.6.1 and 8.6).
ghost use Rattle.std.specs.Prelude.{◌≡◌, ◌+◌, length, map, reverse, min, All, option_map};
ghost use Rattle.httparse.specs.Grammar.{skip_ows, trim_ows};
ghost use Rattle.httparse.specs.Spans.{IsHeaderWithin, header_bytes};
ghost use Rattle.pol_http.specs.Fields as spec;
ghost use Rattle.pol_http.specs.declared.head.TheConstants.{BODY_LIMIT};

use crate::head::{BODY_LIMIT, HeadRefused};
use httparse::spans::{HeaderSpan, Span};

/// The length of the body that the fields announce (RFC 9112, section 6.3).
pub(crate) fn body_length(bytes: &[u8], fields: &[HeaderSpan]) -> Result<usize, HeadRefused>
    requires { All (IsHeaderWithin (length bytes.now)) fields.now }
    ensures { result ≡ spec.announced_length (map (header_bytes bytes.now) fields.now) }
{
    let Some((length, coded)) = framing(bytes, fields) else {
        return Err(HeadRefused::BadHead);
    };
    if coded {
        return Err(HeadRefused::LengthNeeded);
    }
    if length > BODY_LIMIT {
        return Err(HeadRefused::BodyTooLong);
    }
    Ok(length)
}

/// What Content-Length says, or one above `BODY_LIMIT` where it says more, and whether there is a
/// Transfer-Encoding. `None` where Content-Length stands twice or writes no number.
fn framing(bytes: &[u8], fields: &[HeaderSpan]) -> Option<(usize, bool)>
    requires { All (IsHeaderWithin (length bytes.now)) fields.now }
    ensures { result ≡ option_map
        (λ said. (min (BODY_LIMIT + 1) said, spec.is_coded (map (header_bytes bytes.now) fields.now)))
        (spec.said_length (map (header_bytes bytes.now) fields.now)) }
{
    let mut found: Option<Span> = None;
    let mut coded = false;
    for field in fields {
        if is_named(bytes, field, b"content-length") {
            if found.is_some() {
                return None;
            }
            found = Some(field.value);
        }
        coded |= is_named(bytes, field, b"transfer-encoding");
    }
    let length = match found {
        Some(value) => number(value.of(bytes))?,
        None => 0,
    };
    Some((length, coded))
}

/// The number that decimal digits write, or one above `BODY_LIMIT` where it is greater.
fn number(digits: &[u8]) -> Option<usize>
    ensures { result ≡ option_map (min (BODY_LIMIT + 1)) (spec.number_of digits.now) }
{
    if digits.is_empty() {
        return None;
    }
    let mut value = 0;
    for digit in digits {
        if !digit.is_ascii_digit() {
            return None;
        }
        value = (value * 10 + usize::from(digit - b'0')).min(BODY_LIMIT + 1);
    }
    Some(value)
}

/// Whether a field of that name lists the word, in any case.
pub fn lists(bytes: &[u8], fields: &[HeaderSpan], name: &[u8], word: &[u8]) -> bool
    requires { All (IsHeaderWithin (length bytes.now)) fields.now }
    ensures { result ≡ spec.lists name.now word.now (map (header_bytes bytes.now) fields.now) }
{
    fields.iter().any(|field| is_named(bytes, field, name)
        && has_member(field.value.of(bytes), word))
}

/// Whether the comma-separated list has the word, in any case.
fn has_member(value: &[u8], word: &[u8]) -> bool
    ensures { result ≡ spec.has_member word.now value.now }
{
    value
        .split(|byte| *byte == b',')
        .any(|member| trim(member).eq_ignore_ascii_case(word))
}

/// The bytes without the spaces and tabs at both ends.
#[tactic(auto, unfolding(httparse::specs::Grammar::trim_ows))]
fn trim(bytes: &[u8]) -> &[u8]
    ensures { result.now ≡ trim_ows bytes.now }
{
    trim_end(trim_start(bytes))
}

fn trim_start(bytes: &[u8]) -> &[u8]
    ensures { result.now ≡ skip_ows bytes.now }
{
    let mut rest = bytes;
    'front: while let [b' ' | b'\t', after @ ..] = rest {
        rest = after;
    }
    rest
}

fn trim_end(bytes: &[u8]) -> &[u8]
    ensures { result.now ≡ reverse (skip_ows (reverse bytes.now)) }
{
    let mut rest = bytes;
    'back: while let [before @ .., b' ' | b'\t'] = rest {
        rest = before;
    }
    rest
}

fn is_named(bytes: &[u8], field: &HeaderSpan, name: &[u8]) -> bool
    requires { IsHeaderWithin (length bytes.now) field.now }
    ensures { result ≡ spec.is_named name.now (header_bytes bytes.now field.now) }
{
    field.name.of(bytes).eq_ignore_ascii_case(name)
}
