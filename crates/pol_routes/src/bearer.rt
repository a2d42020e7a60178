//! The caller of a request, by its Authorization field (RFC 9110, section 11.6.2; RFC 6750, section 2.1).
ghost use Rattle.std.specs.Prelude.{◌≡◌, length, map, All, Some, None, option_map, IfOk, codes};
ghost use Rattle.httparse.specs.Grammar.{RequestHead};
ghost use Rattle.httparse.specs.Spans.{IsHeaderWithin, header_bytes};
ghost use Rattle.pol_http.specs.Fields.{is_named};
ghost use Rattle.pol_http.specs.Head.{IsHeadOf, IsHeadWithin, fields_of};
ghost use Rattle.pol_routes.specs.Bearer as spec;

use httparse::spans::HeaderSpan;
use pol_commands::Caller;
use pol_http::Head;
use pol_types::{Bytes, OutOfMemory};
use std::alloc::Global;

/// The scheme of a bearer, with the space behind it.
const SCHEME: &[u8] = b"Bearer ";

/// The caller of the request with this head: the bearer of the text behind `Bearer`, in any case, and one space, or
/// nobody. Only the first Authorization field is looked at, by its name in any case.
pub fn caller_of(alloc: Global, bytes: &[u8], head: &Head) -> Result<Caller, OutOfMemory>
    requires { IsHeadWithin (length bytes.now) head.now }
    ensures { (request : RequestHead) → IsHeadOf bytes.now head.now request
        → IfOk result (λ caller. caller ≡ spec.caller_of (fields_of request)) }
{
    match first_value(bytes, &head.fields[..head.count], b"authorization") {
        Some(value) => caller_by(alloc, value),
        None => Ok(Caller::Nobody),
    }
}

/// The value of the first field of a name.
fn first_value<'b>(bytes: &'b [u8], fields: &[HeaderSpan], name: &[u8]) -> Option<&'b [u8]>
    requires { All (IsHeaderWithin (length bytes.now)) fields.now }
    ensures { option_map (λ value. value.now) result
        ≡ spec.first_value name.now (map (header_bytes bytes.now) fields.now) }
{
    for field in fields {
        if has_name(bytes, field, name) {
            return Some(field.value.of(bytes));
        }
    }
    None
}

/// Whether a field has that name, in any case.
fn has_name(bytes: &[u8], field: &HeaderSpan, name: &[u8]) -> bool
    requires { IsHeaderWithin (length bytes.now) field.now }
    ensures { result ≡ is_named name.now (header_bytes bytes.now field.now) }
{
    field.name.of(bytes).eq_ignore_ascii_case(name)
}

/// The caller by the value of an Authorization field.
fn caller_by(alloc: Global, value: &[u8]) -> Result<Caller, OutOfMemory>
    ensures { IfOk result (λ caller. caller ≡ spec.caller_by (Some value.now)) }
{
    match token_of(value) {
        Some(token) => Ok(Caller::Bearer(Bytes::from(Vec::from_slice(alloc, token)?))),
        None => Ok(Caller::Nobody),
    }
}

/// The text behind `Bearer` and one space.
#[tactic(auto, using(std::proofs::lemmas::List::take_min, std::proofs::lemmas::List::drop_min))]
fn token_of(value: &[u8]) -> Option<&[u8]>
    ensures { option_map (λ token. token.now) result ≡ spec.token_of value.now }
{
    let end = SCHEME.len().min(value.len());
    if value[..end].eq_ignore_ascii_case(SCHEME) {
        Some(&value[end..])
    } else {
        None
    }
}
