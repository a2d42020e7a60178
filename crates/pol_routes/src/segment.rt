//! The segments of a path, as texts and as names (RFC 3986, sections 2.1 and 3.3).
ghost use Rattle.std.specs.Prelude.{◌≡◌, IfOk};
ghost use Rattle.percent_encoding.specs.Percent.{percent_decode};
ghost use Rattle.pol_requests.specs.Refused.{Meets};
ghost use Rattle.pol_routes.specs.Form as form;
ghost use Rattle.pol_routes.specs.Segment as spec;

use crate::form::text_of;
use percent_encoding::percent_decode;
use pol_names::{Name, NameRefused, Namespace, NamespaceRefused, Plain};
use pol_requests::{Unplanned, unreadable};
use pol_types::{OutOfMemory, Text};
use std::alloc::Global;

/// The field that is named where a segment can't be read.
pub(crate) const PATH_FIELD: &str = "path";

/// The segment of a path that stands for a parameter of its pattern, as `{namespace}`. It is empty where the pattern
/// has no such parameter, or the path no such segment.
#[tactic(auto, unfolding(crate::specs::Segment::segment_for))]
pub(crate) fn segment_for<'p>(path: &'p [u8], pattern: &[u8], parameter: &[u8]) -> &'p [u8]
    ensures { result.now ≡ spec.segment_for parameter.now pattern.now path.now }
{
    match place_of(pattern, parameter) {
        Some(place) => segment_at(path, place),
        None => b"",
    }
}

/// The place among a pattern's segments of a parameter.
fn place_of(pattern: &[u8], parameter: &[u8]) -> Option<usize>
    ensures { result ≡ spec.place_of parameter.now pattern.now }
{
    pattern
        .split(|byte| *byte == b'/')
        .position(|segment| segment == parameter)
}

/// The segment of a path at a place. It is empty where the path has fewer.
fn segment_at(path: &[u8], place: usize) -> &[u8]
    ensures { result.now ≡ spec.segment_at path.now place }
{
    match path.split(|byte| *byte == b'/').nth(place) {
        Some(segment) => segment,
        None => b"",
    }
}

/// The text of a segment. It is unreadable where a `%` isn't followed by two hexadecimal digits, and where it isn't
/// UTF-8 once decoded.
pub fn segment_text(alloc: Global, segment: &[u8]) -> Result<Text, Unplanned>
    ensures { Meets (spec.segment_text segment.now) result }
{
    if !has_whole_escapes(segment) {
        return Err(unreadable(alloc, PATH_FIELD));
    }
    match decoded_text(alloc, segment)? {
        Some(text) => Ok(text),
        None => Err(unreadable(alloc, PATH_FIELD)),
    }
}

/// The plain name that a segment is, which is unreadable where it is none.
#[tactic(auto, using(pol_requests::proofs::RefusedLemmas::chained))]
pub fn plain_segment(alloc: Global, segment: &[u8]) -> Result<Plain, Unplanned>
    ensures { Meets (spec.plain_segment segment.now) result }
{
    let text = segment_text(alloc, segment)?;
    plain_of(alloc, text.as_str(), PATH_FIELD)
}

/// The name that a segment is, which is unreadable where it is none.
#[tactic(auto, using(pol_requests::proofs::RefusedLemmas::chained))]
pub fn name_segment(alloc: Global, segment: &[u8]) -> Result<Name, Unplanned>
    ensures { Meets (spec.name_segment segment.now) result }
{
    let text = segment_text(alloc, segment)?;
    name_of(alloc, text.as_str())
}

/// The namespace that a segment is, its levels behind one another with 0x1F between them (Iceberg REST OpenAPI,
/// parameter `namespace`). It is unreadable where it is none.
#[tactic(auto, using(pol_requests::proofs::RefusedLemmas::chained))]
pub fn namespace_segment(alloc: Global, segment: &[u8]) -> Result<Namespace, Unplanned>
    ensures { Meets (spec.namespace_segment segment.now) result }
{
    let text = segment_text(alloc, segment)?;
    namespace_of(alloc, text.as_str(), PATH_FIELD)
}

/// Whether each `%` is followed by two hexadecimal digits.
#[tactic(auto, unfolding(crate::specs::Segment::has_whole_escapes))]
fn has_whole_escapes(bytes: &[u8]) -> bool
    ensures { result ≡ spec.has_whole_escapes bytes.now }
{
    let mut rest = bytes;
    'bytes: while let [byte, after @ ..] = rest {
        if *byte == b'%' && !begins_with_digits(after) {
            return false;
        }
        rest = after;
    }
    true
}

/// Whether two hexadecimal digits come first.
fn begins_with_digits(bytes: &[u8]) -> bool
    ensures { result ≡ spec.begins_with_digits bytes.now }
{
    match bytes {
        [high, low, ..] => high.is_ascii_hexdigit() && low.is_ascii_hexdigit(),
        _ => false,
    }
}

/// The decoded text, where it is UTF-8.
fn decoded_text(alloc: Global, written: &[u8]) -> Result<Option<Text>, OutOfMemory>
    ensures { IfOk result (λ text. text ≡ form.text_of (percent_decode written.now)) }
{
    let mut bytes = Vec::new(alloc);
    percent_decode(written).append_to(&mut bytes)?;
    Ok(text_of(bytes))
}

/// The plain name that the text of a field is.
#[tactic(auto, using(pol_requests::proofs::RefusedLemmas::refused), unfolding(crate::specs::Segment::plain_of))]
pub(crate) fn plain_of(alloc: Global, text: &str, field: &str) -> Result<Plain, Unplanned>
    ensures { Meets (spec.plain_of field.now text.now) result }
{
    match Plain::new(alloc, text) {
        Ok(name) => Ok(name),
        Err(NameRefused::OutOfMemory) => Err(Unplanned::OutOfMemory),
        Err(_) => Err(unreadable(alloc, field)),
    }
}

/// The name that a text is.
#[tactic(auto, using(pol_requests::proofs::RefusedLemmas::refused), unfolding(crate::specs::Segment::name_of))]
fn name_of(alloc: Global, text: &str) -> Result<Name, Unplanned>
    ensures { Meets (spec.name_of text.now) result }
{
    match Name::new(alloc, text) {
        Ok(name) => Ok(name),
        Err(NameRefused::OutOfMemory) => Err(Unplanned::OutOfMemory),
        Err(_) => Err(unreadable(alloc, PATH_FIELD)),
    }
}

/// The namespace whose levels the text of a field has.
#[tactic(auto, using(pol_requests::proofs::RefusedLemmas::refused), unfolding(crate::specs::Segment::namespace_of))]
pub(crate) fn namespace_of(alloc: Global, text: &str, field: &str) -> Result<Namespace, Unplanned>
    ensures { Meets (spec.namespace_of field.now text.now) result }
{
    match Namespace::from_segment(alloc, text) {
        Ok(namespace) => Ok(namespace),
        Err(NamespaceRefused::OutOfMemory) => Err(Unplanned::OutOfMemory),
        Err(_) => Err(unreadable(alloc, field)),
    }
}
