//! The head of a request, judged by the fields that frame its body.
ghost use Rattle.std.specs.Prelude.{◌≡◌, ℕ, ◌≤◌, ◌&&◌, ◌||◌, ◌==◌, nat_lt, length, take, map, All, Ok, codes};
ghost use Rattle.httparse.specs.Grammar.{RequestHead, HasNoRequest, NeverHasRequest, MayBecomeRequest};
ghost use Rattle.httparse.specs.Spans.{IsHeaderWithin, IsRequestAt, IsRequestOf, IsRequestWithin, RequestOverflows, header_bytes};
ghost use Rattle.pol_http.specs.Fields as spec;
ghost use Rattle.pol_http.specs.Head.{IsHeadOf, IsHeadWithin, body_length};
ghost use Rattle.pol_http.specs.Reading.{ReadsFront, Judges};

use crate::fields::{body_length, lists};
use crate::target::ends_in_bad_target;
use httparse::spans::{EMPTY_HEADER_SPAN, HeaderSpan, RequestSpans, Span, parse_request};
use httparse::{Error, Status};

/// The most bytes of a head, with the empty lines before it and the one that ends it.
pub const HEAD_LIMIT: usize = 16_384;

/// The most fields of a head.
pub const FIELD_LIMIT: usize = 64;

/// The most bytes of a body.
pub const BODY_LIMIT: usize = 16_777_216;

/// A field takes three bytes at least, so no head within `HEAD_LIMIT` has more fields than this.
const FIELDS_OF_ANY_HEAD: usize = 5461;

/// Why a head is refused. No answer but an error and the end of the connection can follow.
#[derive(Clone, Copy, PartialEq, Eq)]
pub enum HeadRefused {
    /// The bytes begin no head, or the head passes a limit, or its Content-Length is no one number.
    BadHead,
    /// There is a Transfer-Encoding.
    LengthNeeded,
    /// The Content-Length is above `BODY_LIMIT`.
    BodyTooLong,
}

/// The head of a request, as ranges of the bytes that it was read from.
#[derive(Drop)]
pub struct Head {
    pub method: Span,
    /// The request target, as it was sent.
    pub target: Span,
    /// 0 for HTTP/1.0 and 1 for HTTP/1.1.
    pub minor: u8,
    /// The first `count` of these are the head's fields.
    pub fields: [HeaderSpan; FIELD_LIMIT],
    pub count: usize,
    /// Whether the connection ends after the answer: HTTP/1.0, or `close` in a Connection field.
    pub closes: bool,
    /// Whether the sender waits for `100 Continue`: HTTP/1.1, a body, and `100-continue` in an
    /// Expect field.
    pub asks: bool,
}

/// What stands at the front of the bytes.
#[derive(Drop)]
pub(crate) enum Front {
    Whole {
        head: Head,
        taken: usize,
        body: usize,
    },
    Partial,
    Refused(HeadRefused),
}

/// Reads the head at the front of the bytes.
pub(crate) fn read_front(bytes: &[u8]) -> Front
    ensures { ReadsFront bytes.now result }
{
    let front = front_of(bytes);
    let mut fields = [EMPTY_HEADER_SPAN; FIELD_LIMIT];
    match parse_request(front, &mut fields) {
        Ok(Status::Complete(spans)) => judged(front, spans, fields),
        Ok(Status::Partial) => unfinished(bytes),
        Err(error) => match error {
            Error::TooManyHeaders => crowded(bytes),
            _ => Front::Refused(HeadRefused::BadHead),
        },
    }
}

/// The bytes that a head may take.
#[tactic(auto, using(std::proofs::lemmas::List::take_min))]
fn front_of(bytes: &[u8]) -> &[u8]
    ensures { result.now ≡ take HEAD_LIMIT bytes.now }
{
    &bytes[..HEAD_LIMIT.min(bytes.len())]
}

/// A whole head with room for its fields: its body's length, or why it is refused.
fn judged(front: &[u8], spans: RequestSpans, fields: [HeaderSpan; FIELD_LIMIT]) -> Front
    requires short { length front.now ≤ HEAD_LIMIT }
    requires within { IsRequestWithin front.now fields spans }
    requires head { IsRequestOf front.now fields spans }
    ensures { Judges front.now result }
{
    match body_length(front, &fields[..spans.headers]) {
        Ok(body) => Front::Whole {
            head: described(front, spans, fields, body),
            taken: spans.len,
            body,
        },
        Err(why) => Front::Refused(why),
    }
}

/// The head whose body has that length.
fn described(
    front: &[u8],
    spans: RequestSpans,
    fields: [HeaderSpan; FIELD_LIMIT],
    body: usize,
) -> Head
    requires within { IsRequestWithin front.now fields spans }
    ensures parts { (head : RequestHead) → IsRequestAt front.now fields spans head
        → body_length head ≡ Ok body → IsHeadOf front.now result head }
    ensures ranges { IsHeadWithin spans.len result }
{
    let named = &fields[..spans.headers];
    let closes = closes(front, named, spans.version);
    let asks = asks(front, named, spans.version, body);
    Head {
        method: spans.method,
        target: spans.path,
        minor: spans.version,
        fields,
        count: spans.headers,
        closes,
        asks,
    }
}

fn closes(front: &[u8], fields: &[HeaderSpan], minor: u8) -> bool
    requires { All (IsHeaderWithin (length front.now)) fields.now }
    ensures { result ≡ (minor == 0 || spec.lists (codes "connection") (codes "close")
        (map (header_bytes front.now) fields.now)) }
{
    minor == 0 || lists(front, fields, b"connection", b"close")
}

fn asks(front: &[u8], fields: &[HeaderSpan], minor: u8, body: usize) -> bool
    requires { All (IsHeaderWithin (length front.now)) fields.now }
    ensures { result ≡ (minor == 1 && spec.lists (codes "expect") (codes "100-continue")
        (map (header_bytes front.now) fields.now) && nat_lt 0 body) }
{
    minor == 1 && lists(front, fields, b"expect", b"100-continue") && body > 0
}

/// Bytes that no whole head begins, while more of them may make one.
fn unfinished(bytes: &[u8]) -> Front
    requires none { HasNoRequest (take HEAD_LIMIT bytes.now) }
    requires some { MayBecomeRequest (take HEAD_LIMIT bytes.now) }
    ensures { ReadsFront bytes.now result }
{
    if bytes.len() > HEAD_LIMIT {
        return Front::Refused(HeadRefused::BadHead);
    }
    if ends_in_bad_target(bytes) {
        return Front::Refused(HeadRefused::BadHead);
    }
    Front::Partial
}

/// Bytes whose head has more than `FIELD_LIMIT` fields. It is refused once it is whole. The large
/// room for its fields stands in no other function, so that other heads don't pay for it.
#[cold]
#[inline(never)]
fn crowded(bytes: &[u8]) -> Front
    requires { RequestOverflows FIELD_LIMIT (take HEAD_LIMIT bytes.now) }
    ensures { ReadsFront bytes.now result }
{
    let mut fields = [EMPTY_HEADER_SPAN; FIELDS_OF_ANY_HEAD];
    match parse_request(front_of(bytes), &mut fields) {
        Ok(Status::Partial) => unfinished(bytes),
        Ok(Status::Complete(_)) => Front::Refused(HeadRefused::BadHead),
        Err(_) => Front::Refused(HeadRefused::BadHead),
    }
}
