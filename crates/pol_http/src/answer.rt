//! Answers and their bytes.
ghost use Rattle.std.specs.Prelude.{◌≡◌, ◌++◌, IfOk, string_bytes};
ghost use Rattle.pol_http.specs.Answer as spec;

use http::StatusCode;
use pol_shared_bytes::SharedBytes;
use pol_types::{Bytes, OutOfMemory};
use std::alloc::Global;

/// The interim answer to a request that waits for leave to send its body (RFC 9110, section 15.2.1).
pub const CONTINUE: &[u8] = b"HTTP/1.1 100 Continue\r\n\r\n";

/// The answer where memory has run out, which needs none.
pub const INSUFFICIENT_STORAGE: &[u8] =
    b"HTTP/1.1 507 Insufficient Storage\r\ncontent-length: 0\r\n\r\n";

/// An answer to a request.
#[derive(Drop)]
pub struct Answer {
    /// A number of three digits.
    pub status: u16,
    pub body: Body,
    /// Whether the connection ends after the answer.
    pub close: bool,
    /// Whether the request was HEAD, so that the answer has no body.
    pub head_only: bool,
}

/// The body of an answer, and the type of its content.
#[derive(Drop)]
pub enum Body {
    Nothing,
    Json(Bytes),
    /// The JSON of an access token, which no cache may store (RFC 6749, section 5.1).
    Token(Bytes),
    /// The bytes of an object, which are shared with it.
    Object(SharedBytes),
    /// The length of an object that a HEAD request asks for.
    Length(u64),
}

/// The bytes of the answer.
pub fn write_answer(alloc: Global, answer: &Answer) -> Result<Vec<u8>, OutOfMemory>
    ensures { IfOk result (λ text. text.items ≡ spec.answer_text answer.now) }
{
    let fields = body_fields(alloc, answer)?;
    let (fields, close) = (fields.as_str(), close_field(answer.close));
    let (status, phrase) = (answer.status, phrase(answer.status));
    let head = format!(in alloc; "HTTP/1.1 {status} {phrase}\r\n{fields}{close}\r\n")?;
    let mut text = head.into_bytes();
    text.extend_from_slice(content(answer))?;
    Ok(text)
}

/// The phrase of the status code, if it has one.
fn phrase(status: u16) -> &'static str
    ensures { result.now ≡ spec.phrase status }
{
    let Ok(code) = StatusCode::from_u16(status) else {
        return "";
    };
    match code.canonical_reason() {
        Some(phrase) => phrase,
        None => "",
    }
}

/// The fields that speak of the body, if the answer has any.
fn body_fields(alloc: Global, answer: &Answer) -> Result<String, OutOfMemory>
    ensures { IfOk result (λ text. string_bytes text ≡ spec.body_fields answer.now) }
{
    if is_bare(answer) {
        return Ok(String::new(alloc));
    }
    let body = &answer.body;
    let (kind, length, cache) = (type_field(body), length(body), cache_fields(body));
    Ok(format!(in alloc; "{kind}content-length: {length}\r\n{cache}")?)
}

/// The type of the content, where there is some (RFC 9110, section 8.3).
#[tactic(auto, unfolding(crate::specs::Answer::type_field))]
fn type_field(body: &Body) -> &'static str
    ensures { result.now ≡ spec.type_field body.now }
{
    match body {
        Body::Nothing | Body::Length(_) => "",
        Body::Json(_) | Body::Token(_) => "content-type: application/json\r\n",
        Body::Object(_) => "content-type: application/octet-stream\r\n",
    }
}

/// What keeps a token out of caches (RFC 6749, section 5.1).
#[tactic(auto, unfolding(crate::specs::Answer::cache_fields))]
fn cache_fields(body: &Body) -> &'static str
    ensures { result.now ≡ spec.cache_fields body.now }
{
    if let Body::Token(_) = body {
        "cache-control: no-store\r\npragma: no-cache\r\n"
    } else {
        ""
    }
}

/// What tells that the connection ends after the answer (RFC 9112, section 9.6).
#[tactic(auto, unfolding(crate::specs::Answer::close_field))]
fn close_field(close: bool) -> &'static str
    ensures { result.now ≡ spec.close_field close }
{
    if close { "connection: close\r\n" } else { "" }
}

/// The bytes behind the head.
#[tactic(auto, unfolding(crate::specs::Answer::content))]
fn content(answer: &Answer) -> &[u8]
    ensures { result.now ≡ spec.content answer.now }
{
    if is_bare(answer) {
        return b"";
    }
    match &answer.body {
        Body::Nothing | Body::Length(_) => b"",
        Body::Json(bytes) | Body::Token(bytes) => bytes.as_slice(),
        Body::Object(bytes) => bytes.as_slice(),
    }
}

/// The length that is said of the body (RFC 9110, section 8.6).
fn length(body: &Body) -> u64
    ensures { result ≡ spec.length_of body.now }
{
    match body {
        Body::Nothing => 0,
        Body::Json(bytes) | Body::Token(bytes) => bytes.len() as u64,
        Body::Object(bytes) => bytes.len() as u64,
        Body::Length(length) => *length,
    }
}

/// Whether the answer says nothing of a body.
fn is_bare(answer: &Answer) -> bool
    ensures { result ≡ spec.is_bare answer.now }
{
    answer.status == 204 || (answer.head_only && !matches!(answer.body, Body::Length(_)))
}
