//! The bytes of requests and answers.
ghost use Rattle.std.specs.Prelude.{◌≡◌, [], None};

use http::StatusCode;
use pol_types::Text;
use std::alloc::{AllocError, Global};

/// A request that is sent.
#[derive(Drop)]
pub(crate) struct Request {
    /// The method, the path and the version.
    pub(crate) line: Vec<u8>,
    pub(crate) is_head: bool,
    /// The token of the one who sends it.
    pub(crate) token: Option<Text>,
    pub(crate) said: Said,
}

/// An answer that is to come.
#[derive(Drop)]
pub(crate) struct Answer {
    /// The line that says its status.
    pub(crate) line: usize,
    pub(crate) status: u16,
    pub(crate) said: Said,
}

/// The fields and the body that are said of a message.
#[derive(Drop)]
pub(crate) struct Said {
    pub(crate) fields: Vec<Field>,
    pub(crate) body: Option<Vec<u8>>,
}

/// A field that is said.
#[derive(Drop)]
pub(crate) struct Field {
    pub(crate) name: Vec<u8>,
    pub(crate) value: Vec<u8>,
}

impl Request {
    /// The bytes of the request.
    pub(crate) fn bytes(&self, alloc: Global) -> Result<Vec<u8>, AllocError> {
        let said = &self.said;
        let mut bytes = self.line.clone()?;
        bytes.extend_from_slice(b"\r\n")?;
        if !said.has_field(b"host") {
            bytes.extend_from_slice(b"host: l\r\n")?;
        }
        if let Some(token) = &self.token {
            if !said.has_field(b"authorization") {
                push_field(&mut bytes, b"authorization", b"Bearer ", token.as_bytes())?;
            }
        }
        said.push_fields(&mut bytes)?;
        if let Some(body) = &said.body {
            said.push_length(alloc, body.len(), &mut bytes)?;
        }
        said.push_body(&mut bytes)?;
        Ok(bytes)
    }
}

impl Answer {
    /// The bytes of the answer to a request that is HEAD, or that isn't.
    pub(crate) fn bytes(&self, alloc: Global, is_head: bool) -> Result<Vec<u8>, AllocError> {
        let (status, phrase) = (self.status, phrase(self.status));
        let line = format!(in alloc; "HTTP/1.1 {status} {phrase}\r\n")?;
        let mut bytes = line.into_bytes();
        self.push_body_fields(alloc, is_head, &mut bytes)?;
        self.said.push_fields(&mut bytes)?;
        self.said.push_body(&mut bytes)?;
        Ok(bytes)
    }

    /// Adds the fields that speak of the body.
    fn push_body_fields(
        &self,
        alloc: Global,
        is_head: bool,
        bytes: &mut Vec<u8>,
    ) -> Result<(), AllocError> {
        let Some(body) = &self.said.body else {
            if is_head || self.status < 200 || self.status == 204 {
                return Ok(());
            }
            return self.said.push_length(alloc, 0, bytes);
        };
        if !self.said.has_field(b"content-type") {
            bytes.extend_from_slice(b"content-type: application/json\r\n")?;
        }
        self.said.push_length(alloc, body.len(), bytes)
    }
}

impl Said {
    /// Nothing is said.
    pub(crate) fn new(alloc: Global) -> Self
        ensures fields { result.fields.items ≡ [] }
        ensures body { result.body ≡ None }
    {
        Said {
            fields: Vec::new(alloc),
            body: None,
        }
    }

    /// Whether a field of this name is said.
    fn has_field(&self, name: &[u8]) -> bool {
        self.fields
            .iter()
            .any(|field| field.name.as_slice().eq_ignore_ascii_case(name))
    }

    /// Adds the fields that are said.
    fn push_fields(&self, bytes: &mut Vec<u8>) -> Result<(), AllocError> {
        for field in self.fields.as_slice() {
            push_field(bytes, field.name.as_slice(), b"", field.value.as_slice())?;
        }
        Ok(())
    }

    /// Adds the length of a body, unless one is said.
    fn push_length(
        &self,
        alloc: Global,
        length: usize,
        bytes: &mut Vec<u8>,
    ) -> Result<(), AllocError> {
        if self.has_field(b"content-length") {
            return Ok(());
        }
        let length = format!(in alloc; "{length}")?;
        push_field(bytes, b"content-length", b"", length.as_bytes())
    }

    /// Adds the empty line, and the body.
    fn push_body(&self, bytes: &mut Vec<u8>) -> Result<(), AllocError> {
        bytes.extend_from_slice(b"\r\n")?;
        match &self.body {
            Some(body) => bytes.extend_from_slice(body.as_slice()),
            None => Ok(()),
        }
    }
}

/// Adds a field, whose value begins with these bytes.
fn push_field(
    bytes: &mut Vec<u8>,
    name: &[u8],
    begin: &[u8],
    value: &[u8],
) -> Result<(), AllocError> {
    bytes.extend_from_slice(name)?;
    bytes.extend_from_slice(b": ")?;
    bytes.extend_from_slice(begin)?;
    bytes.extend_from_slice(value)?;
    bytes.extend_from_slice(b"\r\n")
}

/// The phrase of a status (RFC 9110, section 15), if it has one.
fn phrase(status: u16) -> &'static str {
    let Ok(code) = StatusCode::from_u16(status) else {
        return "";
    };
    match code.canonical_reason() {
        Some(phrase) => phrase,
        None => "",
    }
}
