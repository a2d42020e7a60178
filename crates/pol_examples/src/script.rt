//! The bytes of requests and of their answers.
ghost use Rattle.std.specs.Prelude.{◌≡◌, ◌++◌, ◌∷◌, [], IfOk, OnOk, length};

use pol_types::Text;
use pol_values::Unread;
use std::alloc::{AllocError, Global};

/// The bytes of requests and of their answers.
#[derive(Drop)]
pub struct Script {
    pub input: Vec<u8>,
    pub output: Vec<u8>,
    /// The parts of the output, in order.
    pub parts: Vec<Part>,
    /// The tokens that answers give.
    pub tokens: Vec<Token>,
    /// Whether the last request is HEAD.
    pub is_head: bool,
}

/// An answer, or bytes that are to come, as a part of the output.
#[derive(Clone, Copy, PartialEq, Eq)]
pub struct Part {
    /// The line at which it begins.
    pub line: usize,
    /// The place in the output where it ends.
    pub end: usize,
}

/// A token, and the name of the one who has it.
#[derive(Drop)]
pub struct Token {
    pub name: Text,
    pub text: Text,
}

impl Script {
    /// No bytes.
    pub(crate) fn new(alloc: Global) -> Self
        ensures input { result.input.items ≡ [] }
        ensures output { result.output.items ≡ [] }
        ensures parts { result.parts.items ≡ [] }
        ensures tokens { result.tokens.items ≡ [] }
    {
        Script {
            input: Vec::new(alloc),
            output: Vec::new(alloc),
            parts: Vec::new(alloc),
            tokens: Vec::new(alloc),
            is_head: false,
        }
    }

    /// These bytes come behind the others; they stand at this line.
    pub(crate) fn await_bytes(&mut self, bytes: &[u8], line: usize) -> Result<(), AllocError>
        ensures input { self.new.input ≡ self.old.input }
        ensures output { OnOk result (self.new.output.items ≡ self.old.output.items ++ bytes.now) }
        ensures parts { OnOk result (self.new.parts.items
            ≡ self.old.parts.items ++ record { line = line; end = length self.new.output.items } ∷ []) }
    {
        self.output.extend_from_slice(bytes)?;
        let end = self.output.len();
        self.parts.push(Part { line, end })?;
        Ok(())
    }

    /// Adds the bytes of a script.
    pub(crate) fn append(&mut self, other: &Script) -> Result<(), AllocError>
        ensures input { OnOk result (self.new.input.items ≡ self.old.input.items ++ other.now.input.items) }
        ensures output { OnOk result (self.new.output.items ≡ self.old.output.items ++ other.now.output.items) }
    {
        let before = self.output.len();
        self.input.extend_from_slice(other.input.as_slice())?;
        self.output.extend_from_slice(other.output.as_slice())?;
        for part in other.parts.as_slice() {
            let line = part.line;
            let end = part.end.saturating_add(before);
            self.parts.push(Part { line, end })?;
        }
        for token in other.tokens.as_slice() {
            self.tokens.push(token.copy()?)?;
        }
        self.is_head = other.is_head;
        Ok(())
    }

    /// The token of this name, of which the last one counts.
    pub(crate) fn token(&self, name: &str) -> Result<Text, Unread> {
        for token in self.tokens.as_slice().iter().rev() {
            if token.name.as_str() == name {
                return Ok(token.text.clone()?);
            }
        }
        Err(Unread::Unknown)
    }
}

impl Token {
    fn copy(&self) -> Result<Token, AllocError>
        ensures { IfOk result (λ token. token ≡ self.now) }
    {
        Ok(Token {
            name: self.name.clone()?,
            text: self.text.clone()?,
        })
    }
}
