//! Requests and answers in turn while their lines are read.
ghost use Rattle.std.specs.Prelude.{◌≡◌, []};

use crate::errors::{error_body, given_token};
use crate::making::{Answer, Field, Request, Said};
use crate::numbers::number_of;
use crate::script::{Script, Token};
use pol_types::Text;
use pol_values::{Unread, unescaped};
use std::alloc::{AllocError, Global};

/// Requests and answers in turn.
#[derive(Drop)]
pub(crate) struct Turns {
    /// Those whose lines are all read.
    pub(crate) script: Script,
    last: Turn,
}

/// The turn whose lines are being read.
#[derive(Drop)]
enum Turn {
    Nothing,
    Request(Request),
    /// Bytes were sent as they are.
    Sent,
    Answer(Answer),
}

impl Turns {
    pub(crate) fn new(alloc: Global) -> Self
        ensures input { result.script.input.items ≡ [] }
        ensures output { result.script.output.items ≡ [] }
    {
        Turns {
            script: Script::new(alloc),
            last: Turn::Nothing,
        }
    }

    /// Adds the turn whose lines were read to the script.
    fn close(&mut self, alloc: Global) -> Result<(), AllocError> {
        match &self.last {
            Turn::Request(request) => {
                let bytes = request.bytes(alloc)?;
                self.script.is_head = request.is_head;
                self.script.input.extend_from_slice(bytes.as_slice())?;
            }
            Turn::Answer(answer) => {
                let bytes = answer.bytes(alloc, self.script.is_head)?;
                self.script.await_bytes(bytes.as_slice(), answer.line)?;
            }
            Turn::Nothing | Turn::Sent => {}
        }
        self.last = Turn::Nothing;
        Ok(())
    }

    /// The script of all turns.
    pub(crate) fn finish(mut self, alloc: Global) -> Result<Script, AllocError> {
        self.close(alloc)?;
        Ok(self.script)
    }

    /// Reads what stands behind `>`.
    pub(crate) fn read_request(&mut self, alloc: Global, rest: &str) -> Result<(), Unread> {
        if let Some(line) = rest.strip_prefix(' ') {
            return self.begin_request(alloc, line, None);
        }
        if let Some(text) = behind(rest, "=") {
            return self.send(alloc, text, b"");
        }
        if let Some(text) = behind(rest, "|") {
            return self.send(alloc, text, b"\n");
        }
        match &mut self.last {
            Turn::Request(request) => request.said.read(alloc, rest, ">"),
            _ => Err(Unread::Place),
        }
    }

    /// Reads a request of the one who has this name.
    pub(crate) fn read_named(
        &mut self,
        alloc: Global,
        name: &str,
        line: &str,
    ) -> Result<(), Unread> {
        let token = self.script.token(name)?;
        self.begin_request(alloc, line, Some(token))
    }

    /// Begins a request of this method, path and version.
    fn begin_request(
        &mut self,
        alloc: Global,
        line: &str,
        token: Option<Text>,
    ) -> Result<(), Unread> {
        self.close(alloc)?;
        let Some((method, target)) = line.split_once(' ') else {
            return Err(Unread::Form);
        };
        let mut bytes = unescaped(alloc, line)?;
        if !target.contains(' ') {
            bytes.extend_from_slice(b" HTTP/1.1")?;
        }
        self.last = Turn::Request(Request {
            line: bytes,
            is_head: method == "HEAD",
            token,
            said: Said::new(alloc),
        });
        Ok(())
    }

    /// Sends bytes as they are, and these behind them.
    fn send(&mut self, alloc: Global, text: &str, end: &[u8]) -> Result<(), Unread> {
        let mut bytes = unescaped(alloc, text)?;
        bytes.extend_from_slice(end)?;
        if !matches!(&self.last, Turn::Sent) {
            self.close(alloc)?;
            self.script.is_head = bytes.as_slice().starts_with(b"HEAD ");
            self.last = Turn::Sent;
        }
        self.script.input.extend_from_slice(bytes.as_slice())?;
        Ok(())
    }

    /// Reads what stands behind `<`, at this line.
    pub(crate) fn read_answer(
        &mut self,
        alloc: Global,
        rest: &str,
        line: usize,
    ) -> Result<(), Unread> {
        if let Some(text) = rest.strip_prefix(' ') {
            return self.begin_answer(alloc, text, line);
        }
        if let Some(text) = behind(rest, "=") {
            return self.receive(alloc, text, b"", line);
        }
        if let Some(text) = behind(rest, "|") {
            return self.receive(alloc, text, b"\n", line);
        }
        match &mut self.last {
            Turn::Answer(answer) => answer.said.read(alloc, rest, "<"),
            _ => Err(Unread::Place),
        }
    }

    /// Awaits bytes as they are, and these behind them.
    fn receive(
        &mut self,
        alloc: Global,
        text: &str,
        end: &[u8],
        line: usize,
    ) -> Result<(), Unread> {
        self.close(alloc)?;
        let mut bytes = unescaped(alloc, text)?;
        bytes.extend_from_slice(end)?;
        self.script.await_bytes(bytes.as_slice(), line)?;
        Ok(())
    }

    /// Begins an answer of this status, with an error if one is said.
    fn begin_answer(&mut self, alloc: Global, text: &str, line: usize) -> Result<(), Unread> {
        self.close(alloc)?;
        let mut said = Said::new(alloc);
        let status = match text.split_once(' ') {
            Some((status, error)) => {
                let status = status_of(status)?;
                said.body = Some(error_body(alloc, status, error)?);
                status
            }
            None => status_of(text)?,
        };
        self.last = Turn::Answer(Answer { line, status, said });
        Ok(())
    }

    /// Reads the name of the one who has a token: the one that is said, or that of the last answer.
    pub(crate) fn read_token(&mut self, alloc: Global, rest: &str) -> Result<(), Unread> {
        match rest.split_once(' ') {
            Some((name, text)) => {
                let text = Text::from(String::from_str(alloc, text)?);
                self.name_token(alloc, name, text)
            }
            None => self.read_given(alloc, rest),
        }
    }

    /// Reads the name of the one who has the token of the last answer.
    fn read_given(&mut self, alloc: Global, name: &str) -> Result<(), Unread> {
        let Turn::Answer(answer) = &self.last else {
            return Err(Unread::Place);
        };
        let Some(body) = &answer.said.body else {
            return Err(Unread::NoToken);
        };
        let text = given_token(alloc, body.as_slice())?;
        self.name_token(alloc, name, text)
    }

    /// Gives a token a name.
    fn name_token(&mut self, alloc: Global, name: &str, text: Text) -> Result<(), Unread> {
        let name = Text::from(String::from_str(alloc, name)?);
        self.script.tokens.push(Token { name, text })?;
        Ok(())
    }
}

impl Said {
    /// Reads a field or a line of the body, which stands behind this sign.
    fn read(&mut self, alloc: Global, rest: &str, sign: &str) -> Result<(), Unread> {
        if let Some(text) = behind(rest, sign) {
            return self.read_body(alloc, text);
        }
        let Some(text) = behind(rest, ":") else {
            return Err(Unread::Form);
        };
        let Some((name, value)) = text.split_once(": ") else {
            return Err(Unread::Form);
        };
        let name = unescaped(alloc, name)?;
        let value = unescaped(alloc, value)?;
        self.fields.push(Field { name, value })?;
        Ok(())
    }

    /// Reads a line of the body.
    fn read_body(&mut self, alloc: Global, text: &str) -> Result<(), Unread> {
        let bytes = unescaped(alloc, text)?;
        match &mut self.body {
            Some(before) => {
                before.push(b'\n')?;
                before.extend_from_slice(bytes.as_slice())?;
            }
            None => self.body = Some(bytes),
        }
        Ok(())
    }
}

/// A status.
fn status_of(text: &str) -> Result<u16, Unread> {
    match u16::try_from(number_of(text)?) {
        Ok(status) => Ok(status),
        Err(_) => Err(Unread::Number),
    }
}

/// What stands behind a sign, and behind a space if one is there.
fn behind<'a>(rest: &'a str, sign: &str) -> Option<&'a str> {
    let text = rest.strip_prefix(sign)?;
    if text.is_empty() {
        return Some(text);
    }
    text.strip_prefix(' ')
}
