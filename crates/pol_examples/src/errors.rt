//! The bodies of errors, and the tokens of others.
use pol_types::Text;
use pol_values::{Unread, unescaped_text};
use std::alloc::{AllocError, Global};

/// The body of an error that is said as `TYPE: MESSAGE` (Iceberg REST OpenAPI, `ErrorModel`).
pub(crate) fn error_body(alloc: Global, status: u16, error: &str) -> Result<Vec<u8>, Unread> {
    let Some((kind, message)) = error.split_once(": ") else {
        return Err(Unread::Form);
    };
    let message = unescaped_text(alloc, message)?;
    let message = quoted(alloc, message.as_str())?;
    let message = message.as_str();
    let body = format!(in alloc;
        "{{\"error\":{{\"code\":{status},\"message\":\"{message}\",\"type\":\"{kind}\"}}}}"
    )?;
    Ok(body.into_bytes())
}

/// What stands between the quotes of a JSON string (RFC 8259, section 7).
fn quoted(alloc: Global, text: &str) -> Result<String, AllocError> {
    let mut quoted = String::new(alloc);
    for letter in text.chars() {
        push_quoted(alloc, letter, &mut quoted)?;
    }
    Ok(quoted)
}

fn push_quoted(alloc: Global, letter: char, quoted: &mut String) -> Result<(), AllocError> {
    match letter {
        '"' => quoted.push_str("\\\""),
        '\\' => quoted.push_str("\\\\"),
        '\n' => quoted.push_str("\\n"),
        '\r' => quoted.push_str("\\r"),
        '\t' => quoted.push_str("\\t"),
        '\u{0}'..='\u{1f}' => {
            let code = u32::from(letter);
            let escape = format!(in alloc; "\\u{code:04x}")?;
            quoted.push_str(escape.as_str())
        }
        _ => quoted.push(letter),
    }
}

/// The token that a body gives: that of a session (RFC 6749, section 5.1), or a storage token.
pub(crate) fn given_token(alloc: Global, body: &[u8]) -> Result<Text, Unread> {
    let Ok(text) = str::from_utf8(body) else {
        return Err(Unread::NoToken);
    };
    let token = behind_key(text, "\"access_token\":\"").or(behind_key(text, "\"lake.token\":\""));
    let token = token.ok_or(Unread::NoToken)?;
    Ok(Text::from(String::from_str(alloc, token)?))
}

/// What stands between a key of a text and the next quote.
fn behind_key<'a>(text: &'a str, key: &str) -> Option<&'a str> {
    let (_, rest) = text.split_once(key)?;
    let (value, _) = rest.split_once('"')?;
    Some(value)
}
