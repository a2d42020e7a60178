//! Texts with escapes, and bytes as they are shown.
ghost use Rattle.std.specs.Prelude.{◌≡◌, ◌≤◌, ◌<◌, ◌+◌, ◌*◌, IfOk, length};
ghost use Rattle.std.specs.Option.{IfSome};

use crate::unread::Unread;
use pol_types::Text;
use std::alloc::{AllocError, Global};

/// The most times that an escape repeats a text, and the most numbers that it writes.
const MOST: u64 = 1 << 32;

/// The bytes that a text with escapes stands for.
pub fn unescaped(alloc: Global, text: &str) -> Result<Vec<u8>, Unread> {
    let mut bytes = Vec::new(alloc);
    let mut rest = text;
    while let Some((before, after)) = rest.split_once('\\') {
        bytes.extend_from_slice(before.as_bytes())?;
        rest = push_escape(alloc, after, &mut bytes)?;
    }
    bytes.extend_from_slice(rest.as_bytes())?;
    Ok(bytes)
}

/// The text that a text with escapes stands for.
pub fn unescaped_text(alloc: Global, text: &str) -> Result<Text, Unread> {
    let bytes = unescaped(alloc, text)?;
    match String::from_utf8(bytes) {
        Ok(text) => Ok(Text::from(text)),
        Err(_) => Err(Unread::NoText),
    }
}

/// Adds what the escape at the front stands for, whose backslash is taken, and gives what stands behind it.
fn push_escape<'a>(alloc: Global, after: &'a str, bytes: &mut Vec<u8>) -> Result<&'a str, Unread>
    ensures { IfOk result (λ rest. length rest.now ≤ length after.now) }
{
    if let Some(rest) = after.strip_prefix('x') {
        return push_hexadecimal(rest, bytes);
    }
    if let Some(rest) = after.strip_prefix('{') {
        let (inner, rest) = rest.split_once('}').ok_or(Unread::Escape)?;
        push_generated(alloc, inner, bytes)?;
        return Ok(rest);
    }
    let (byte, rest) = letter(after).ok_or(Unread::Escape)?;
    bytes.push(byte)?;
    Ok(rest)
}

/// What an escape of one letter stands for, and what stands behind it.
fn letter(after: &str) -> Option<(u8, &str)>
    ensures { IfSome result (λ found. length found.1.now ≤ length after.now) }
{
    let (letter, rest) = after.split_at_checked(1)?;
    let byte = match letter.as_bytes() {
        b"r" => b'\r',
        b"n" => b'\n',
        b"t" => b'\t',
        b"\\" => b'\\',
        _ => return None,
    };
    Some((byte, rest))
}

/// Adds the byte of the two hexadecimal digits at the front, and gives what stands behind them.
fn push_hexadecimal<'a>(text: &'a str, bytes: &mut Vec<u8>) -> Result<&'a str, Unread>
    ensures { IfOk result (λ rest. length rest.now ≤ length text.now) }
{
    let (digits, rest) = text.split_at_checked(2).ok_or(Unread::Escape)?;
    let [high, low] = digits.as_bytes() else {
        return Err(Unread::Escape);
    };
    let high = digit(*high).ok_or(Unread::Escape)?;
    let low = digit(*low).ok_or(Unread::Escape)?;
    bytes.push(high * 16 + low)?;
    Ok(rest)
}

/// The value of a hexadecimal digit in small letters.
fn digit(byte: u8) -> Option<u8>
    ensures { IfSome result (λ value. value < 16) }
{
    match byte {
        b'0'..=b'9' => Some(byte - b'0'),
        b'a'..=b'f' => Some(byte - b'a' + 10),
        _ => None,
    }
}

/// Adds a generated text: `COUNT*TEXT`, `COUNT:TEXT` or `FIRST..END,TEXT`.
fn push_generated(alloc: Global, inner: &str, bytes: &mut Vec<u8>) -> Result<(), Unread> {
    if let Some((count, text)) = inner.split_once('*') {
        if let Some(count) = number(count) {
            return push_repeated(alloc, count, text, bytes);
        }
    }
    if let Some((count, text)) = inner.split_once(':') {
        if let Some(count) = number(count) {
            return push_counted(alloc, count, text, bytes);
        }
    }
    let (range, text) = inner.split_once(',').ok_or(Unread::Escape)?;
    let (first, end) = range.split_once("..").ok_or(Unread::Escape)?;
    let first = number(first).ok_or(Unread::Escape)?;
    let end = number(end).ok_or(Unread::Escape)?;
    push_numbered(alloc, first, end, text, bytes)
}

/// Adds a text so many times.
fn push_repeated(alloc: Global, count: u64, text: &str, bytes: &mut Vec<u8>) -> Result<(), Unread> {
    let text = unescaped_plain(alloc, text)?;
    let count = count as usize;
    if let [byte] = text.as_slice() {
        let length = bytes.len().checked_add(count).ok_or(Unread::NoMemory)?;
        bytes.resize(length, *byte)?;
        return Ok(());
    }
    for _ in 0..count {
        bytes.extend_from_slice(text.as_slice())?;
    }
    Ok(())
}

/// Adds a text for each number, with the number in place of each `#`, and commas between.
fn push_numbered(
    alloc: Global,
    first: u64,
    end: u64,
    text: &str,
    bytes: &mut Vec<u8>,
) -> Result<(), Unread> {
    for each in first..end {
        if each > first {
            bytes.push(b',')?;
        }
        let written = format!(in alloc; "{each}")?;
        let text = text.replace(alloc, "#", written.as_str())?;
        let text = unescaped_plain(alloc, text.as_str())?;
        bytes.extend_from_slice(text.as_slice())?;
    }
    Ok(())
}

/// Adds a text so many times, with 16 hexadecimal digits in place of each `#FIRST+STEP#`.
fn push_counted(alloc: Global, count: u64, text: &str, bytes: &mut Vec<u8>) -> Result<(), Unread> {
    for place in 0..count {
        let text = counted(alloc, text, place)?;
        let text = unescaped_plain(alloc, text.as_str())?;
        bytes.extend_from_slice(text.as_slice())?;
    }
    Ok(())
}

/// The text at a place, counted from 0, with the digits of its numbers.
fn counted(alloc: Global, text: &str, place: u64) -> Result<String, Unread> {
    let mut written = String::new(alloc);
    let mut rest = text;
    while let Some((before, after)) = rest.split_once('#') {
        let (numbers, behind) = after.split_once('#').ok_or(Unread::Escape)?;
        let (first, step) = numbers.split_once('+').ok_or(Unread::Escape)?;
        let first = number(first).ok_or(Unread::Escape)?;
        let step = number(step).ok_or(Unread::Escape)?;
        let found = number_at(first, step, place).ok_or(Unread::Escape)?;
        let digits = format!(in alloc; "{found:016x}")?;
        written.push_str(before)?;
        written.push_str(digits.as_str())?;
        rest = behind;
    }
    written.push_str(rest)?;
    Ok(written)
}

/// The number at a place of those that begin with the first and grow by a step; `None` where it is none of 64 bits.
fn number_at(first: u64, step: u64, place: u64) -> Option<u64>
    ensures { IfSome result (λ found. found ≡ first + step * place) }
{
    step.checked_mul(place)?.checked_add(first)
}

/// The bytes that a text with escapes of single bytes stands for.
fn unescaped_plain(alloc: Global, text: &str) -> Result<Vec<u8>, Unread> {
    let mut bytes = Vec::new(alloc);
    let mut rest = text;
    while let Some((before, after)) = rest.split_once('\\') {
        bytes.extend_from_slice(before.as_bytes())?;
        rest = push_single(after, &mut bytes)?;
    }
    bytes.extend_from_slice(rest.as_bytes())?;
    Ok(bytes)
}

/// Adds the byte that the escape at the front stands for, and gives what stands behind it.
fn push_single<'a>(after: &'a str, bytes: &mut Vec<u8>) -> Result<&'a str, Unread>
    ensures { IfOk result (λ rest. length rest.now ≤ length after.now) }
{
    if let Some(rest) = after.strip_prefix('x') {
        return push_hexadecimal(rest, bytes);
    }
    let (byte, rest) = letter(after).ok_or(Unread::Escape)?;
    bytes.push(byte)?;
    Ok(rest)
}

/// The number that decimal digits write, up to [`MOST`].
fn number(text: &str) -> Option<u64> {
    if !text.as_bytes().iter().all(u8::is_ascii_digit) {
        return None;
    }
    let number = text.parse::<u64>().ok()?;
    if number <= MOST { Some(number) } else { None }
}

/// Bytes as they are shown: those that print stand for themselves, and the others as escapes.
pub fn shown(alloc: Global, bytes: &[u8]) -> Result<String, AllocError> {
    let mut text = String::new(alloc);
    for byte in bytes {
        push_shown(alloc, *byte, &mut text)?;
    }
    Ok(text)
}

fn push_shown(alloc: Global, byte: u8, text: &mut String) -> Result<(), AllocError> {
    match byte {
        b'\r' => text.push_str("\\r"),
        b'\n' => text.push_str("\\n"),
        b'\t' => text.push_str("\\t"),
        b'\\' => text.push_str("\\\\"),
        0x20..=0x7e => text.push(char::from(byte)),
        _ => {
            let escape = format!(in alloc; "\\x{byte:02x}")?;
            text.push_str(escape.as_str())
        }
    }
}
