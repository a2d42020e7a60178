//! Numbers in lines.
use pol_values::{Unread, unescaped_text};
use std::alloc::Global;

/// A number below 2^64 in decimal digits, or in hexadecimal ones behind `0x`.
pub(crate) fn number_of(text: &str) -> Result<u64, Unread> {
    let number = match text.strip_prefix("0x") {
        Some(digits) => u64::from_str_radix(digits, 16),
        None => text.parse::<u64>(),
    };
    match number {
        Ok(number) => Ok(number),
        Err(_) => Err(Unread::Number),
    }
}

/// The numbers between single spaces of a text with escapes.
pub(crate) fn numbers(alloc: Global, text: &str) -> Result<Vec<u64>, Unread> {
    let text = unescaped_text(alloc, text)?;
    let mut numbers = Vec::new(alloc);
    for word in text.as_str().split(' ') {
        numbers.push(number_of(word)?)?;
    }
    Ok(numbers)
}
