//! Client ids and secrets, which are given or drawn.
ghost use Rattle.std.specs.Prelude.{◌≡◌, ◌++◌, IfOk};
ghost use Rattle.pol_tokens.specs.Text.{word_digits};
ghost use Rattle.pol_principal_actions.specs.Principals.{client_id_or, secret_or};

use pol_types::{OutOfMemory, Text};
use std::alloc::Global;

/// The client id that is given, or else the digits of the word.
pub(crate) fn client_id_or(
    alloc: Global,
    client_id: &Option<Text>,
    word: u64,
) -> Result<Text, OutOfMemory>
    ensures { IfOk result (λ text. text ≡ client_id_or client_id.now word) }
{
    match client_id {
        Some(text) => Ok(text.clone()?),
        None => word_text(alloc, word),
    }
}

/// The secret that is given, or else the digits of both words.
pub(crate) fn secret_or(
    alloc: Global,
    secret: &Option<Text>,
    high: u64,
    low: u64,
) -> Result<Text, OutOfMemory>
    ensures { IfOk result (λ text. text ≡ secret_or secret.now high low) }
{
    match secret {
        Some(text) => Ok(text.clone()?),
        None => words_text(alloc, high, low),
    }
}

/// A word as 16 hexadecimal digits.
fn word_text(alloc: Global, word: u64) -> Result<Text, OutOfMemory>
    ensures { IfOk result (λ text. text ≡ word_digits word) }
{
    let digits = hex::encode(alloc, word.to_be_bytes())?;
    Ok(Text::from(digits))
}

/// Two words as 32 hexadecimal digits.
fn words_text(alloc: Global, high: u64, low: u64) -> Result<Text, OutOfMemory>
    ensures { IfOk result (λ text. text ≡ word_digits high ++ word_digits low) }
{
    let mut digits = hex::encode(alloc, high.to_be_bytes())?;
    let others = hex::encode(alloc, low.to_be_bytes())?;
    digits.push_str(others.as_str())?;
    Ok(Text::from(digits))
}
