ghost use Rattle.std.specs.Prelude.{◌≡◌, length};
ghost use Rattle.pol_tokens.specs.Text.{text_of_token, word_digits, TellsSerial};

use hex::FromHex;

/// How many bytes the text of a token has.
pub const TOKEN_LENGTH: usize = 48;

/// The text of a token, as sessions and storage tokens have it: 48 hexadecimal digits in lower case, 16 of its
/// serial and 32 of its two random words.
#[tactic(auto, unfolding(crate::specs::Text::text_of_token))]
pub fn token_text(serial: u64, word_a: u64, word_b: u64) -> [u8; TOKEN_LENGTH]
    ensures { result ≡ text_of_token serial word_a word_b }
{
    let mut text = [0; TOKEN_LENGTH];
    let (first, others) = text.split_at_mut(16);
    let (second, third) = others.split_at_mut(16);
    write_word(first, serial);
    write_word(second, word_a);
    write_word(third, word_b);
    text
}

/// Writes a word as 16 digits.
fn write_word(digits: &mut [u8], word: u64)
    requires { length digits.old ≡ 16 }
    ensures { digits.new ≡ word_digits word }
{
    let _ = hex::encode_to_slice(word.to_be_bytes(), digits);
}

/// The serial that the first 16 digits of a text spell.
pub(crate) fn serial_in(text: &[u8]) -> Option<u64>
    ensures { TellsSerial text.now result }
{
    let (digits, _) = text.split_at_checked(16)?;
    let word = <[u8; 8]>::from_hex(digits).ok()?;
    Some(u64::from_be_bytes(word))
}
