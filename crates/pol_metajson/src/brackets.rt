//! Words with something in brackets.
ghost use Rattle.std.specs.Prelude.{◌≡◌, option_copied};
ghost use Rattle.pol_metajson.specs.Brackets as spec;

use crate::numeral::numeral;

/// The bytes between this beginning and this end.
pub(crate) fn between<'a>(word: &'a str, start: &str, end: &str) -> Option<&'a [u8]>
    ensures { option_copied result ≡ spec.between start.now end.now word.now }
{
    let rest = word.as_bytes().strip_prefix(start.as_bytes())?;
    rest.strip_suffix(end.as_bytes())
}

/// The number from 1 to 2,147,483,647 between this beginning and a bracket.
pub(crate) fn sized(word: &str, start: &str) -> Option<u32>
    ensures { result ≡ spec.sized start.now word.now }
{
    let digits = between(word, start, "]")?;
    numeral(digits, 1, 2_147_483_647)
}
