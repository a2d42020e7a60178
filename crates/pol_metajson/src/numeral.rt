ghost use Rattle.std.specs.Prelude.{◌≡◌, ◌≤◌, ◌+◌, true, min, IfSome};
ghost use Rattle.std.specs.Char.{is_ascii_digit};
ghost use Rattle.std.specs.List.{list_all};
ghost use Rattle.std.specs.Str.Parse.{digits_value};
ghost use Rattle.pol_metajson.specs.Numeral as spec;

/// The highest number that stands in a word.
pub(crate) const HIGHEST: u64 = 2_147_483_647;

/// The number within these bounds, both included, that digits are, without a sign and leading zeros.
#[tactic(auto, unfolding(crate::specs::Numeral::numeral))]
pub(crate) fn numeral(digits: &[u8], low: u32, high: u32) -> Option<u32>
    requires { high ≤ HIGHEST }
    ensures value { result ≡ spec.numeral low high digits.now }
    ensures within { IfSome result (λ number. number ≤ high) }
{
    if has_leading_zero(digits) || !are_digits(digits) {
        return None;
    }
    let value = value_of(digits);
    if value < u64::from(low) || value > u64::from(high) {
        return None;
    }
    Some(value as u32)
}

/// Whether there are no digits, or a zero before others.
fn has_leading_zero(digits: &[u8]) -> bool
    ensures { result ≡ spec.has_leading_zero digits.now }
{
    match digits.first() {
        Some(digit) => *digit == b'0' && digits.len() > 1,
        None => true,
    }
}

fn are_digits(bytes: &[u8]) -> bool
    ensures { result ≡ list_all is_ascii_digit bytes.now }
{
    bytes.iter().all(|byte| byte.is_ascii_digit())
}

/// The number that decimal digits are, or one above `HIGHEST` where it is greater.
fn value_of(digits: &[u8]) -> u64
    requires { list_all is_ascii_digit digits.now ≡ true }
    ensures { result ≡ min (HIGHEST + 1) (digits_value 10 digits.now) }
{
    let mut value = 0;
    for digit in digits {
        value = (value * 10 + u64::from(digit.saturating_sub(b'0'))).min(HIGHEST + 1);
    }
    value
}
