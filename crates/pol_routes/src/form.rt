//! The fields of a form (URL Standard, section 5.1), read strictly: what isn't UTF-8 once decoded is refused.
ghost use Rattle.std.specs.Prelude.{◌≡◌, List, ℕ, [], ◌∷◌, ◌++◌, map, IfOk};
ghost use Rattle.form_urlencoded.specs.Form.{decode, plus_to_space};
ghost use Rattle.pol_routes.specs.Form as spec;

use percent_encoding::percent_decode;
use pol_types::{OutOfMemory, Text};
use std::alloc::{AllocError, Global};

/// The values that a form has of one name.
#[derive(Drop)]
pub(crate) enum Values {
    Missing,
    One(Text),
    Several,
}

impl Values {
    /// One more value.
    pub(crate) fn add(&mut self, value: Text)
        ensures { (values : List (List ℕ)) → self.old ≡ spec.seen values
            → self.new ≡ spec.seen (values ++ value ∷ []) }
    {
        *self = match self {
            Values::Missing => Values::One(value),
            Values::One(_) | Values::Several => Values::Several,
        };
    }
}

/// The text that a name or a value of a form stands for, or `None` where that isn't UTF-8.
pub(crate) fn decoded(alloc: Global, written: &[u8]) -> Result<Option<Text>, OutOfMemory>
    ensures { IfOk result (λ text. text ≡ spec.text_of (decode written.now)) }
{
    let bytes = decoded_bytes(alloc, written)?;
    Ok(text_of(bytes))
}

/// The bytes that a name or a value of a form stands for: `+` is a space, then escapes are decoded.
pub(crate) fn decoded_bytes(alloc: Global, written: &[u8]) -> Result<Vec<u8>, OutOfMemory>
    ensures { IfOk result (λ bytes. bytes.items ≡ decode written.now) }
{
    let spaced = spaced(alloc, written)?;
    let mut bytes = Vec::new(alloc);
    percent_decode(&spaced).append_to(&mut bytes)?;
    Ok(bytes)
}

/// The bytes with a space for each `+`.
fn spaced(alloc: Global, written: &[u8]) -> Result<Vec<u8>, AllocError>
    ensures { IfOk result (λ bytes. bytes.items ≡ map plus_to_space written.now) }
{
    let bytes = written
        .iter()
        .map(|&byte| if byte == b'+' { b' ' } else { byte });
    bytes.collect(alloc)
}

/// The bytes as a text, where they are UTF-8.
pub(crate) fn text_of(bytes: Vec<u8>) -> Option<Text>
    ensures { result ≡ spec.text_of bytes.items }
{
    match String::from_utf8(bytes) {
        Ok(text) => Some(Text::from(text)),
        Err(_) => None,
    }
}
