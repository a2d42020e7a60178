//! Texts and names of their own, and what is kept of a secret.
ghost use Rattle.std.specs.Prelude.{◌≡◌, IfOk, None};
ghost use Rattle.pol_names.specs.Plain.{plain_refusal};
ghost use Rattle.pol_state.specs.Rows.{digest_of};

use pol_names::{NameRefused, Plain};
use pol_types::{OutOfMemory, Text};
use sha2::{Digest, Sha256};
use std::alloc::Global;

/// A text of its own.
pub fn text(alloc: Global, source: &str) -> Result<Text, OutOfMemory>
    ensures { IfOk result (λ text. text ≡ source.now) }
{
    Ok(Text::from(String::from_str(alloc, source)?))
}

/// The plain name of this text, which is one.
pub fn plain(alloc: Global, name: &str) -> Result<Plain, OutOfMemory>
    requires { plain_refusal name.now ≡ None }
    ensures { IfOk result (λ plain. plain ≡ name.now) }
{
    match Plain::new(alloc, name) {
        Ok(plain) => Ok(plain),
        Err(NameRefused::OutOfMemory) => Err(OutOfMemory),
        Err(
            NameRefused::Empty
            | NameRefused::Long
            | NameRefused::ControlByte
            | NameRefused::NotPlain,
        ) => unreachable!(),
    }
}

/// What is kept of a secret.
#[tactic(auto, unfolding(crate::specs::Rows::digest_of))]
pub fn digest(secret: &str) -> [u8; 32]
    ensures { result ≡ digest_of secret.now }
{
    Sha256::digest(secret.as_bytes())
}
