ghost use Rattle.std.specs.Prelude.{◌≡◌, List, ℕ, IfOk, IfErr, OnOk, Some, nat_eq};
ghost use Rattle.std.specs.List.{list_all};
ghost use Rattle.std.specs.Cmp.{partial_equiv_from_equiv};
ghost use Rattle.std.specs.Cmp.Lexicographic.{pointwise, nat_list_eq_equiv};
ghost use Rattle.std.proofs.Common.{rules};
ghost use Rattle.pol_types.specs.Exact.{exactness};
ghost use Rattle.pol_names.specs.Plain.{IsPlainName, IsPlainRefusal, is_plain_byte, plain_refusal};

use crate::NameRefused;
use crate::name::MAX_NAME_LENGTH;
use pol_types::{Exact, Text};
use std::alloc::Global;
use std::fmt;
use std::marker::Model;

/// The name of a catalogue, a principal or a role: 1 to 128 bytes out of `A`-`Z`, `a`-`z`, `0`-`9`, `_` and `-`.
/// Contracts see it as its bytes. Plain names compare by their bytes, a proper prefix first.
#[derive(Clone, Drop, Eq, PartialOrd, Ord, Hash)]
pub struct Plain {
    text: Text,
}

impl Model for Plain {
    ghost Value = { List ℕ };

    ghost view = { λ name. name.text };

    ghost invariant = { λ name. IsPlainName name.text };

    ghost inverse = { λ text. record { text = text } };
}

impl PartialEq for Plain {
    ghost eq = { pointwise nat_eq };

    ghost laws = { partial_equiv_from_equiv nat_list_eq_equiv };

    fn eq(&self, other: &Self) -> bool {
        self.text == other.text
    }
}

impl Exact for Plain {
    ghost clones_exactly = { Prim.search rules };

    ghost compares_exactly = { Prim.grind exactness };
}

impl Plain {
    /// Reads a plain name. The first refusal answers; it is found without memory.
    pub fn new(alloc: Global, text: &str) -> Result<Self, NameRefused>
        ensures value { IfOk result (λ name. name ≡ text.now) }
        ensures named { OnOk result (IsPlainName text.now) }
        ensures refused { IfErr result (IsPlainRefusal text.now) }
    {
        judge(text)?;
        Ok(Plain {
            text: Text::from(String::from_str(alloc, text)?),
        })
    }

    pub fn as_str(&self) -> &str
        ensures value { result.now ≡ self.now }
        ensures named { IsPlainName self.now }
    {
        self.text.as_str()
    }
}

impl fmt::Display for Plain {
    ghost output = { Some };

    fn fmt<W: fmt::Write>(&self, f: &mut fmt::Formatter<W>) -> fmt::Result {
        f.write_str(self.as_str())
    }
}

#[tactic(auto, using(crate::proofs::Refusals::list_all_passes), unfolding(crate::specs::Plain::plain_refusal))]
fn judge(text: &str) -> Result<(), NameRefused>
    ensures named { OnOk result (IsPlainName text.now) }
    ensures refused { IfErr result (IsPlainRefusal text.now) }
{
    if text.is_empty() {
        return Err(NameRefused::Empty);
    }
    if text.len() > MAX_NAME_LENGTH {
        return Err(NameRefused::Long);
    }
    if !has_plain_bytes(text) {
        return Err(NameRefused::NotPlain);
    }
    Ok(())
}

fn has_plain_bytes(text: &str) -> bool
    ensures { result ≡ list_all is_plain_byte text.now }
{
    text.as_bytes().iter().all(|byte| byte.is_ascii_alphanumeric()
        || *byte == b'_'
        || *byte == b'-')
}
