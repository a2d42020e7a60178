ghost use Rattle.std.specs.Prelude.{◌≡◌, List, ℕ, IfOk, IfErr, OnOk, Some, nat_eq};
ghost use Rattle.std.specs.List.{list_all};
ghost use Rattle.std.specs.Cmp.{partial_equiv_from_equiv};
ghost use Rattle.std.specs.Cmp.Lexicographic.{pointwise, nat_list_eq_equiv};
ghost use Rattle.std.proofs.Common.{rules};
ghost use Rattle.pol_types.specs.Exact.{exactness};
ghost use Rattle.pol_names.specs.Name.{IsName, IsNameRefusal, is_name_byte, name_refusal};
ghost use Rattle.pol_names.specs.declared.name.NameRefused.TheVariants.{OutOfMemory};

use pol_types::{Exact, Text};
use std::alloc::{AllocError, Global};
use std::error::Error;
use std::fmt;
use std::marker::Model;

/// The most bytes that a name of any kind has.
pub const MAX_NAME_LENGTH: usize = 128;

/// Why a text is no name. The refusals are tried in the order in which they stand here. A name has no answer
/// `NotPlain`, and a plain name no answer `ControlByte`.
#[derive(Clone, Copy, Debug, PartialEq, Eq)]
pub enum NameRefused {
    Empty,
    Long,
    ControlByte,
    NotPlain,
    OutOfMemory,
}

impl fmt::Display for NameRefused {
    ghost use Rattle.pol_names.specs.Name.{name_refusal_text};

    ghost output = { λ why. Some (name_refusal_text why) };

    fn fmt<W: fmt::Write>(&self, f: &mut fmt::Formatter<W>) -> fmt::Result {
        f.write_str(match self {
            NameRefused::Empty => "the name is empty",
            NameRefused::Long => "the name has more than 128 bytes",
            NameRefused::ControlByte => "the name has a control byte",
            NameRefused::NotPlain => "the name has a byte that no plain name has",
            NameRefused::OutOfMemory => "out of memory",
        })
    }
}

impl Error for NameRefused {}

impl From<AllocError> for NameRefused {
    ghost from_gives = { λ _ why. why ≡ OutOfMemory };

    fn from(_error: AllocError) -> Self {
        NameRefused::OutOfMemory
    }
}

/// The name of a table, a view or a level of a namespace: 1 to 128 bytes of UTF-8, none below 0x20 and none equal
/// to 0x7F. Contracts see it as its bytes. Names compare by their bytes, a proper prefix first.
#[derive(Clone, Drop, Eq, PartialOrd, Ord, Hash)]
pub struct Name {
    text: Text,
}

impl Model for Name {
    ghost Value = { List ℕ };

    ghost view = { λ name. name.text };

    ghost invariant = { λ name. IsName name.text };

    ghost inverse = { λ text. record { text = text } };
}

impl PartialEq for Name {
    ghost eq = { pointwise nat_eq };

    ghost laws = { partial_equiv_from_equiv nat_list_eq_equiv };

    fn eq(&self, other: &Self) -> bool {
        self.text == other.text
    }
}

impl Exact for Name {
    ghost clones_exactly = { Prim.search rules };

    ghost compares_exactly = { Prim.grind exactness };
}

impl Name {
    /// Reads a name. The first refusal answers; it is found without memory.
    pub fn new(alloc: Global, text: &str) -> Result<Self, NameRefused>
        ensures value { IfOk result (λ name. name ≡ text.now) }
        ensures named { OnOk result (IsName text.now) }
        ensures refused { IfErr result (IsNameRefusal text.now) }
    {
        judge(text)?;
        Ok(Name {
            text: Text::from(String::from_str(alloc, text)?),
        })
    }

    pub fn as_str(&self) -> &str
        ensures value { result.now ≡ self.now }
        ensures named { IsName self.now }
    {
        self.text.as_str()
    }
}

impl fmt::Display for Name {
    ghost output = { Some };

    fn fmt<W: fmt::Write>(&self, f: &mut fmt::Formatter<W>) -> fmt::Result {
        f.write_str(self.as_str())
    }
}

#[tactic(auto, using(crate::proofs::Refusals::list_all_passes), unfolding(crate::specs::Name::name_refusal))]
fn judge(text: &str) -> Result<(), NameRefused>
    ensures named { OnOk result (IsName text.now) }
    ensures refused { IfErr result (IsNameRefusal text.now) }
{
    if text.is_empty() {
        return Err(NameRefused::Empty);
    }
    if text.len() > MAX_NAME_LENGTH {
        return Err(NameRefused::Long);
    }
    if !has_name_bytes(text) {
        return Err(NameRefused::ControlByte);
    }
    Ok(())
}

fn has_name_bytes(text: &str) -> bool
    ensures { result ≡ list_all is_name_byte text.now }
{
    text.as_bytes()
        .iter()
        .all(|byte| *byte >= 0x20 && *byte != 0x7F)
}
