ghost use Rattle.std.proofs.Common.{rules};
ghost use Rattle.pol_types.specs.Exact.{exactness};

use crate::text::token_text;
use crate::{Held, TOKEN_LENGTH};
use pol_names::Scope;
use pol_tables::Keyed;
use pol_types::Exact;

/// How long a session lasts, in milliseconds.
pub const SESSION_LIFE: u64 = 3_600_000;

/// A session that was opened: its serial and its two random words, which make the text of its token, the id of its
/// principal, the principal roles that it acts with, and the moment at which it expires, in milliseconds.
#[derive(Clone, Drop, PartialEq, Eq)]
pub struct SessionRow {
    pub serial: u64,
    pub word_a: u64,
    pub word_b: u64,
    pub principal: u64,
    pub scope: Scope,
    pub expires: u64,
}

impl Exact for SessionRow {
    ghost clones_exactly = { Prim.search rules };

    ghost compares_exactly = { Prim.grind exactness };
}

impl Keyed for SessionRow {
    ghost key = { λ row. row.serial };

    fn key(&self) -> u64 {
        self.serial
    }
}

impl Held for SessionRow {
    ghost holder = { λ row. row.principal };

    ghost expiry = { λ row. row.expires };

    ghost word_a = { λ row. row.word_a };

    ghost word_b = { λ row. row.word_b };

    fn holder(&self) -> u64 {
        self.principal
    }

    fn expiry(&self) -> u64 {
        self.expires
    }

    fn text(&self) -> [u8; TOKEN_LENGTH] {
        token_text(self.serial, self.word_a, self.word_b)
    }
}
