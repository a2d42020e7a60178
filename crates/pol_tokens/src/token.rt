ghost use Rattle.std.specs.Prelude.{◌≡◌, ◌≤◌, ◌^◌, IfOk};
ghost use Rattle.std.proofs.Common.{rules};
ghost use Rattle.pol_tokens.specs.Exactness.{token_rows_exact};
ghost use Rattle.pol_tokens.specs.Issued.{issued, not_allowed};

use crate::text::token_text;
use crate::{Held, TOKEN_LENGTH};
use pol_locations::{Location, covers};
use pol_table_rows::TableRow;
use pol_tables::Keyed;
use pol_types::{Exact, OutOfMemory};

/// How long a storage token lasts, in milliseconds.
pub const TOKEN_LIFE: u64 = 900_000;

/// A storage token that was issued: its serial and its two random words, which make its text, the id of the principal
/// that asked for it, its table, with how many moves this had seen and where it lay, whether it opens for writing, and
/// the moment at which it expires, in milliseconds.
#[derive(Clone, Drop, PartialEq, Eq)]
pub struct TokenRow {
    pub serial: u64,
    pub word_a: u64,
    pub word_b: u64,
    pub principal: u64,
    pub table: u64,
    pub moves: u64,
    pub location: Location,
    pub write: bool,
    pub expires: u64,
}

impl Exact for TokenRow {
    ghost clones_exactly = { Prim.search rules };

    ghost compares_exactly = { token_rows_exact };
}

impl Keyed for TokenRow {
    ghost key = { λ row. row.serial };

    fn key(&self) -> u64 {
        self.serial
    }
}

impl Held for TokenRow {
    ghost holder = { λ row. row.principal };

    ghost expiry = { λ row. row.expires };

    ghost word_a = { λ row. row.word_a };

    ghost word_b = { λ row. row.word_b };

    fn holder(&self) -> u64 {
        self.principal
    }

    fn expiry(&self) -> u64 {
        self.expires
    }

    fn text(&self) -> [u8; TOKEN_LENGTH] {
        token_text(self.serial, self.word_a, self.word_b)
    }
}

/// The serial and the two random words that make the text of a token.
#[derive(Clone, Copy)]
pub struct Words {
    pub serial: u64,
    pub word_a: u64,
    pub word_b: u64,
}

/// What is done with an object: reading it or listing, or writing or deleting it.
#[derive(Clone, Copy, PartialEq, Eq)]
pub enum Act {
    Read,
    Write,
}

/// Why a token doesn't open a path.
#[derive(Clone, Copy, PartialEq, Eq)]
pub enum TokenRefused {
    NotCovered,
    NotWritable,
}

/// The storage token of a table that is issued at `now`, in milliseconds, to a principal.
pub fn issue(
    table: &TableRow,
    principal: u64,
    write: bool,
    now: u64,
    words: Words,
) -> Result<TokenRow, OutOfMemory>
    requires { now ≤ 2 ^ 62 }
    ensures { IfOk result (λ row. row ≡ issued table.now principal write now words) }
{
    Ok(TokenRow {
        serial: words.serial,
        word_a: words.word_a,
        word_b: words.word_b,
        principal,
        table: table.id,
        moves: table.moves,
        location: table.location.clone()?,
        write,
        expires: now + TOKEN_LIFE,
    })
}

/// Why the token doesn't open the path for the act; `None` where it does. Whether its table is there, and has seen no
/// more moves, is judged elsewhere.
pub fn allows(token: &TokenRow, path: &Location, act: Act) -> Option<TokenRefused>
    ensures { result ≡ not_allowed token.now path.now act }
{
    if !covers(&token.location, path) {
        return Some(TokenRefused::NotCovered);
    }
    match act {
        Act::Write if !token.write => Some(TokenRefused::NotWritable),
        Act::Read | Act::Write => None,
    }
}
