ghost use Rattle.std.specs.Prelude.{◌≡◌, ◌<◌, ◌≤◌, ◌+◌, [], false, true, IsOk, OnOk, option_copied};
ghost use Rattle.pol_tables.specs.Table.{knows, row_of};
ghost use Rattle.pol_tokens.specs.HeldTable.{rows_once};
ghost use Rattle.pol_tokens.specs.Tokens.{find_session, find_token, serial_of, session_count, token_count, token_serial};

use crate::held_table::HeldTable;
use crate::{SessionRow, TokenRow};
use pol_tables::Rows;
use pol_types::OutOfMemory;
use std::alloc::{AllocError, Global};
use std::marker::Model;

/// The sessions that were opened and the storage tokens that were issued, each kind in the order of their serials'
/// coming and each row found by its serial. Contracts see the rows, and the room: how many more can be put without
/// taking memory.
#[derive(Drop)]
pub struct Tokens {
    sessions: HeldTable<SessionRow>,
    tokens: HeldTable<TokenRow>,
}

impl Model for Tokens {
    ghost use Rattle.pol_tokens.specs.Tokens.{TokensValue};

    ghost Value = { TokensValue };

    ghost view = { λ tokens. record {
      rows = record { sessions = tokens.sessions.rows; tokens = tokens.tokens.rows };
      room = record { sessions = tokens.sessions.room; tokens = tokens.tokens.room };
    } };
}

impl Tokens {
    /// No tokens, and no memory taken.
    pub fn new(alloc: Global) -> Self
        ensures { result.rows ≡ record { sessions = []; tokens = [] } }
    {
        Tokens {
            sessions: HeldTable::new(alloc),
            tokens: HeldTable::new(alloc),
        }
    }

    /// The sessions, in the order in which they were put.
    pub fn sessions(&self) -> Rows<'_, SessionRow>
        ensures { result ≡ self.now.rows.sessions }
    {
        self.sessions.rows()
    }

    /// The storage tokens, in the order in which they were put.
    pub fn tokens(&self) -> Rows<'_, TokenRow>
        ensures { result ≡ self.now.rows.tokens }
    {
        self.tokens.rows()
    }

    /// The session of this serial.
    pub fn session(&self, serial: u64) -> Option<&SessionRow>
        ensures { option_copied result ≡ row_of serial_of serial self.now.rows.sessions }
    {
        self.sessions.find(serial)
    }

    /// The session of this text that has not expired at `now`, in milliseconds. A session is expired when the time has
    /// reached its expiry.
    pub fn find_session(&self, text: &[u8], now: u64) -> Option<&SessionRow>
        ensures { option_copied result ≡ find_session text.now now self.now.rows }
    {
        self.sessions.find_text(text, now)
    }

    /// The storage token of this text that has not expired at `now`, in milliseconds.
    pub fn find(&self, text: &[u8], now: u64) -> Option<&TokenRow>
        ensures { option_copied result ≡ find_token text.now now self.now.rows }
    {
        self.tokens.find_text(text, now)
    }

    /// How many sessions a principal has that have not expired at `now`. It scans none of the others.
    pub fn session_count(&self, principal: u64, now: u64) -> u64
        ensures { result ≡ session_count principal now self.now.rows }
    {
        self.sessions.count(principal, now)
    }

    /// How many storage tokens a principal has that have not expired at `now`. It scans none of the others.
    pub fn token_count(&self, principal: u64, now: u64) -> u64
        ensures { result ≡ token_count principal now self.now.rows }
    {
        self.tokens.count(principal, now)
    }

    /// Makes room for `more` sessions, so that putting as many takes no memory.
    pub fn reserve_sessions(&mut self, more: usize) -> Result<(), OutOfMemory>
        ensures rows { self.new.rows ≡ self.old.rows }
        ensures reserved { OnOk result (more ≤ self.new.room.sessions) }
        ensures succeeds { more ≤ self.old.room.sessions → IsOk result }
        ensures room { self.old.room.sessions ≤ self.new.room.sessions }
        ensures tokens { self.new.room.tokens ≡ self.old.room.tokens }
    {
        self.sessions.reserve(more)
    }

    /// Makes room for `more` storage tokens, so that putting as many takes no memory.
    pub fn reserve_tokens(&mut self, more: usize) -> Result<(), OutOfMemory>
        ensures rows { self.new.rows ≡ self.old.rows }
        ensures reserved { OnOk result (more ≤ self.new.room.tokens) }
        ensures succeeds { more ≤ self.old.room.tokens → IsOk result }
        ensures room { self.old.room.tokens ≤ self.new.room.tokens }
        ensures sessions { self.new.room.sessions ≡ self.old.room.sessions }
    {
        self.tokens.reserve(more)
    }

    /// Puts a session, and takes no memory: a new serial goes last, and one that is known changes nothing.
    pub fn put_session(&mut self, row: SessionRow)
        requires { knows serial_of row.serial self.old.rows.sessions ≡ false → 0 < self.old.room.sessions }
        ensures rows { self.new.rows
            ≡ record self.old.rows { sessions = rows_once serial_of row self.old.rows.sessions } }
        ensures room { self.old.room.sessions ≤ self.new.room.sessions + 1 }
        ensures known { knows serial_of row.serial self.old.rows.sessions ≡ true
            → self.old.room.sessions ≤ self.new.room.sessions }
        ensures tokens { self.new.room.tokens ≡ self.old.room.tokens }
    {
        self.sessions.put(row)
    }

    /// Puts a storage token, and takes no memory: a new serial goes last, and one that is known changes nothing.
    pub fn put_token(&mut self, row: TokenRow)
        requires { knows token_serial row.serial self.old.rows.tokens ≡ false → 0 < self.old.room.tokens }
        ensures rows { self.new.rows
            ≡ record self.old.rows { tokens = rows_once token_serial row self.old.rows.tokens } }
        ensures room { self.old.room.tokens ≤ self.new.room.tokens + 1 }
        ensures known { knows token_serial row.serial self.old.rows.tokens ≡ true
            → self.old.room.tokens ≤ self.new.room.tokens }
        ensures sessions { self.new.room.sessions ≡ self.old.room.sessions }
    {
        self.tokens.put(row)
    }
}

impl Clone for Tokens {
    ghost is_clone = { λ source clone. clone.rows ≡ source.rows };

    fn clone(&self) -> Result<Self, AllocError> {
        let sessions = self.sessions.clone()?;
        let tokens = self.tokens.clone()?;
        Ok(Tokens { sessions, tokens })
    }
}
