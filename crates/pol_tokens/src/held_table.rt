ghost use Rattle.std.specs.Prelude.{◌≡◌, ◌<◌, ◌≤◌, ◌+◌, [], false, true, IsOk, OnOk, option_copied};
ghost use Rattle.pol_tables.specs.Table.{knows, row_of};
ghost use Rattle.pol_tokens.specs.Chains.{count_held};
ghost use Rattle.pol_tokens.specs.HeldTable.{find_text, is_live_at, rows_once};

use crate::Held;
use crate::chains::Chains;
use crate::text::serial_in;
use pol_tables::{Rows, Table};
use pol_types::OutOfMemory;
use std::alloc::{AllocError, Global};
use std::marker::Model;

/// Rows that principals have until they expire, in the order in which they were put, each found by its serial. Those of
/// one principal are counted without a look at the others. A row is never replaced, and never taken away. Contracts see
/// the rows, and the room: how many more can be put without taking memory.
#[derive(Drop)]
pub(crate) struct HeldTable<R: Held> {
    table: Table<R>,
    chains: Chains,
}

impl<R: Held> Model for HeldTable<R> {
    ghost use Rattle.std.specs.Prelude.{min};
    ghost use Rattle.pol_tables.specs.Table.{TableValue};
    ghost use Rattle.pol_tokens.specs.Chains.{AreChained};
    ghost use Rattle.pol_tokens.specs.HeldTable.{AreKept};

    ghost Value = { TableValue R };

    ghost view = { λ held. record { rows = held.table.rows; room = min held.table.room held.chains.room } };

    ghost invariant = { λ held.
        AreKept R.key held.table.rows × AreChained R.holder held.chains held.table.rows };
}

impl<R: Held> HeldTable<R> {
    /// No rows, and no memory taken.
    pub fn new(alloc: Global) -> Self
        ensures { result.rows ≡ [] }
    {
        HeldTable {
            table: Table::new(alloc),
            chains: Chains::new(alloc),
        }
    }

    /// The rows, in their order.
    pub fn rows(&self) -> Rows<'_, R>
        ensures { result ≡ self.now.rows }
    {
        self.table.rows()
    }

    /// The row of this serial.
    pub fn find(&self, serial: u64) -> Option<&R>
        ensures { option_copied result ≡ row_of R.key serial self.now.rows }
    {
        self.table.find(serial)
    }

    /// The row of this text that has not expired at `now`, in milliseconds. A row is expired when the time has reached
    /// its expiry.
    pub fn find_text(&self, text: &[u8], now: u64) -> Option<&R>
        ensures { option_copied result
            ≡ find_text R.key R.word_a R.word_b R.expiry text.now now self.now.rows }
    {
        let row = self.table.find(serial_in(text)?)?;
        let written = row.text();
        if text == written.as_slice() && now < row.expiry() {
            return Some(row);
        }
        None
    }

    /// How many rows a principal has that have not expired at `now`, in milliseconds. It goes over the principal's rows
    /// alone, those that have expired too.
    pub fn count(&self, principal: u64, now: u64) -> u64
        ensures { result ≡ count_held R.holder R.expiry principal now self.now.rows }
    {
        let _most = self.table.len();
        let mut held = 0;
        let mut place = self.chains.last(principal) as usize;
        'rows: while place > 0 {
            if is_live(&self.table, place - 1, now) {
                held += 1;
            }
            place = self.chains.before(place - 1) as usize;
        }
        held
    }

    /// Makes room for `more` rows, so that putting as many takes no memory. On an error the rows stay, and the room
    /// does not shrink.
    pub fn reserve(&mut self, more: usize) -> Result<(), OutOfMemory>
        ensures rows { self.new.rows ≡ self.old.rows }
        ensures reserved { OnOk result (more ≤ self.new.room) }
        ensures succeeds { more ≤ self.old.room → IsOk result }
        ensures room { self.old.room ≤ self.new.room }
    {
        self.table.reserve(more)?;
        self.chains.reserve(more)
    }

    /// Puts a row, and takes no memory: a new serial goes last, and one that is known changes nothing.
    pub fn put(&mut self, row: R)
        requires { knows R.key (R.key row) self.old.rows ≡ false → 0 < self.old.room }
        ensures rows { self.new.rows ≡ rows_once R.key row self.old.rows }
        ensures room { self.old.room ≤ self.new.room + 1 }
        ensures known { knows R.key (R.key row) self.old.rows ≡ true → self.old.room ≤ self.new.room }
    {
        if self.table.find(row.key()).is_some() {
            return;
        }
        self.chains.link(row.holder());
        self.table.put(row);
    }
}

/// Whether the row at a place has not expired at `now`.
fn is_live<R: Held>(table: &Table<R>, place: usize, now: u64) -> bool
    ensures { result ≡ is_live_at R.expiry place now table.now.rows }
{
    match table.at(place) {
        Some(row) => now < row.expiry(),
        None => false,
    }
}

impl<R: Held> Clone for HeldTable<R> {
    ghost is_clone = { λ source clone. clone.rows ≡ source.rows };

    fn clone(&self) -> Result<Self, AllocError> {
        let table = self.table.clone()?;
        let chains = self.chains.clone()?;
        Ok(HeldTable { table, chains })
    }
}
