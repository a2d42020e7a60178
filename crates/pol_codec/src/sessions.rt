//! The forms of scopes, sessions and storage tokens.
ghost use Rattle.std.specs.Prelude.{⊤};
ghost use Rattle.pol_codec.specs.Rows as rows;

use crate::Rows;
use pol_forms::{CodecRefused, Coder, Common, ListOf, Unread, write_variant};
use pol_locations::Location;
use pol_names::Scope;
use pol_tokens::{SessionRow, TokenRow};
use pol_types::{Listed, OutOfMemory};
use std::alloc::Global;

/// 0 for all roles, else 1 and the list of their ids.
#[tactic(auto, unfolding(crate::specs::Rows::scope))]
impl Coder<Scope> for Rows {
    ghost form = { rows.scope };

    ghost rule = { λ row. ⊤ };

    fn write(row: &Scope, written: &mut Vec<u8>) -> Result<(), OutOfMemory> {
        match row {
            Scope::All => Ok(written.push(0)?),
            Scope::Roles(ids) => write_variant::<Listed<u64>, ListOf<Common>>(1, ids, written),
        }
    }

    fn read(alloc: Global, unread: &mut Unread<'_>) -> Result<Scope, CodecRefused> {
        match unread.byte()? {
            0 => Ok(Scope::All),
            1 => Ok(Scope::Roles(ListOf::<Common>::read(alloc, unread)?)),
            _ => Err(CodecRefused::NoForm),
        }
    }
}

#[tactic(auto, unfolding(crate::specs::Rows::session))]
impl Coder<SessionRow> for Rows {
    ghost form = { rows.session };

    ghost rule = { λ row. ⊤ };

    fn write(row: &SessionRow, written: &mut Vec<u8>) -> Result<(), OutOfMemory> {
        Common::write(&row.serial, written)?;
        Common::write(&row.word_a, written)?;
        Common::write(&row.word_b, written)?;
        Common::write(&row.principal, written)?;
        Rows::write(&row.scope, written)?;
        Common::write(&row.expires, written)
    }

    fn read(alloc: Global, unread: &mut Unread<'_>) -> Result<SessionRow, CodecRefused> {
        let serial: u64 = Common::read(alloc, unread)?;
        let word_a: u64 = Common::read(alloc, unread)?;
        let word_b: u64 = Common::read(alloc, unread)?;
        let principal: u64 = Common::read(alloc, unread)?;
        let scope: Scope = Rows::read(alloc, unread)?;
        let expires: u64 = Common::read(alloc, unread)?;
        Ok(SessionRow {
            serial,
            word_a,
            word_b,
            principal,
            scope,
            expires,
        })
    }
}

#[tactic(auto, unfolding(crate::specs::Rows::token))]
impl Coder<TokenRow> for Rows {
    ghost form = { rows.token };

    ghost rule = { λ row. ⊤ };

    fn write(row: &TokenRow, written: &mut Vec<u8>) -> Result<(), OutOfMemory> {
        Common::write(&row.serial, written)?;
        Common::write(&row.word_a, written)?;
        Common::write(&row.word_b, written)?;
        Common::write(&row.principal, written)?;
        Common::write(&row.table, written)?;
        Common::write(&row.moves, written)?;
        Common::write(&row.location, written)?;
        Common::write(&row.write, written)?;
        Common::write(&row.expires, written)
    }

    fn read(alloc: Global, unread: &mut Unread<'_>) -> Result<TokenRow, CodecRefused> {
        let serial: u64 = Common::read(alloc, unread)?;
        let word_a: u64 = Common::read(alloc, unread)?;
        let word_b: u64 = Common::read(alloc, unread)?;
        let principal: u64 = Common::read(alloc, unread)?;
        let table: u64 = Common::read(alloc, unread)?;
        let moves: u64 = Common::read(alloc, unread)?;
        let location: Location = Common::read(alloc, unread)?;
        let write: bool = Common::read(alloc, unread)?;
        let expires: u64 = Common::read(alloc, unread)?;
        Ok(TokenRow {
            serial,
            word_a,
            word_b,
            principal,
            table,
            moves,
            location,
            write,
            expires,
        })
    }
}
