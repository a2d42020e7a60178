//! Whether sessions and storage tokens are sound.
ghost use Rattle.std.specs.Prelude.{◌≡◌};
ghost use Rattle.std.specs.List.{list_all};
ghost use Rattle.pol_sound_access.specs.Judged.{is_given};
ghost use Rattle.pol_soundness.specs.Judged.{are_fit, are_given, are_sessions, are_sound_tokens, are_tokens, fits_table, has_own_serial, is_fit, is_session, is_token};
ghost use Rattle.pol_tables.specs.Table.{knows};
ghost use Rattle.pol_tokens.specs.Tokens.{serial_of};

use pol_content::{Content, TableRow};
use pol_names::Scope;
use pol_sound_access::{is_given, rises};
use pol_tables::Rows;
use pol_tokens::{SessionRow, TokenRow, Tokens};

/// Whether they are.
#[tactic(auto, unfolding(crate::specs::Judged::are_sound_tokens))]
pub(crate) fn are_sound_tokens(tokens: &Tokens, next_id: u64, next_serial: u64) -> bool
    ensures { result ≡ are_sound_tokens next_id next_serial tokens.now.rows }
{
    are_sessions(tokens.sessions(), next_id, next_serial)
        && are_tokens(tokens.tokens(), next_id, next_serial)
        && have_own_serials(tokens)
}

/// Whether the serials of the sessions rise and were given out, as were the ids that they name.
fn are_sessions(rows: Rows<'_, SessionRow>, next_id: u64, next_serial: u64) -> bool
    ensures { result ≡ are_sessions next_id next_serial rows.entry }
{
    rises(rows.rest(), 0, next_serial) && each_session(rows, next_id)
}

fn each_session(mut rows: Rows<'_, SessionRow>, next_id: u64) -> bool
    ensures { result ≡ list_all (is_session next_id) rows.entry }
{
    rows.all(|row| is_session(next_id, row))
}

/// Whether the ids that a session names were given out.
pub fn is_session(next_id: u64, row: &SessionRow) -> bool
    ensures { result ≡ is_session next_id row.now }
{
    is_given(next_id, row.principal) && are_given(next_id, &row.scope)
}

fn are_given(next_id: u64, scope: &Scope) -> bool
    ensures { result ≡ are_given next_id scope.now }
{
    match scope {
        Scope::All => true,
        Scope::Roles(roles) => each_given(next_id, roles.as_slice()),
    }
}

fn each_given(next_id: u64, ids: &[u64]) -> bool
    ensures { result ≡ list_all (is_given next_id) ids.now }
{
    ids.iter().all(|id| is_given(next_id, *id))
}

/// Whether the serials of the storage tokens rise and were given out, as were the ids that they name.
fn are_tokens(rows: Rows<'_, TokenRow>, next_id: u64, next_serial: u64) -> bool
    ensures { result ≡ are_tokens next_id next_serial rows.entry }
{
    rises(rows.rest(), 0, next_serial) && each_token(rows, next_id)
}

fn each_token(mut rows: Rows<'_, TokenRow>, next_id: u64) -> bool
    ensures { result ≡ list_all (is_token next_id) rows.entry }
{
    rows.all(|row| is_token(next_id, row))
}

/// Whether the ids that a storage token names were given out.
pub fn is_token(next_id: u64, row: &TokenRow) -> bool
    ensures { result ≡ is_token next_id row.now }
{
    is_given(next_id, row.principal) && is_given(next_id, row.table)
}

/// Whether no session has the serial of a storage token.
fn have_own_serials(tokens: &Tokens) -> bool
    ensures { result ≡ list_all (has_own_serial tokens.now.rows.sessions) tokens.now.rows.tokens }
{
    tokens.tokens().all(|row| has_own_serial(tokens, row))
}

fn has_own_serial(tokens: &Tokens, row: &TokenRow) -> bool
    ensures { result ≡ has_own_serial tokens.now.rows.sessions row.now }
{
    !knows_session(tokens, row.serial)
}

#[tactic(auto, using(pol_sound_access::proofs::FoundLemmas::known_row))]
fn knows_session(tokens: &Tokens, serial: u64) -> bool
    ensures { result ≡ knows serial_of serial tokens.now.rows.sessions }
{
    tokens.session(serial).is_some()
}

/// Whether each storage token fits its table, where that is there.
#[tactic(auto, unfolding(crate::specs::Judged::are_fit))]
pub(crate) fn are_fit(content: &Content, tokens: &Tokens) -> bool
    ensures { result ≡ are_fit content.now.rows.tables tokens.now.rows.tokens }
{
    tokens.tokens().all(|row| fits_table(content, row))
}

/// Whether the storage token fits its table, where that is there.
pub fn fits_table(content: &Content, row: &TokenRow) -> bool
    ensures { result ≡ fits_table content.now.rows.tables row.now }
{
    match content.table_of(row.table) {
        Some(table) => is_fit(row, table),
        None => true,
    }
}

/// Whether the token has seen fewer moves than the table, or it has seen as many and has its location.
pub fn is_fit(token: &TokenRow, table: &TableRow) -> bool
    ensures { result ≡ is_fit token.now table.now }
{
    token.moves < table.moves || (token.moves == table.moves && token.location == table.location)
}
