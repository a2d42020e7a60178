//! Storage tokens of new tables.
ghost use Rattle.std.specs.Prelude.{◌≡◌, ◌≤◌, ◌^◌, false, IfOk, Some};
ghost use Rattle.pol_rules.specs.Judged.{Acts, changes_to};
ghost use Rattle.pol_state.specs.Sound.{IsSound};
ghost use Rattle.pol_token_actions.specs.Vending.{create_delegated, token_made, with_both};
ghost use Rattle.pol_table_actions.specs.Loading.{loaded_with};

use crate::vending::{token_with, twice};
use pol_access::{Privilege, Securable};
use pol_commands::CreateTable;
use pol_content::{Change, TableRow};
use pol_names::{Namespace, Plain};
use pol_puts::{put_table, put_token};
use pol_rules::callers::signed_in;
use pol_rules::catalog_rules::catalog_there;
use pol_rules::namespace_rules::namespace_there;
use pol_rules::rules::{Acted, Asked, Undone, time_of};
use pol_rules::table_rules::{
    format_served, inside_catalog, location_free, name_free, placed, unstaged,
};
use pol_table_actions::creation::{described, table_placed};
use pol_table_actions::loading::loaded_with;
use pol_token_rules::counts::tokens_open;
use pol_token_rules::data::data_allowed_on_path;
use pol_tokens::TokenRow;
use pol_types::{Listed, OutOfMemory, both};

/// Creates a table, and issues a storage token of it.
#[tactic(auto, using(pol_state::proofs::BoundsLemmas::next_id_bound, pol_state::proofs::BoundsLemmas::next_serial_bound), unfolding(pol_table_actions::specs::Creation::new_table, pol_rules::specs::Prologues::namespace_row_at))]
pub fn create_delegated(
    asked: &Asked<'_>,
    name: &Plain,
    levels: &Namespace,
    request: &CreateTable,
) -> Result<Acted, Undone>
    requires sound { IsSound asked.now.state.now.rows }
    requires moment { asked.now.command.now.moment ≤ 2 ^ 62 }
    ensures { Acts asked.now (λ s command. create_delegated s command name.now levels.now request.now) result }
{
    signed_in(asked)?;
    let catalog = catalog_there(asked, name)?;
    data_allowed_on_path(asked, Privilege::TableCreate, levels, catalog)?;
    let namespace = namespace_there(asked, catalog.id, levels)?;
    name_free(asked, namespace, &request.name)?;
    let metadata = described(asked, request)?;
    let location = placed(
        asked.alloc,
        catalog,
        levels,
        &request.location,
        &request.name,
    )?;
    inside_catalog(catalog, &location)?;
    location_free(asked, &location)?;
    let principal = tokens_open(asked)?;
    unstaged(request.stage_create)?;
    format_served(&request.properties)?;
    let row = table_placed(asked, namespace, request, metadata, location)?;
    Ok(created(asked, row, principal)?)
}

/// The table is put with its storage token, and an id and a serial are taken.
fn created(asked: &Asked<'_>, row: TableRow, principal: u64) -> Result<Acted, OutOfMemory>
    requires sound { IsSound asked.now.state.now.rows }
    requires moment { asked.now.command.now.moment ≤ 2 ^ 62 }
    requires id { asked.now.state.now.rows.next_id ≤ 2 ^ 62 }
    requires serial { asked.now.state.now.rows.next_serial ≤ 2 ^ 62 }
    requires next { row.id ≡ asked.now.state.now.rows.next_id }
    ensures answer { IfOk result (λ acted. acted.answer
        ≡ loaded_with false (Some (token_made asked.now row principal)) row) }
    ensures changes { IfOk result (λ acted. acted.changes ≡ changes_to asked.now
        (λ s. with_both s row (token_made asked.now row principal))) }
{
    let (shown, kept) = tokens_of(asked, &row, principal)?;
    Acted::of(
        loaded_with(asked.alloc, &row, false, Some(shown)),
        under_both(asked, row, kept),
    )
}

/// The storage token of a new table, twice.
fn tokens_of(
    asked: &Asked<'_>,
    row: &TableRow,
    principal: u64,
) -> Result<(TokenRow, TokenRow), OutOfMemory>
    requires sound { IsSound asked.now.state.now.rows }
    requires moment { asked.now.command.now.moment ≤ 2 ^ 62 }
    ensures shown { IfOk result (λ tokens. tokens.0 ≡ token_made asked.now row.now principal) }
    ensures kept { IfOk result (λ tokens. tokens.1 ≡ token_made asked.now row.now principal) }
{
    let token = token_of(asked, row, principal)?;
    twice(token)
}

/// The storage token of a new table, which takes the last two words.
fn token_of(asked: &Asked<'_>, row: &TableRow, principal: u64) -> Result<TokenRow, OutOfMemory>
    requires sound { IsSound asked.now.state.now.rows }
    requires moment { asked.now.command.now.moment ≤ 2 ^ 62 }
    ensures { IfOk result (λ token. token ≡ token_made asked.now row.now principal) }
{
    let words = asked.command.words;
    token_with(
        asked,
        words.c,
        words.d,
        Securable::Namespace(row.namespace),
        row,
        principal,
    )
}

/// The puts of a table and of a storage token, which take the next id and the next serial.
#[tactic(auto, using(crate::proofs::ChangesLemmas::both_changes))]
fn under_both(
    asked: &Asked<'_>,
    row: TableRow,
    token: TokenRow,
) -> Result<Listed<Change>, OutOfMemory>
    requires sound { IsSound asked.now.state.now.rows }
    requires id { asked.now.state.now.rows.next_id ≤ 2 ^ 62 }
    requires serial { asked.now.state.now.rows.next_serial ≤ 2 ^ 62 }
    requires next { row.id ≡ asked.now.state.now.rows.next_id }
    requires last { token.serial ≡ asked.now.state.now.rows.next_serial }
    ensures { IfOk result (λ changes. changes ≡ changes_to asked.now (λ s. with_both s row token)) }
{
    let (table, token) = both(put_table(asked.alloc, row), put_token(asked.alloc, token))?;
    Ok(Listed::from(vec![in asked.alloc;
        Change::Time(time_of(asked)),
        Change::NextId(asked.state.next_id() + 1),
        Change::NextSerial(asked.state.next_serial() + 1),
        table,
        token,
    ]?))
}
