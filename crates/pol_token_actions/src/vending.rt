//! Storage tokens of tables that are there.
ghost use Rattle.std.specs.Prelude.{◌≡◌, ◌≤◌, ◌^◌, IfOk, Some};
ghost use Rattle.pol_rules.specs.Judged.{Acts, changes_to};
ghost use Rattle.pol_state.specs.Sound.{IsSound};
ghost use Rattle.pol_table_actions.specs.Loading.{loaded_with};
ghost use Rattle.pol_token_actions.specs.Vending.{load_credentials, load_delegated, token_there, token_with, with_token};

use pol_access::{Privilege, Securable};
use pol_commands::Answer;
use pol_content::{Change, TableRow};
use pol_names::{Identifier, Plain};
use pol_puts::put_token;
use pol_rules::prologues::at_table;
use pol_rules::rules::{Acted, Asked, Undone, time_of};
use pol_table_actions::loading::loaded_with;
use pol_token_rules::counts::tokens_open;
use pol_token_rules::data::{at_table_data, may_write};
use pol_tokens::{TokenRow, Words, issue};
use pol_types::{Listed, OutOfMemory};

/// Shows a table, with all its snapshots or with those alone that its references name, and issues a storage token.
#[tactic(auto, using(pol_token_rules::proofs::DataLemmas::at_table_data_stops, pol_state::proofs::BoundsLemmas::next_serial_bound))]
pub fn load_delegated(
    asked: &Asked<'_>,
    name: &Plain,
    identifier: &Identifier,
    refs_only: bool,
) -> Result<Acted, Undone>
    requires sound { IsSound asked.now.state.now.rows }
    requires moment { asked.now.command.now.moment ≤ 2 ^ 62 }
    ensures { Acts asked.now (λ s command. load_delegated s command name.now identifier.now refs_only) result }
{
    let row = at_table_data(asked, Privilege::TableReadProperties, name, identifier)?;
    let principal = tokens_open(asked)?;
    Ok(shown_with_token(asked, row, refs_only, principal)?)
}

/// A table is shown with a storage token, which takes the next serial.
fn shown_with_token(
    asked: &Asked<'_>,
    row: &TableRow,
    refs_only: bool,
    principal: u64,
) -> Result<Acted, OutOfMemory>
    requires sound { IsSound asked.now.state.now.rows }
    requires moment { asked.now.command.now.moment ≤ 2 ^ 62 }
    requires within { asked.now.state.now.rows.next_serial ≤ 2 ^ 62 }
    ensures answer { IfOk result (λ acted. acted.answer
        ≡ loaded_with refs_only (Some (token_there asked.now row.now principal)) row.now) }
    ensures changes { IfOk result (λ acted. acted.changes
        ≡ changes_to asked.now (λ s. with_token s (token_there asked.now row.now principal))) }
{
    let (shown, kept) = twice(token_of(asked, row, principal)?)?;
    Acted::of(
        loaded_with(asked.alloc, row, refs_only, Some(shown)),
        issuing(asked, kept),
    )
}

/// Issues a storage token of a table.
#[tactic(auto, using(pol_rules::proofs::ProloguesLemmas::at_table_stops, pol_state::proofs::BoundsLemmas::next_serial_bound))]
pub fn load_credentials(
    asked: &Asked<'_>,
    name: &Plain,
    identifier: &Identifier,
) -> Result<Acted, Undone>
    requires sound { IsSound asked.now.state.now.rows }
    requires moment { asked.now.command.now.moment ≤ 2 ^ 62 }
    ensures { Acts asked.now (λ s command. load_credentials s command name.now identifier.now) result }
{
    let row = at_table(asked, Privilege::TableReadData, name, identifier)?;
    let principal = tokens_open(asked)?;
    let (token, kept) = twice(token_of(asked, row, principal)?)?;
    let changes = issuing(asked, kept)?;
    Ok(Acted {
        answer: Answer::CredentialsLoaded { token },
        changes,
    })
}

/// The storage token of a table that is there, which takes the first two words.
fn token_of(asked: &Asked<'_>, row: &TableRow, principal: u64) -> Result<TokenRow, OutOfMemory>
    requires sound { IsSound asked.now.state.now.rows }
    requires moment { asked.now.command.now.moment ≤ 2 ^ 62 }
    ensures { IfOk result (λ token. token ≡ token_there asked.now row.now principal) }
{
    let words = asked.command.words;
    token_with(
        asked,
        words.a,
        words.b,
        Securable::Table(row.id),
        row,
        principal,
    )
}

/// The storage token of a table, made of two words, which writes where the caller may write the data of the tables of
/// the securable.
pub(crate) fn token_with(
    asked: &Asked<'_>,
    word_a: u64,
    word_b: u64,
    on: Securable,
    row: &TableRow,
    principal: u64,
) -> Result<TokenRow, OutOfMemory>
    requires sound { IsSound asked.now.state.now.rows }
    requires moment { asked.now.command.now.moment ≤ 2 ^ 62 }
    ensures { let s = asked.now.state.now.rows in
        IfOk result (λ token. token ≡ token_with s asked.now.command.now word_a word_b on row.now principal) }
{
    let words = Words {
        serial: asked.state.next_serial(),
        word_a,
        word_b,
    };
    let write = may_write(asked, on)?;
    issue(row, principal, write, time_of(asked), words)
}

/// A storage token twice: one to be shown, and an equal one to be kept.
pub(crate) fn twice(token: TokenRow) -> Result<(TokenRow, TokenRow), OutOfMemory>
    ensures shown { IfOk result (λ tokens. tokens.0 ≡ token) }
    ensures kept { IfOk result (λ tokens. tokens.1 ≡ token) }
{
    let kept = token.clone()?;
    Ok((token, kept))
}

/// The put of a storage token, which takes the next serial.
#[tactic(auto, using(crate::proofs::ChangesLemmas::token_changes))]
fn issuing(asked: &Asked<'_>, token: TokenRow) -> Result<Listed<Change>, OutOfMemory>
    requires sound { IsSound asked.now.state.now.rows }
    requires within { asked.now.state.now.rows.next_serial ≤ 2 ^ 62 }
    requires next { token.serial ≡ asked.now.state.now.rows.next_serial }
    ensures { IfOk result (λ changes. changes ≡ changes_to asked.now (λ s. with_token s token)) }
{
    let token = put_token(asked.alloc, token)?;
    Ok(Listed::from(vec![in asked.alloc;
        Change::Time(time_of(asked)),
        Change::NextSerial(asked.state.next_serial() + 1),
        token,
    ]?))
}
