//! What a storage token opens.
ghost use Rattle.std.specs.Prelude.{◌≡◌, Some, option_copied};
ghost use Rattle.std.specs.Bool.{⊤};
ghost use Rattle.pol_rules.specs.Judged.{Sees};
ghost use Rattle.pol_token_rules.specs.Access.{is_current, token_borne, token_of, token_of_text, token_unknown, unopened};

use pol_commands::{Caller, Refusal};
use pol_locations::Location;
use pol_rules::rules::{Asked, time_of};
use pol_state::State;
use pol_tokens::{Act, TokenRefused, TokenRow, allows};

/// The storage token that the caller bears: it is unexpired, and its table is there and has not moved since.
#[tactic(auto, unfolding(crate::specs::Access::token_unknown))]
pub fn token_known<'a>(asked: &Asked<'a>) -> Result<&'a TokenRow, Refusal>
    ensures { let s = asked.now.state.now.rows in
        Sees (token_unknown s asked.now.command.now)
        (λ token. token_borne s asked.now.command.now ≡ Some token.now) result }
{
    match token_of(asked.state, time_of(asked), &asked.command.caller) {
        Some(token) => Ok(token),
        None => Err(Refusal::TokenUnknown),
    }
}

fn token_of<'a>(state: &'a State, time: u64, caller: &Caller) -> Option<&'a TokenRow>
    ensures { option_copied result ≡ token_of state.now.rows time caller.now }
{
    match caller {
        Caller::Nobody | Caller::Setup => None,
        Caller::Bearer(text) => token_of_text(state, time, text.as_slice()),
    }
}

/// The unexpired storage token of this text, where its table is there and has not moved since.
#[tactic(auto, unfolding(crate::specs::Access::token_of_text))]
fn token_of_text<'a>(state: &'a State, time: u64, text: &[u8]) -> Option<&'a TokenRow>
    ensures { option_copied result ≡ token_of_text state.now.rows time text.now }
{
    let token = state.tokens().find(text, time)?;
    if is_current(state, token) {
        return Some(token);
    }
    None
}

/// Whether the token's table is there, and has seen no more moves than when the token was issued.
fn is_current(state: &State, token: &TokenRow) -> bool
    ensures { result ≡ is_current state.now.rows token.now }
{
    match state.content().table_of(token.table) {
        Some(table) => table.moves == token.moves,
        None => false,
    }
}

/// The token opens the path for the act.
#[tactic(auto, unfolding(crate::specs::Access::unopened))]
pub fn opened(token: &TokenRow, path: &Location, act: Act) -> Result<(), Refusal>
    ensures { Sees (unopened token.now path.now act) (λ _. ⊤) result }
{
    match allows(token, path, act) {
        None => Ok(()),
        Some(TokenRefused::NotCovered) => Err(Refusal::NotCovered),
        Some(TokenRefused::NotWritable) => Err(Refusal::NotWritable),
    }
}
