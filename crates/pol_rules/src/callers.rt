ghost use Rattle.std.specs.Prelude.{◌≡◌, Some, option_copied};
ghost use Rattle.std.specs.Bool.{⊤};
ghost use Rattle.pol_access.specs.Access.{principal_id};
ghost use Rattle.pol_rules.specs.Judged.{Sees};
ghost use Rattle.pol_state.specs.Sound.{IsSound};
ghost use Rattle.pol_tables.specs.Table.{knows};
ghost use Rattle.pol_rules.specs.Rules.{client_of, invalid_client, is_signed_in, session_of, unauthenticated};

use crate::rules::{Asked, time_of};
use pol_access::PrincipalRow;
use pol_commands::{Caller, Refusal};
use pol_state::State;
use pol_state::texts::digest;
use pol_tokens::SessionRow;

/// The caller may ask: it is the bearer of an unexpired session's text, whose principal is there, or it sets the
/// catalogue up.
#[tactic(auto, unfolding(crate::specs::Rules::unauthenticated))]
pub fn signed_in(asked: &Asked<'_>) -> Result<(), Refusal>
    ensures { Sees (unauthenticated asked.now.state.now.rows asked.now.command.now) (λ _. ⊤) result }
{
    if !is_signed_in(asked.state, time_of(asked), &asked.command.caller) {
        return Err(Refusal::Unauthenticated);
    }
    Ok(())
}

fn is_signed_in(state: &State, time: u64, caller: &Caller) -> bool
    ensures { result ≡ is_signed_in state.now.rows time caller.now }
{
    match caller {
        Caller::Nobody => false,
        Caller::Bearer(text) => session_of(state, time, text.as_slice()).is_some(),
        Caller::Setup => true,
    }
}

/// The unexpired session of this text, where its principal is there.
#[tactic(auto, unfolding(crate::specs::Rules::session_of))]
pub fn session_of<'a>(state: &'a State, time: u64, text: &[u8]) -> Option<&'a SessionRow>
    ensures { option_copied result ≡ session_of state.now.rows time text.now }
{
    let session = state.tokens().find_session(text, time)?;
    if is_principal(state, session.principal) {
        return Some(session);
    }
    None
}

/// Whether there is a principal of this id.
#[tactic(auto, using(crate::proofs::ContentLemmas::principal_found))]
fn is_principal(state: &State, id: u64) -> bool
    ensures { result ≡ knows principal_id id state.now.rows.access.principals }
{
    state.access().principal(id).is_some()
}

/// The principal of the client id, whose secret this is.
#[tactic(auto, unfolding(crate::specs::Rules::client_of, crate::specs::Rules::invalid_client))]
pub fn client_there<'a>(
    asked: &Asked<'a>,
    client_id: &str,
    secret: &str,
) -> Result<&'a PrincipalRow, Refusal>
    requires { IsSound asked.now.state.now.rows }
    ensures { let s = asked.now.state.now.rows in
        Sees (invalid_client s client_id.now secret.now)
        (λ principal. client_of s client_id.now secret.now ≡ Some principal.now) result }
{
    let Some(principal) = asked.state.access().principal_of_client(client_id) else {
        return Err(Refusal::InvalidClient);
    };
    if principal.digest != digest(secret) {
        return Err(Refusal::InvalidClient);
    }
    Ok(principal)
}
