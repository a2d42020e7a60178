//! How many sessions and storage tokens a principal may have.
ghost use Rattle.std.specs.Prelude.{◌≡◌, None, Some};
ghost use Rattle.std.specs.Bool.{⊤};
ghost use Rattle.pol_rules.specs.Judged.{Sees};
ghost use Rattle.pol_rules.specs.Rules.{unauthenticated};
ghost use Rattle.pol_state.specs.Sound.{IsSound};
ghost use Rattle.pol_token_rules.specs.Counts.{caller_holder, holder, too_many, too_many_sessions, too_many_tokens};

use pol_commands::{Caller, Refusal};
use pol_rules::callers::session_of;
use pol_rules::rules::{Asked, time_of};
use pol_state::State;

/// The most unexpired sessions that a principal may have, and the most such storage tokens.
const MOST_LIVE: u64 = 10_000;

/// The principal may open one more session.
#[tactic(auto, unfolding(crate::specs::Counts::too_many_sessions))]
pub fn sessions_open(asked: &Asked<'_>, principal: u64) -> Result<(), Refusal>
    ensures { Sees (too_many_sessions asked.now.state.now.rows asked.now.command.now principal) (λ _. ⊤) result }
{
    few_enough(
        asked
            .state
            .tokens()
            .session_count(principal, time_of(asked)),
    )
}

/// The caller's principal, which may be issued one more storage token.
#[tactic(auto, unfolding(crate::specs::Counts::too_many_tokens))]
pub fn tokens_open(asked: &Asked<'_>) -> Result<u64, Refusal>
    requires sound { IsSound asked.now.state.now.rows }
    requires signed { unauthenticated asked.now.state.now.rows asked.now.command.now ≡ None }
    ensures { let s = asked.now.state.now.rows in
        Sees (too_many_tokens s asked.now.command.now)
        (λ principal. holder s asked.now.command.now ≡ Some principal) result }
{
    let principal = holder(asked);
    let tokens = asked.state.tokens();
    few_enough(tokens.token_count(principal, time_of(asked)))?;
    Ok(principal)
}

/// The principal that the caller asks for, where the caller may ask.
fn holder(asked: &Asked<'_>) -> u64
    requires sound { IsSound asked.now.state.now.rows }
    requires signed { unauthenticated asked.now.state.now.rows asked.now.command.now ≡ None }
    ensures { holder asked.now.state.now.rows asked.now.command.now ≡ Some result }
{
    let time = time_of(asked);
    caller_holder(asked.state, time, &asked.command.caller).unwrap()
}

fn caller_holder(state: &State, time: u64, caller: &Caller) -> Option<u64>
    requires { IsSound state.now.rows }
    ensures { result ≡ caller_holder state.now.rows time caller.now }
{
    match caller {
        Caller::Nobody => None,
        Caller::Bearer(text) => {
            let session = session_of(state, time, text.as_slice())?;
            Some(session.principal)
        }
        Caller::Setup => {
            let root = state.access().principal_named("root")?;
            Some(root.id)
        }
    }
}

/// So many leave room for one more.
fn few_enough(live: u64) -> Result<(), Refusal>
    ensures { Sees (too_many live) (λ _. ⊤) result }
{
    if live >= MOST_LIVE {
        return Err(Refusal::TooManyTokens { live });
    }
    Ok(())
}
