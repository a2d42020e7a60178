ghost use Rattle.std.specs.Prelude.{◌≤◌, ◌^◌};
ghost use Rattle.pol_rules.specs.Judged.{Acts};
ghost use Rattle.pol_content_actions.specs.Sessions.{open_session};
ghost use Rattle.pol_state.specs.Sound.{IsSound};

use crate::scopes::{scope_of, scopes_there};
use pol_commands::Answer;
use pol_content::Change;
use pol_puts::put_session;
use pol_rules::callers::client_there;
use pol_rules::rules::{Acted, Asked, Undone, time_of};
use pol_token_rules::counts::sessions_open;
use pol_tokens::{SESSION_LIFE, SessionRow};
use pol_types::{Listed, Text};

/// Opens a session for the client of this id and secret, with these scopes.
#[tactic(auto, using(pol_state::proofs::BoundsLemmas::next_serial_bound))]
pub fn open_session(
    asked: &Asked<'_>,
    client_id: &Text,
    secret: &Text,
    scopes: &Listed<Text>,
) -> Result<Acted, Undone>
    requires sound { IsSound asked.now.state.now.rows }
    requires moment { asked.now.command.now.moment ≤ 2 ^ 62 }
    ensures { Acts asked.now (λ s command. open_session s command client_id.now secret.now scopes.now) result }
{
    let principal = client_there(asked, client_id.as_str(), secret.as_str())?.id;
    scopes_there(asked, principal, scopes)?;
    sessions_open(asked, principal)?;
    let serial = asked.state.next_serial();
    let scope = scope_of(asked, principal, scopes)?;
    let (word_a, word_b) = (asked.command.words.a, asked.command.words.b);
    let time = time_of(asked);
    let row = SessionRow {
        serial,
        word_a,
        word_b,
        principal,
        scope,
        expires: time + SESSION_LIFE,
    };
    let put = put_session(asked.alloc, row)?;
    let changes = vec![in asked.alloc; Change::Time(time), Change::NextSerial(serial + 1), put]?;
    Ok(Acted {
        answer: Answer::SessionOpened {
            serial,
            word_a,
            word_b,
        },
        changes: Listed::from(changes),
    })
}
