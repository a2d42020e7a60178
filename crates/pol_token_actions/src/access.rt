//! What a storage token opens.
ghost use Rattle.pol_rules.specs.Judged.{Acts};
ghost use Rattle.pol_state.specs.Sound.{IsSound};
ghost use Rattle.pol_token_actions.specs.Access.{access};

use pol_commands::Answer;
use pol_locations::Location;
use pol_rules::rules::{Acted, Asked, Undone, unchanged};
use pol_token_rules::access::{opened, token_known};
use pol_tokens::Act;

/// Tells whether the bearer of a storage token may do this at the path.
#[tactic(auto, using(pol_rules::proofs::LeadsLemmas::no_changes))]
pub fn access(asked: &Asked<'_>, path: &Location, act: Act) -> Result<Acted, Undone>
    requires { IsSound asked.now.state.now.rows }
    ensures { Acts asked.now (λ s command. access s command path.now act) result }
{
    let token = token_known(asked)?;
    opened(token, path, act)?;
    Ok(unchanged(asked.alloc, Answer::AccessAllowed))
}
