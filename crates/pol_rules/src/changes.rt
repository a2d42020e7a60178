//! The changes that actions make.
ghost use Rattle.std.specs.Prelude.{◌≡◌, ◌+◌, ◌≤◌, ◌^◌, [], ◌∷◌, IfOk};
ghost use Rattle.pol_content.specs.declared.change.Change.TheVariants.{NextId, Time};
ghost use Rattle.pol_rules.specs.Rules.{time_of};

use crate::rules::{Asked, time_of};
use pol_content::Change;
use pol_types::{Listed, OutOfMemory};
use std::alloc::Global;

/// No changes.
pub fn no_changes(alloc: Global) -> Listed<Change>
    ensures { result ≡ [] }
{
    Listed::from(Vec::new(alloc))
}

/// One change, at the command's time.
pub fn one_change(asked: &Asked<'_>, change: Change) -> Result<Listed<Change>, OutOfMemory>
    ensures { IfOk result (λ changes. changes
        ≡ Time (time_of asked.now.state.now.rows asked.now.command.now) ∷ change ∷ []) }
{
    Ok(Listed::from(vec![in asked.alloc; Change::Time(time_of(asked)), change]?))
}

/// The put of a row that takes the next id.
pub fn under_next_id(asked: &Asked<'_>, put: Change) -> Result<Listed<Change>, OutOfMemory>
    requires { asked.now.state.now.rows.next_id ≤ 2 ^ 62 }
    ensures { let s = asked.now.state.now.rows in
        IfOk result (λ changes. changes
        ≡ Time (time_of s asked.now.command.now) ∷ NextId (s.next_id + 1) ∷ put ∷ []) }
{
    Ok(Listed::from(vec![in asked.alloc;
        Change::Time(time_of(asked)),
        Change::NextId(asked.state.next_id() + 1),
        put,
    ]?))
}
