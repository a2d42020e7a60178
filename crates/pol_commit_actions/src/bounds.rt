//! The bounds of tables after their commits.
ghost use Rattle.std.specs.Bool.{⊤};
ghost use Rattle.pol_rules.specs.Judged.{Sees};
ghost use Rattle.pol_commit_actions.specs.Rules.{any_over_limit};
ghost use Rattle.pol_commit_actions.specs.Seen.{committed_tables};

use crate::target::Committed;
use pol_bounds::table_within;
use pol_commands::Refusal;

/// No table is above a bound. The first such is told.
#[tactic(auto, unfolding(crate::specs::Rules::any_over_limit))]
pub(crate) fn all_within(tables: &[Committed<'_>]) -> Result<(), Refusal>
    ensures { Sees (any_over_limit (committed_tables tables.now)) (λ _. ⊤) result }
{
    for table in tables {
        table_within(&table.after)?;
    }
    Ok(())
}
