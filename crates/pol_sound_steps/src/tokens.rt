//! New sessions and new storage tokens.
ghost use Rattle.std.specs.Prelude.{◌≡◌};
ghost use Rattle.pol_sound_steps.specs.Steps.{may_open, may_issue, may_issue_of, is_issued};

use pol_access_steps::{Counters, is_new_serial};
use pol_content::TableRow;
use pol_soundness::{fits_table, is_fit, is_session, is_token};
use pol_state::State;
use pol_tokens::{SessionRow, TokenRow};

/// Whether the session has a new serial and names ids that were given out.
pub(crate) fn may_open(state: &State, counters: Counters, row: &SessionRow) -> bool
    ensures { result ≡ may_open state.now.rows counters row.now }
{
    is_new_serial(state, counters, row.serial) && is_session(counters.next_id, row)
}

/// Whether the storage token has a new serial, names ids that were given out, and fits its table, where that is there.
pub(crate) fn may_issue(state: &State, counters: Counters, row: &TokenRow) -> bool
    ensures { result ≡ may_issue state.now.rows counters row.now }
{
    is_issued(state, counters, row) && fits_table(state.content(), row)
}

/// Whether it does so of the table that was put before it.
pub(crate) fn may_issue_of(
    state: &State,
    counters: Counters,
    table: &TableRow,
    row: &TokenRow,
) -> bool
    ensures { result ≡ may_issue_of state.now.rows counters table.now row.now }
{
    is_issued(state, counters, row) && row.table == table.id && is_fit(row, table)
}

fn is_issued(state: &State, counters: Counters, row: &TokenRow) -> bool
    ensures { result ≡ is_issued state.now.rows counters row.now }
{
    is_new_serial(state, counters, row.serial) && is_token(counters.next_id, row)
}
