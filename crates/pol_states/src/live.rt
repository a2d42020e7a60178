//! The puts of the sessions and of the storage tokens that are live.
ghost use Rattle.std.specs.Prelude.{◌≡◌, ◌++◌, [], ◌∷◌, filter, map, OnOk};
ghost use Rattle.pol_content.specs.declared.change.Change.TheVariants.{PutSession, PutToken};
ghost use Rattle.pol_rules.specs.Live.{is_live, is_unexpired, live_tokens};

use crate::put::Put;
use pol_content::Change;
use pol_state::State;
use pol_tables::Rows;
use pol_tokens::{SessionRow, TokenRow};
use pol_types::OutOfMemory;
use std::alloc::Global;

/// Pushes the puts of the live sessions, and then of the live storage tokens, each in their order.
pub(crate) fn push_live(
    alloc: Global,
    state: &State,
    changes: &mut Vec<Change>,
) -> Result<(), OutOfMemory>
    ensures { let live = live_tokens state.now.rows in
        OnOk result (changes.new.items
        ≡ (changes.old.items ++ map PutSession live.sessions) ++ map PutToken live.tokens) }
{
    push_sessions(alloc, state, state.tokens().sessions(), changes)?;
    push_tokens(alloc, state, state.tokens().tokens(), changes)
}

/// Pushes the puts of those of the sessions that are live.
fn push_sessions(
    alloc: Global,
    state: &State,
    rows: Rows<'_, SessionRow>,
    changes: &mut Vec<Change>,
) -> Result<(), OutOfMemory>
    ensures { OnOk result (changes.new.items
        ≡ changes.old.items ++ map PutSession (filter (is_live state.now.rows) rows.entry)) }
{
    for row in rows {
        push_session(alloc, state, row, changes)?;
    }
    Ok(())
}

/// Pushes the put of the session where it is live.
fn push_session(
    alloc: Global,
    state: &State,
    row: &SessionRow,
    changes: &mut Vec<Change>,
) -> Result<(), OutOfMemory>
    ensures { OnOk result (changes.new.items
        ≡ changes.old.items ++ map PutSession (filter (is_live state.now.rows) (row.now ∷ []))) }
{
    if is_live(state, row) {
        changes.push(row.put(alloc)?)?;
    }
    Ok(())
}

/// Whether the session is live: the state's time hasn't reached its expiry, and its principal is there.
#[tactic(auto, using(crate::proofs::LiveLemmas::known_row))]
fn is_live(state: &State, row: &SessionRow) -> bool
    ensures { result ≡ is_live state.now.rows row.now }
{
    state.time() < row.expires && state.access().principal(row.principal).is_some()
}

/// Pushes the puts of those of the storage tokens that are live.
fn push_tokens(
    alloc: Global,
    state: &State,
    rows: Rows<'_, TokenRow>,
    changes: &mut Vec<Change>,
) -> Result<(), OutOfMemory>
    ensures { OnOk result (changes.new.items
        ≡ changes.old.items ++ map PutToken (filter (is_unexpired state.now.rows) rows.entry)) }
{
    for row in rows {
        push_token(alloc, state, row, changes)?;
    }
    Ok(())
}

/// Pushes the put of the storage token where it is live.
fn push_token(
    alloc: Global,
    state: &State,
    row: &TokenRow,
    changes: &mut Vec<Change>,
) -> Result<(), OutOfMemory>
    ensures { OnOk result (changes.new.items
        ≡ changes.old.items ++ map PutToken (filter (is_unexpired state.now.rows) (row.now ∷ []))) }
{
    if is_unexpired(state, row) {
        changes.push(row.put(alloc)?)?;
    }
    Ok(())
}

/// Whether the storage token is live: the state's time hasn't reached its expiry.
fn is_unexpired(state: &State, row: &TokenRow) -> bool
    ensures { result ≡ is_unexpired state.now.rows row.now }
{
    state.time() < row.expires
}
