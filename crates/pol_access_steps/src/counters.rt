//! The counters that changes set before they put rows.
ghost use Rattle.std.specs.Prelude.{◌≡◌, IfSome};
ghost use Rattle.std.specs.List.{AllByRecursion};
ghost use Rattle.pol_access_steps.specs.Counters.{counted, is_new_id, is_new_serial, may_follow};
ghost use Rattle.pol_soundness.specs.Base.{rows_after, PutsValid};
ghost use Rattle.pol_state.specs.Applied.{changed};
ghost use Rattle.pol_state.specs.Rows.{Rows};

use pol_content::Change;
use pol_sound_bounds::counters_fit;
use pol_state::State;

/// The greatest time.
const TIME_BOUND: u64 = 1 << 62;

/// The time, the next id and the next serial of a state.
#[derive(Clone, Copy)]
pub struct Counters {
    pub time: u64,
    pub next_id: u64,
    pub next_serial: u64,
}

/// The counters that the changes set before they put a row, and the changes from that one on.
pub fn counters_of<'a>(state: &State, changes: &'a [Change]) -> (Counters, &'a [Change])
    ensures rows { rows_after changes.now state.now.rows
        ≡ rows_after result.1.now (counted state.now.rows result.0) }
    ensures valid { AllByRecursion PutsValid changes.now → AllByRecursion PutsValid result.1.now }
{
    let mut counters = Counters {
        time: state.time(),
        next_id: state.next_id(),
        next_serial: state.next_serial(),
    };
    let mut left = changes;
    while let Some((first, rest)) = left.split_first() {
        let Some(after) = counters_after(counters, first) else {
            return (counters, left);
        };
        counters = after;
        left = rest;
    }
    (counters, left)
}

/// The counters once the change has set one of them, where it does.
fn counters_after(counters: Counters, change: &Change) -> Option<Counters>
    ensures { IfSome result (λ after. (s : Rows) → changed (counted s counters) change.now ≡ counted s after) }
{
    match change {
        Change::Time(time) => Some(Counters {
            time: *time,
            ..counters
        }),
        Change::NextId(next_id) => Some(Counters {
            next_id: *next_id,
            ..counters
        }),
        Change::NextSerial(next_serial) => Some(Counters {
            next_serial: *next_serial,
            ..counters
        }),
        _ => None,
    }
}

/// Whether the counters may follow those of the state.
pub fn may_follow(state: &State, counters: Counters) -> bool
    ensures { result ≡ may_follow state.now.rows counters }
{
    counters.time <= TIME_BOUND
        && state.next_id() <= counters.next_id
        && state.next_serial() <= counters.next_serial
        && counters_fit(counters.next_id, counters.next_serial)
}

/// Whether the id is one of those that the changes give out.
pub fn is_new_id(state: &State, counters: Counters, id: u64) -> bool
    ensures { result ≡ is_new_id state.now.rows counters id }
{
    state.next_id() <= id && id < counters.next_id
}

/// Whether the serial is one of those that the changes give out.
pub fn is_new_serial(state: &State, counters: Counters, serial: u64) -> bool
    ensures { result ≡ is_new_serial state.now.rows counters serial }
{
    state.next_serial() <= serial && serial < counters.next_serial
}
