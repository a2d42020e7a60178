use crate::Entry;
use pol_histories::History;
use pol_machine::State;
use std::snapshot::Snapshot;

/// What a catalogue leaves when it closes: its disk, the state that the commands led to, and, for contracts alone, the
/// state at the opening and the commands that were done since, in their order.
#[derive(Drop)]
pub struct Closed<D> {
    pub disk: D,
    pub base: Snapshot<State>,
    pub history: History<Entry>,
    pub state: State,
}
