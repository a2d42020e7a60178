use crate::ObjectEntry;
use pol_histories::History;
use pol_objects::ObjectState;
use std::snapshot::Snapshot;

/// What a store of objects leaves when it closes: its disk, the state that the actions led to, and, for contracts
/// alone, the state at the opening and the actions that were done since, in their order.
#[derive(Drop)]
pub struct ClosedObjects<D> {
    pub disk: D,
    pub base: Snapshot<ObjectState>,
    pub history: History<ObjectEntry>,
    pub state: ObjectState,
}
