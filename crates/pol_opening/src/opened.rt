use pol_disk::Disk;
use pol_journal::Journal;
use pol_state::State;

/// A journal of which all records were read, and the state that they lead to.
#[derive(Drop)]
pub struct Opened<D: Disk> {
    pub journal: Journal<D>,
    pub state: State,
}
