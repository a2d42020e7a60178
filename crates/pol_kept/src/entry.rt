use pol_machine::Command;

/// A command in a history, with the number of the pass that it came by.
#[derive(Drop)]
pub struct Entry {
    pub number: u64,
    pub command: Command,
}
