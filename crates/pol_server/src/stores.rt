use pol_disk::Disk;
use pol_shared_objects::{Objects, Shared};

/// The catalogue and the objects that requests are answered from, each as one pass of it sees it.
#[derive(Drop)]
pub struct Stores<D: Disk, O: Disk> {
    pub catalogue: Shared<D>,
    pub objects: Objects<O>,
}
