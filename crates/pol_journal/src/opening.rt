ghost use Rattle.std.specs.Prelude.{◌≡◌};

use pol_disk::Disk;

/// What a journal's disk told when the journal was opened or made.
#[derive(Clone, Copy, PartialEq, Eq)]
pub struct Opening {
    /// Its count of faults.
    pub faults: u64,
    /// The moment of its clock.
    pub moment: u64,
}

impl Opening {
    // What this disk tells now.
    pub(crate) fn of<D: Disk>(disk: &D) -> Self
        ensures { result ≡ record { faults = D.fault_count disk.now; moment = D.clock disk.now } }
    {
        Opening {
            faults: disk.faults(),
            moment: disk.moment(),
        }
    }
}
