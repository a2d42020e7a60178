ghost use Rattle.std.specs.Prelude.{◌≡◌, ◌≤◌, ◌^◌, ◌-◌};
ghost use Rattle.pol_wire.specs.Faults.{next_count, Rises};

use crate::Failed;
use std::marker::Model;

/// An object's count of faults. It never falls, and stands still at `u64::MAX`. The
/// adapters of the real world keep one, also those of the crates above.
#[derive(Drop)]
pub struct Faults {
    count: u64,
}

impl Model for Faults {
    ghost use Rattle.std.specs.Prelude.{ℕ};

    ghost Value = { ℕ };

    ghost view = { λ f. f.count };
}

impl Faults {
    /// No fault yet.
    pub fn none() -> Self
        ensures { result ≡ 0 }
    {
        Faults { count: 0 }
    }

    /// The count.
    pub fn count(&self) -> u64
        ensures value { result ≡ self.now }
        ensures bounded { result ≤ 2 ^ 64 - 1 }
    {
        self.count
    }

    /// Counts one fault, and gives the answer of the call that had it.
    pub fn fail(&mut self) -> Failed
        ensures counted { self.new ≡ next_count self.old }
        ensures kept { self.old ≤ self.new }
        ensures bounded { self.new ≤ 2 ^ 64 - 1 }
        ensures risen { Rises self.old self.new }
    {
        self.count = self.count.saturating_add(1);
        Failed
    }
}
