ghost use Rattle.std.specs.Prelude.{◌≡◌, ◌≤◌, ◌-◌, ◌^◌, is_err};
ghost use Rattle.pol_wire.specs.Calls.{first_log, is_listed, log_after};
ghost use Rattle.pol_wire.specs.Faults.{CountsFaults, next_count, Rises};

use crate::Failed;
use crate::faults::Faults;
use std::marker::Model;

/// The calls of an object whose faults are planned: a call whose number is listed fails. Calls are
/// numbered from 1, and their count stands still at `u64::MAX`. The forms in memory keep one, also
/// those of the crates above.
#[derive(Drop)]
pub struct Calls {
    failing: Vec<u64>,
    made: u64,
    faults: Faults,
}

impl Model for Calls {
    ghost use Rattle.std.specs.Prelude.{◌≤◌, ◌-◌, ◌^◌};
    ghost use Rattle.pol_wire.specs.Calls.{CallLog};

    ghost Value = { CallLog };

    ghost view = { λ c. record { failing = c.failing.items; made = c.made; faults = c.faults } };

    ghost invariant = { λ c. c.faults ≤ 2 ^ 64 - 1 };
}

impl Calls {
    /// No call was made yet, and those with these numbers are to fail.
    pub fn new(failing: Vec<u64>) -> Self
        ensures { result ≡ first_log failing.items }
    {
        Calls {
            failing,
            made: 0,
            faults: Faults::none(),
        }
    }

    /// The count of faults.
    pub fn faults(&self) -> u64
        ensures { result ≡ self.now.faults }
    {
        self.faults.count()
    }

    /// Begins the next call, which fails at once where its number is listed.
    pub fn begin(&mut self) -> Result<(), Failed>
        ensures listed { is_err result ≡ is_listed self.old }
        ensures after { self.new ≡ log_after self.old (is_err result) }
        ensures count { CountsFaults self.old.faults self.new.faults result }
    {
        self.made = self.made.saturating_add(1);
        if self.failing.contains(&self.made) {
            return Err(self.faults.fail());
        }
        Ok(())
    }

    /// Counts a fault of the call that has begun.
    pub fn fail(&mut self) -> Failed
        ensures after { self.new ≡ record self.old { faults = next_count self.old.faults } }
        ensures kept { self.old.faults ≤ self.new.faults }
        ensures bounded { self.new.faults ≤ 2 ^ 64 - 1 }
        ensures risen { Rises self.old.faults self.new.faults }
    {
        self.faults.fail()
    }
}
