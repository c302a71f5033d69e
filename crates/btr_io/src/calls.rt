//! The calls of a source or a sink in memory: how many were made, and which of them fail.
ghost use Rattle.std.specs.Prelude.{◌≡◌, ◌+◌, ◌-◌, ◌^◌, ◌≤◌, ◌↔◌, min, Contains, IsErr, OnOk, OnErr};
ghost use Rattle.btr_io.specs.Faults.{HasCause};

use crate::Failed;
use std::marker::Model;

/// The numbers of the calls that fail, the number of calls made, and of those that failed.
#[derive(Drop)]
pub struct Calls {
    failing: Vec<u64>,
    made: u64,
    faults: u64,
}

impl Model for Calls {
    ghost use Rattle.btr_io.specs.Memory.{CallRecord};

    ghost Value = { CallRecord };

    ghost view = { λ c. record { failing = c.failing.items; made = c.made; faults = c.faults } };
}

impl Calls {
    /// No call was made yet. The calls with these numbers will fail, counted from 0.
    pub fn new(failing: Vec<u64>) -> Calls
        ensures failing { result.failing ≡ failing.items }
        ensures made { result.made ≡ 0 }
        ensures faults { result.faults ≡ 0 }
    {
        Calls {
            failing,
            made: 0,
            faults: 0,
        }
    }

    /// Begins the next call, which fails exactly if its number is in the list.
    pub fn begin(&mut self) -> Result<(), Failed>
        ensures fails { IsErr result ↔ Contains self.old.failing self.old.made }
        ensures failing { self.new.failing ≡ self.old.failing }
        ensures made { self.new.made ≡ min (self.old.made + 1) (2 ^ 64 - 1) }
        ensures passed { OnOk result (self.new.faults ≡ self.old.faults) }
        ensures counted { OnErr result (self.new.faults ≡ min (self.old.faults + 1) (2 ^ 64 - 1)) }
        ensures cause { HasCause self.old.faults self.new.faults result }
    {
        let failed = self.failing.contains(&self.made);
        self.made = self.made.saturating_add(1);
        if failed { Err(self.fail()) } else { Ok(()) }
    }

    /// Counts a fault.
    pub fn fail(&mut self) -> Failed
        ensures failing { self.new.failing ≡ self.old.failing }
        ensures made { self.new.made ≡ self.old.made }
        ensures counted { self.new.faults ≡ min (self.old.faults + 1) (2 ^ 64 - 1) }
        ensures never_falls { self.old.faults ≤ self.new.faults }
    {
        self.faults = self.faults.saturating_add(1);
        Failed
    }
}
