//! What the outside may do wrong, and how a contract says that it did.
#![tactic(auto)]

ghost use Rattle.std.specs.Prelude.{◌≡◌, ℕ, ◌+◌, ◌-◌, ◌^◌, ◌≤◌, min};

use std::marker::Model;

/// A call to the outside (a read, a write, an opening) did not do its work.
///
/// It says no more: a trait that answers it has a count of faults, which rose in that call.
#[derive(Clone, Copy, Debug, PartialEq, Eq)]
pub struct Failed;

/// How many calls to one object of the outside have failed. It never falls, and stands still at its last value, 2^64 - 1.
#[derive(Clone, Copy, Debug, PartialEq, Eq)]
pub struct FaultCount {
    count: u64,
}

impl Model for FaultCount {
    ghost Value = { ℕ };

    ghost view = { λ c. c.count };

    ghost inverse = { λ n. record { count = n } };
}

impl FaultCount {
    ghost use Rattle.causes.specs.Causes.{Rose};

    /// No fault so far.
    pub fn new() -> Self
        ensures { result ≡ 0 }
    {
        FaultCount { count: 0 }
    }

    /// Counts one fault more, up to the last value.
    pub fn raise(&mut self)
        ensures value { self.new ≡ min (self.old + 1) (2 ^ 64 - 1) }
        ensures later { self.old ≤ self.new }
        ensures rose { Rose self.old self.new }
    {
        self.count = self.count.saturating_add(1);
    }

    /// The number of faults so far.
    pub fn get(self) -> u64
        ensures { result ≡ self }
    {
        self.count
    }
}
