//! Which calls on an object in memory fail.

ghost use Rattle.std.specs.Prelude.{◌≡◌, ◌+◌, ◌<◌, ◌≤◌, ◌==◌, ◌||◌, false, IfOk};
ghost use Rattle.std.specs.List.{list_any};
ghost use Rattle.disk_base.specs.Faults.{unused, unused_shared, fails_next, after_call, part_of, added};

use std::alloc::{AllocError, Global};
use std::marker::Model;

/// The calls that are to fail, how many were made, and how often one has failed.
#[derive(Drop)]
pub struct FaultPlan {
    fails: Vec<u64>,
    reach: u64,
    made: u64,
    faults: u64,
}

impl Model for FaultPlan {
    ghost use Rattle.disk_base.specs.Faults.{Plan};

    ghost Value = { Plan };

    ghost view = { λ plan. record { fails = plan.fails.items; reach = plan.reach; made = plan.made; faults = plan.faults } };
}

impl FaultPlan {
    /// The plan in which these calls fail, counted from 1. Takes no memory.
    pub fn new(fails: Vec<u64>) -> FaultPlan
        ensures { result ≡ unused fails.items }
    {
        FaultPlan {
            fails,
            reach: u64::MAX,
            made: 0,
            faults: 0,
        }
    }

    /// The plan in which the calls of those numbers below 2^32 fail; the others are for what is handed
    /// out. Takes no memory.
    pub fn shared(fails: Vec<u64>) -> FaultPlan
        ensures { result ≡ unused_shared fails.items }
    {
        FaultPlan {
            fails,
            reach: 0xffff_ffff,
            made: 0,
            faults: 0,
        }
    }

    /// Counts one more call, and says whether it fails: it is one of those that are to fail, or it has
    /// a reason of its own.
    pub fn count_call(&mut self, has_reason: bool) -> bool
        ensures fails { result ≡ (fails_next self.old || has_reason) }
        ensures after { self.new ≡ after_call result self.old }
        ensures never_falls { self.old.faults ≤ self.new.faults }
    {
        let failed = self.fails_next() || has_reason;
        self.made = self.made.saturating_add(1);
        if failed {
            self.faults = self.faults.saturating_add(1);
        }
        failed
    }

    /// Whether the next call is one of those that are to fail.
    pub fn fails_next(&self) -> bool
        ensures { result ≡ fails_next self.now }
    {
        self.made < self.reach && is_next(self.made, &self.fails)
    }

    /// Counts one more call, which is refused for another reason than a fault.
    pub fn count_refusal(&mut self)
        ensures { self.new ≡ after_call false self.old }
    {
        self.made = self.made.saturating_add(1);
    }

    /// Counts the faults of what was taken back.
    pub fn add_faults(&mut self, faults: u64)
        ensures added { self.new ≡ record self.old { faults = added self.old.faults faults } }
        ensures never_falls { self.old.faults ≤ self.new.faults }
    {
        self.faults = self.faults.saturating_add(faults);
    }

    /// How often a call has failed.
    pub fn faults(&self) -> u64
        ensures { result ≡ self.now.faults }
    {
        self.faults
    }

    /// The numbers of this part, as they count there.
    pub fn part(&self, alloc: Global, size: u64, part: u64) -> Result<Vec<u64>, AllocError>
        requires { 0 < size }
        ensures { IfOk result (λ fails. fails.items ≡ part_of size part self.now.fails) }
    {
        self.fails
            .iter()
            .copied()
            .filter(|call| *call / size == part)
            .map(|call| call % size)
            .collect(alloc)
    }
}

// Whether the call after so many is one of these.
fn is_next(made: u64, calls: &[u64]) -> bool
    ensures { result ≡ list_any (λ call. call == (made + 1)) calls.now }
{
    calls.iter().any(|call| *call > made && *call - made == 1)
}
