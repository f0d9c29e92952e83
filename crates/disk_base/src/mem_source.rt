//! A source in memory.

ghost use Rattle.std.specs.Prelude.{◌≡◌, ◌<◌, ◌==◌, min, length, take, drop, Some, is_err, IfOk, OnErr};
ghost use Rattle.disk_base.specs.Faults.{HasCause, unused, fails_next, after_call, is_quiet, quiet_is_zero};

use crate::{Failed, FaultPlan, Source};
use std::alloc::Global;
use std::marker::Model;

/// A source that hands out the bytes of a vector, and fails at chosen calls.
#[derive(Drop)]
pub struct MemSource {
    bytes: Vec<u8>,
    at: usize,
    plan: FaultPlan,
}

impl Model for MemSource {
    ghost use Rattle.std.specs.Prelude.{drop, length, ◌≤◌};
    ghost use Rattle.disk_base.specs.Streams.{SourceState};

    ghost Value = { SourceState };

    ghost view = { λ source. record { plan = source.plan; left = drop source.at source.bytes.items } };

    ghost invariant = { λ source. source.at ≤ length source.bytes.items };
}

impl MemSource {
    /// A source of these bytes, whose calls of these numbers fail, counted from 1. Takes no memory.
    pub fn new(_alloc: Global, bytes: Vec<u8>, fails: Vec<u64>) -> MemSource
        ensures { result ≡ record { plan = unused fails.items; left = bytes.items } }
    {
        MemSource {
            bytes,
            at: 0,
            plan: FaultPlan::new(fails),
        }
    }
}

impl Source for MemSource {
    ghost seen = { λ source. record { left = Some source.left; faults = source.plan.faults; is_quiet = is_quiet source.plan } };

    ghost quiet_has_no_fault = { λ source quiet. quiet_is_zero source.plan quiet };

    /// Hands out as many bytes as are left and fit. It fails exactly at the chosen calls.
    fn pull(&mut self, out: &mut [u8]) -> Result<usize, Failed>
        requires { 0 < length out.old }
        ensures fails { is_err result ≡ fails_next self.old.plan }
        ensures plan { self.new.plan ≡ after_call (is_err result) self.old.plan }
        ensures count { IfOk result (λ n. n ≡ min (length out.old) (length self.old.left)) }
        ensures bytes { IfOk result (λ n. take n out.new ≡ take n self.old.left) }
        ensures rest { IfOk result (λ n. self.new.left ≡ drop n self.old.left) }
        ensures err { OnErr result (self.new.left ≡ self.old.left) }
        ensures cause { HasCause self.old.plan.faults self.new.plan.faults result }
    {
        if self.plan.count_call(false) {
            return Err(Failed);
        }
        let rest = &self.bytes[self.at..];
        let count = out.len().min(rest.len());
        out[..count].copy_from_slice(&rest[..count]);
        self.at += count;
        Ok(count)
    }
}
