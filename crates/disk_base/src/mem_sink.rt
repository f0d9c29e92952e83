//! A sink in memory.

ghost use Rattle.std.specs.Prelude.{◌≡◌, ◌+◌, ◌<◌, ◌++◌, ◌||◌, [], nat_lt, length, Some, true, false, is_err, IfOk, OnOk, OnErr};
ghost use Rattle.disk_base.specs.Faults.{HasCause, unused, fails_next, after_call};

use crate::{Failed, FaultPlan, NoMemory, Sink};
use std::alloc::Global;
use std::marker::Model;

/// A sink that keeps what is pushed, has room for so many bytes, and fails at chosen calls.
#[derive(Drop)]
pub struct MemSink {
    bytes: Vec<u8>,
    room: usize,
    plan: FaultPlan,
    is_handed_on: bool,
}

impl Model for MemSink {
    ghost use Rattle.std.specs.Prelude.{◌≤◌, vec_len, vec_capacity};
    ghost use Rattle.disk_base.specs.Streams.{SinkState};

    ghost Value = { SinkState };

    ghost view = { λ sink. record { plan = sink.plan; room = sink.room; held = sink.bytes.items; is_handed_on = sink.is_handed_on } };

    ghost invariant = { λ sink. (vec_len sink.bytes ≤ sink.room) × (sink.room ≤ vec_capacity sink.bytes) };
}

impl MemSink {
    /// A sink with room for so many bytes, whose calls of these numbers fail, counted from 1; a
    /// `finish` is counted too. The room is taken at once, so no later call takes memory.
    pub fn new(alloc: Global, room: usize, fails: Vec<u64>) -> Result<MemSink, NoMemory>
        ensures { IfOk result (λ sink. sink ≡ record { plan = unused fails.items; room = room; held = []; is_handed_on = true }) }
    {
        Ok(MemSink {
            bytes: Vec::with_capacity(alloc, room)?,
            room,
            plan: FaultPlan::new(fails),
            is_handed_on: true,
        })
    }

    /// What was pushed. Takes no memory.
    pub fn as_slice(&self) -> &[u8]
        ensures { result.now ≡ self.now.held }
    {
        &self.bytes
    }
}

impl Sink for MemSink {
    ghost seen = { λ sink. record { held = Some sink.held; faults = sink.plan.faults; is_handed_on = sink.is_handed_on } };

    /// Takes all the bytes. It fails exactly at the chosen calls and where the bytes pass the room.
    fn push(&mut self, bytes: &[u8]) -> Result<usize, Failed>
        requires { 0 < length bytes.now }
        ensures fails { is_err result ≡ (fails_next self.old.plan || nat_lt self.old.room (length self.old.held + length bytes.now)) }
        ensures plan { self.new.plan ≡ after_call (is_err result) self.old.plan }
        ensures room { self.new.room ≡ self.old.room }
        ensures count { IfOk result (λ n. n ≡ length bytes.now) }
        ensures pushed { OnOk result (self.new.held ≡ self.old.held ++ bytes.now) }
        ensures waits { OnOk result (self.new.is_handed_on ≡ false) }
        ensures err { OnErr result ((self.new.held ≡ self.old.held) × (self.new.is_handed_on ≡ self.old.is_handed_on)) }
        ensures cause { HasCause self.old.plan.faults self.new.plan.faults result }
    {
        let room_left = self.room - self.bytes.len();
        if self.plan.count_call(room_left < bytes.len()) {
            return Err(Failed);
        }
        if self.bytes.extend_from_slice(bytes).is_err() {
            return Err(Failed);
        }
        self.is_handed_on = false;
        Ok(bytes.len())
    }

    /// Fails exactly at the chosen calls.
    fn finish(&mut self) -> Result<(), Failed>
        ensures fails { is_err result ≡ fails_next self.old.plan }
        ensures plan { self.new.plan ≡ after_call (is_err result) self.old.plan }
        ensures room { self.new.room ≡ self.old.room }
        ensures held { self.new.held ≡ self.old.held }
        ensures handed_on { OnOk result (self.new.is_handed_on ≡ true) }
        ensures err { OnErr result (self.new.is_handed_on ≡ self.old.is_handed_on) }
        ensures cause { HasCause self.old.plan.faults self.new.plan.faults result }
    {
        if self.plan.count_call(false) {
            return Err(Failed);
        }
        self.is_handed_on = true;
        Ok(())
    }
}
