//! The history of a volume.

ghost use Rattle.std.specs.Prelude.{◌≡◌, ◌≤◌, [], length, OnOk, IsOk};
ghost use Rattle.volume_world.specs.History.{IsNoted};
ghost use Rattle.volume_world.specs.declared.trace.Trace as traces;

use crate::{Trace, TraceEvent, TraceReply};
use disk_base::NoMemory;
use std::alloc::Global;
use std::marker::Model;

/// The entries of a volume's history, in order. It is seen as their list, and as the number of entries for which it has
/// room besides.
#[derive(Drop)]
pub(crate) struct History {
    kept: Vec<Trace>,
}

impl Model for History {
    ghost use Rattle.volume_world.specs.History.{KeptHistory};
    ghost use Rattle.std.specs.Prelude.{◌-◌};
    ghost use Rattle.std.specs.Vec.{vec_len, vec_capacity};

    ghost Value = { KeptHistory };

    ghost view = { λ history. record { entries = history.kept.items; spare = vec_capacity history.kept - vec_len history.kept } };
}

impl History {
    /// No entries. Takes no memory.
    pub(crate) fn none(alloc: Global) -> History
        ensures { result.entries ≡ [] }
    {
        History {
            kept: Vec::new(alloc),
        }
    }

    /// How many entries there are.
    pub(crate) fn len(&self) -> usize
        ensures { result ≡ length self.now.entries }
    {
        self.kept.len()
    }

    /// The entries.
    pub(crate) fn as_slice(&self) -> &[Trace]
        ensures { result.now ≡ self.now.entries }
    {
        self.kept.as_slice()
    }

    /// The entries, on their own.
    pub(crate) fn into_entries(self) -> Vec<Trace>
        ensures { result.items ≡ self.entries }
    {
        self.kept
    }

    /// Makes room for so many entries more. Where there is room already it takes no memory.
    pub(crate) fn reserve(&mut self, count: usize) -> Result<(), NoMemory>
        ensures same { self.new.entries ≡ self.old.entries }
        ensures kept { self.old.spare ≤ self.new.spare }
        ensures room { OnOk result (count ≤ self.new.spare) }
        ensures succeeds { count ≤ self.old.spare → IsOk result }
    {
        if self.kept.capacity() - self.kept.len() >= count {
            return Ok(());
        }
        self.kept.reserve(count)?;
        Ok(())
    }

    /// Adds an entry at the end, for which there is room. Takes no memory.
    pub(crate) fn note(&mut self, event: TraceEvent, reply: TraceReply)
        requires { 1 ≤ self.old.spare }
        ensures { IsNoted (record { event = event; reply = reply }) self.old self.new }
    {
        let done = self.kept.push(Trace { event, reply });
        if done.is_err() {
            unreachable!();
        }
    }
}
