//! Marks of blobs that were heard of.

ghost use Rattle.std.specs.Prelude.{◌≡◌, ◌≤◌, [], ◌∷◌, OnOk, OnErr, IsOk};
ghost use Rattle.volume_entry.specs.HeardMemory.{has_mark, MarksTell};

use indexmap::IndexSet;
use std::alloc::{AllocError, Global};
use std::marker::Model;

/// A mark of a blob at the unit of an index and epoch.
#[derive(Clone, Copy, PartialEq, Eq, Hash)]
struct Mark {
    bid: u64,
    index: u8,
    epoch: u32,
}

/// Marks, each kept once however often it was heard of.
#[derive(Drop)]
pub struct HeardMarks {
    kept: IndexSet<Mark>,
}

impl Model for HeardMarks {
    ghost use Rattle.volume_entry.specs.HeardMemory.{KeptMarks};

    ghost Value = { KeptMarks };

    ghost use Rattle.std.specs.Prelude.{map};
    ghost use Rattle.indexmap.specs.IndexSet.{spare};
    ghost use Rattle.volume_entry.specs.MarkKeys.{mark_of};

    ghost view = { λ set. record { marks = map mark_of set.kept.keys; spare = spare set.kept } };
}

impl HeardMarks {
    /// No marks. Takes no memory.
    pub fn none(alloc: Global) -> HeardMarks
        ensures { result.marks ≡ [] }
    {
        HeardMarks {
            kept: IndexSet::new(alloc),
        }
    }

    /// Whether a mark of the blob was heard of the unit of this index and epoch.
    pub fn has(&self, bid: u64, index: u8, epoch: u32) -> bool
        ensures { result ≡ has_mark self.now.marks bid index epoch }
    {
        self.kept.contains(&Mark { bid, index, epoch })
    }

    /// Makes room for one mark more.
    pub fn reserve(&mut self) -> Result<(), AllocError>
        ensures same { self.new.marks ≡ self.old.marks }
        ensures room { OnOk result (1 ≤ self.new.spare) }
        ensures succeeds { 1 ≤ self.old.spare → IsOk result }
    {
        self.kept.reserve(1)
    }

    /// Adds a mark. Where there is room it takes no memory.
    pub fn add(&mut self, bid: u64, index: u8, epoch: u32) -> Result<(), AllocError>
        ensures added { OnOk result (MarksTell self.new.marks (record { bid = bid; index = index; epoch = epoch } ∷ self.old.marks)) }
        ensures same { OnErr result (self.new.marks ≡ self.old.marks) }
        ensures succeeds { 1 ≤ self.old.spare → IsOk result }
    {
        self.kept.insert(Mark { bid, index, epoch })?;
        Ok(())
    }
}
