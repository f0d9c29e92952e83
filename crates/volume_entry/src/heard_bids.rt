//! Blobs that were heard of.

ghost use Rattle.std.specs.Prelude.{◌≡◌, ◌≤◌, ◌+◌, [], ◌∷◌, length, OnOk, IsOk};
ghost use Rattle.unit_id.specs.Lists.{is_in};
ghost use Rattle.volume_entry.specs.HeardCalls.{Adds};

use indexmap::IndexSet;
use std::alloc::{AllocError, Global};
use std::marker::Model;

/// Blobs, each kept once however often it was heard of.
#[derive(Drop)]
pub struct HeardBids {
    kept: IndexSet<u64>,
}

impl Model for HeardBids {
    ghost use Rattle.volume_entry.specs.KeptTable.{KeptBids};

    ghost Value = { KeptBids };

    ghost use Rattle.indexmap.specs.IndexSet.{spare};

    ghost view = { λ set. record { bids = set.kept.keys; spare = spare set.kept } };
}

impl HeardBids {
    /// No blobs. Takes no memory.
    pub fn none(alloc: Global) -> HeardBids
        ensures { result.bids ≡ [] }
    {
        HeardBids {
            kept: IndexSet::new(alloc),
        }
    }

    /// Whether the blob was heard of.
    pub fn has(&self, bid: u64) -> bool
        ensures { result ≡ is_in bid self.now.bids }
    {
        self.kept.contains(&bid)
    }

    /// The blobs.
    pub fn as_slice(&self) -> &[u64]
        ensures { result.now ≡ self.now.bids }
    {
        self.kept.as_slice()
    }

    /// Makes room for so many blobs more.
    pub fn reserve(&mut self, count: usize) -> Result<(), AllocError>
        ensures same { self.new.bids ≡ self.old.bids }
        ensures room { OnOk result (count ≤ self.new.spare) }
        ensures succeeds { count ≤ self.old.spare → IsOk result }
        ensures keeps { self.old.spare ≤ self.new.spare }
    {
        self.kept.reserve(count)
    }

    /// Adds a blob, for which there is room.
    fn add(&mut self, bid: u64)
        requires { 1 ≤ self.old.spare }
        ensures added { Adds (bid ∷ []) self.old.bids self.new.bids }
        ensures room { self.old.spare ≤ self.new.spare + 1 }
    {
        match self.kept.insert(bid) {
            Ok(_) => {}
            Err(_) => unreachable!(),
        }
    }

    /// Adds blobs, for which there is room.
    pub fn add_all(&mut self, bids: &[u64])
        requires { length bids.now ≤ self.old.spare }
        ensures { Adds bids.now self.old.bids self.new.bids }
    {
        for bid in bids {
            self.add(*bid);
        }
    }

    /// Forgets all blobs.
    pub fn clear(&mut self)
        ensures { self.new.bids ≡ [] }
    {
        self.kept.clear();
    }
}
