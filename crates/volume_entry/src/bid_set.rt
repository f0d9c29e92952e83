//! Sets of blobs.

ghost use Rattle.std.specs.Prelude.{◌≡◌, ◌≤◌, [], ◌∷◌, false, OnOk, OnErr, IsOk};
ghost use Rattle.unit_id.specs.Lists.{is_in};

use indexmap::IndexSet;
use std::alloc::{AllocError, Global};
use std::marker::Model;

/// A set of blobs, in the order in which they were added. It is seen as their list, the latest first, and as the number of
/// blobs for which it has room besides.
#[derive(Drop)]
pub struct BidSet {
    kept: IndexSet<u64>,
}

impl Model for BidSet {
    ghost use Rattle.volume_entry.specs.KeptTable.{KeptBids};

    ghost Value = { KeptBids };

    ghost use Rattle.std.specs.Prelude.{reverse};
    ghost use Rattle.indexmap.specs.IndexSet.{spare};

    ghost view = { λ set. record { bids = reverse set.kept.keys; spare = spare set.kept } };
}

impl BidSet {
    /// No blobs. Takes no memory.
    pub fn none(alloc: Global) -> BidSet
        ensures { result.bids ≡ [] }
    {
        BidSet {
            kept: IndexSet::new(alloc),
        }
    }

    /// Whether the blob is in the set.
    pub fn has(&self, bid: u64) -> bool
        ensures { result ≡ is_in bid self.now.bids }
    {
        self.kept.contains(&bid)
    }

    /// Makes room for one blob more.
    pub fn reserve(&mut self) -> Result<(), AllocError>
        ensures same { self.new.bids ≡ self.old.bids }
        ensures room { OnOk result (1 ≤ self.new.spare) }
    {
        self.kept.reserve(1)
    }

    /// Adds a blob that isn't in the set. Where there is room it takes no memory.
    pub fn add(&mut self, bid: u64) -> Result<(), AllocError>
        requires { is_in bid self.old.bids ≡ false }
        ensures added { OnOk result (self.new.bids ≡ bid ∷ self.old.bids) }
        ensures same { OnErr result (self.new.bids ≡ self.old.bids) }
        ensures succeeds { 1 ≤ self.old.spare → IsOk result }
    {
        self.kept.insert(bid)?;
        Ok(())
    }
}
