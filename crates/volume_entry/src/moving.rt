//! What was heard of a unit that a lock moves.

ghost use Rattle.std.specs.Prelude.{◌≡◌, ◌≤◌, [], true, length, OnOk, OnErr, IsOk};
ghost use Rattle.volume_entry.specs.HeardCalls.{TakesRows, LosesRows, IsFresh};
ghost use Rattle.volume_entry.specs.HeardMemory.{HasRowRoom};

use crate::heard_bids::HeardBids;
use std::alloc::{AllocError, Global};
use std::marker::Model;

/// A unit that a lock moves: the blobs whose rows were heard at its destination, live and marked, and whether its old
/// unit was heard to be fenced, and to be released.
#[derive(Drop)]
pub struct Moving {
    pub index: u8,
    pub live: HeardBids,
    pub marked: HeardBids,
    pub is_fenced: bool,
    pub is_released: bool,
}

impl Model for Moving {
    ghost use Rattle.volume_entry.specs.HeardMemory.{HeardMove};

    ghost Value = { HeardMove };

    ghost view = { λ m. record {
      index = m.index;
      live = m.live;
      marked = m.marked;
      is_fenced = m.is_fenced;
      is_released = m.is_released;
    } };
}

impl Moving {
    /// A move of which nothing was heard. Takes no memory.
    pub fn of(alloc: Global, index: u8) -> Moving
        ensures { IsFresh index result }
    {
        Moving {
            index,
            live: HeardBids::none(alloc),
            marked: HeardBids::none(alloc),
            is_fenced: false,
            is_released: false,
        }
    }

    /// Makes room for one live and one marked row.
    pub fn reserve(&mut self) -> Result<(), AllocError>
        ensures same { TakesRows [] [] self.old self.new }
        ensures room { OnOk result (HasRowRoom self.new) }
    {
        self.live.reserve(1)?;
        self.marked.reserve(1)
    }

    /// Notes rows of these blobs. Where there is room it takes no memory.
    pub fn take(&mut self, live: &[u64], marked: &[u64]) -> Result<(), AllocError>
        ensures taken { OnOk result (TakesRows live.now marked.now self.old self.new) }
        ensures same { OnErr result (TakesRows [] [] self.old self.new) }
        ensures succeeds { HasRowRoom self.old → length live.now ≤ 1 → length marked.now ≤ 1 → IsOk result }
    {
        self.live.reserve(live.len())?;
        self.marked.reserve(marked.len())?;
        self.live.add_all(live);
        self.marked.add_all(marked);
        Ok(())
    }

    /// Forgets the rows.
    pub fn lose_rows(&mut self)
        ensures { LosesRows self.old self.new }
    {
        self.live.clear();
        self.marked.clear();
    }

    /// Notes that the old unit is fenced.
    pub fn fence(&mut self)
        ensures { self.new ≡ record self.old { is_fenced = true } }
    {
        self.is_fenced = true;
    }

    /// Notes that the old unit is released.
    pub fn release(&mut self)
        ensures { self.new ≡ record self.old { is_released = true } }
    {
        self.is_released = true;
    }
}
