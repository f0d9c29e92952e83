//! What memory keeps of the rows of a chunk.

ghost use Rattle.std.specs.Prelude.{◌≡◌, ◌≢◌, ◌≤◌, ◌<◌, ◌+◌, [], ◌++◌, ◌∷◌, List, ℕ, Option, IfOk, OnOk, IsOk, false, None, Some};
ghost use Rattle.std.specs.Prelude.{nat_eq, ◌==◌};
ghost use Rattle.std.specs.List.{IsDistinct, list_any};
ghost use Rattle.std.specs.List.Sorted.{IsStrictlyIncreasing};
ghost use Rattle.std.specs.HashMap.{keys};
ghost use Rattle.chunk_store.specs.Kept.{nothing_kept, row_of, with_kept, kept_after, kept_after_shard, kept_after_mark, kept_after_free, kept_after_fence, released_kept, is_live, is_deleted, Lists, bids_where};

use shard_record::ShardRecord;
use std::alloc::{AllocError, Global};
use std::collections::HashMap;
use std::marker::Model;
use unit_id::Bids;

/// What memory keeps of the row of a blob: of a live one the place of its record and the size of the blob.
#[derive(Clone, Copy)]
pub enum KeptRow {
    Live { place: u64, blob_size: u32 },
    Marked,
    Gone,
}

/// The rows of a chunk without their bytes, by a hash of the blob, with the fence and whether the unit is
/// released. It has spare room for a number of rows.
#[derive(Drop)]
pub struct RowIndex {
    rows: HashMap<u64, KeptRow>,
    fence: Option<u64>,
    is_released: bool,
}

impl Model for RowIndex {
    ghost use Rattle.std.specs.FinMap as map;
    ghost use Rattle.std.specs.HashMap.{spare};
    ghost use Rattle.chunk_store.specs.Kept.{Index, coded_index};

    ghost Value = { Index };

    ghost coded = { coded_index };

    ghost view = { λ index. record {
      kept = record { rows = map.from_entries index.rows.entries; fence = index.fence; is_released = index.is_released };
      spare = spare index.rows;
    } };
}

impl RowIndex {
    /// An index of no rows. Takes no memory.
    pub fn new(alloc: Global) -> RowIndex
        ensures { result.kept ≡ nothing_kept }
    {
        RowIndex {
            rows: HashMap::new(alloc),
            fence: None,
            is_released: false,
        }
    }

    /// What is kept of the row of a blob.
    pub fn row(&self, bid: u64) -> Option<KeptRow>
        ensures { result ≡ row_of self.now.kept bid }
    {
        self.rows.get(&bid).copied()
    }

    /// The lock number of the fence.
    pub fn fence(&self) -> Option<u64>
        ensures { result ≡ self.now.kept.fence }
    {
        self.fence
    }

    /// Whether the unit was released.
    pub fn is_released(&self) -> bool
        ensures { result ≡ self.now.kept.is_released }
    {
        self.is_released
    }

    /// Makes room for so many rows more.
    pub fn reserve(&mut self, rows: usize) -> Result<(), AllocError>
        ensures same { self.new.kept ≡ self.old.kept }
        ensures room { OnOk result (rows ≤ self.new.spare) }
        ensures succeeds { rows ≤ self.old.spare → IsOk result }
        ensures spare { self.old.spare ≤ self.new.spare }
    {
        self.rows.reserve(rows)
    }

    /// Notes a record at its place. Takes no memory.
    pub fn note(&mut self, item: &ShardRecord, place: u64)
        requires { 0 < self.old.spare }
        ensures kept { self.new.kept ≡ kept_after self.old.kept place item.now }
        ensures spare { self.old.spare ≤ self.new.spare + 1 }
    {
        match item {
            ShardRecord::Shard { bid, blob_size, .. } => self.note_shard(*bid, place, *blob_size),
            ShardRecord::Mark { bid, .. } => self.note_mark(*bid),
            ShardRecord::Free { bid, .. } => self.note_free(*bid),
            ShardRecord::Fence { lock, .. } => self.note_fence(*lock),
            ShardRecord::Release { .. } => self.note_release(),
        }
    }

    /// The blobs whose row is live, and those whose row is marked or gone, each in ascending order.
    pub fn listing(&self, alloc: Global) -> Result<(Bids, Bids), AllocError>
        ensures live { IfOk result (λ lists. Lists is_live self.now.kept lists.0) }
        ensures deleted { IfOk result (λ lists. Lists is_deleted self.now.kept lists.1) }
    {
        let (live, deleted) = split_bids(alloc, &self.rows)?;
        Ok((ascending(live), ascending(deleted)))
    }

    // Sets the row of a blob.
    fn set(&mut self, bid: u64, row: KeptRow)
        requires { 0 < self.old.spare }
        ensures kept { self.new.kept ≡ with_kept self.old.kept bid row }
        ensures spare { self.old.spare ≤ self.new.spare + 1 }
    {
        let _ = self.rows.insert(bid, row);
    }

    fn note_shard(&mut self, bid: u64, place: u64, blob_size: u32)
        requires { 0 < self.old.spare }
        ensures kept { self.new.kept ≡ kept_after_shard self.old.kept bid place blob_size (row_of self.old.kept bid) }
        ensures spare { self.old.spare ≤ self.new.spare + 1 }
    {
        match self.row(bid) {
            None => self.set(bid, KeptRow::Live { place, blob_size }),
            Some(_) => {}
        }
    }

    fn note_mark(&mut self, bid: u64)
        requires { 0 < self.old.spare }
        ensures kept { self.new.kept ≡ kept_after_mark self.old.kept bid (row_of self.old.kept bid) }
        ensures spare { self.old.spare ≤ self.new.spare + 1 }
    {
        match self.row(bid) {
            None | Some(KeptRow::Live { .. }) => self.set(bid, KeptRow::Marked),
            Some(KeptRow::Marked) | Some(KeptRow::Gone) => {}
        }
    }

    fn note_free(&mut self, bid: u64)
        requires { 0 < self.old.spare }
        ensures kept { self.new.kept ≡ kept_after_free self.old.kept bid (row_of self.old.kept bid) }
        ensures spare { self.old.spare ≤ self.new.spare + 1 }
    {
        match self.row(bid) {
            Some(KeptRow::Marked) => self.set(bid, KeptRow::Gone),
            None | Some(KeptRow::Live { .. }) | Some(KeptRow::Gone) => {}
        }
    }

    fn note_fence(&mut self, lock: u64)
        ensures kept { self.new.kept ≡ kept_after_fence self.old.kept lock self.old.kept.fence }
        ensures spare { self.old.spare ≤ self.new.spare }
    {
        if self.fence.is_none() {
            self.fence = Some(lock);
        }
    }

    fn note_release(&mut self)
        ensures kept { self.new.kept ≡ released_kept }
        ensures spare { self.old.spare ≤ self.new.spare }
    {
        self.rows.clear();
        self.fence = None;
        self.is_released = true;
    }
}

// The blobs whose row is live, and all others, in the map's order.
fn split_bids(
    alloc: Global,
    rows: &HashMap<u64, KeptRow>,
) -> Result<(Vec<u64>, Vec<u64>), AllocError>
    ensures live { IfOk result (λ lists. lists.0.items ≡ bids_where is_live rows.now.entries) }
    ensures deleted { IfOk result (λ lists. lists.1.items ≡ bids_where is_deleted rows.now.entries) }
    ensures unique { IsDistinct nat_eq (keys rows.now) }
{
    let mut live = Vec::new(alloc);
    let mut deleted = Vec::new(alloc);
    for (bid, row) in rows {
        match row {
            KeptRow::Live { .. } => live.push(*bid)?,
            KeptRow::Marked | KeptRow::Gone => deleted.push(*bid)?,
        }
    }
    Ok((live, deleted))
}

// The same blobs in ascending order.
fn ascending(bids: Vec<u64>) -> Bids
    requires { IsDistinct nat_eq bids.items }
    ensures order { IsStrictlyIncreasing result }
    ensures same { (bid : ℕ) → list_any (λ listed. listed == bid) result ≡ list_any (λ listed. listed == bid) bids.items }
{
    let mut bids = bids;
    bids.sort_unstable();
    Bids::from_vec(bids)
}
