//! Filling and rebuilding.

ghost use Rattle.std.specs.Prelude.{◌≡◌, ◌↔◌, ◌⊎◌, ℕ, ◌+◌, ◌<◌, ◌≤◌, false, [], All, length, take, map, slice_index, unwrap_or, IsSome, IsErrOf, IfOk, OnOk, OnErr};
ghost use Rattle.gf256.specs.Sums.{sums_of};
ghost use Rattle.rs_code.specs.Shape.{shape, is_among, HasLookedUp, HasOnlyMade};
ghost use Rattle.rs_code.specs.Shards.{shard_at, held, held_count, size_of, bytes_of, AreEven};
ghost use Rattle.rs_code.specs.ShardValue.{row_through, rebuilt, filled};
ghost use Rattle.rs_code.specs.declared.coder.CodeFault.TheVariants.{Memory};

use crate::interpolate::{least_held, missing_weights, sources_of, spread};
use crate::row_cache::RowKey;
use crate::weighing::{WeightMaker, weights_of};
use crate::{RowCache, RowMaker, Shards};
use disk_base::NoMemory;
use gf256::{FactorRow, combine};
use std::alloc::{AllocError, AllocFailed, Global};
use std::marker::Model;
use thiserror::Error;
use unit_id::Bytes;

/// Why a coder was not made, or gave no shard.
#[derive(Debug, Drop, Error)]
pub enum CodeFault {
    /// No data shards, no cached rows, or more than 256 shards.
    #[error("there is no code of this shape")]
    BadShape,
    /// Only `have` shards are held.
    #[error("only {have} shards are held")]
    TooFew { have: usize },
    /// The allocator had no memory left.
    #[error("out of memory")]
    Memory,
}

impl From<AllocError> for CodeFault {
    ghost from_gives = { λ _ e. e ≡ Memory };

    fn from(_error: AllocError) -> CodeFault {
        CodeFault::Memory
    }
}

impl From<NoMemory> for CodeFault {
    ghost from_gives = { λ _ e. e ≡ Memory };

    fn from(_error: NoMemory) -> CodeFault {
        CodeFault::Memory
    }
}

impl<T: Drop> From<AllocFailed<T>> for CodeFault {
    ghost from_gives = { λ _ e. e ≡ Memory };

    fn from(_error: AllocFailed<T>) -> CodeFault {
        CodeFault::Memory
    }
}

/// Fills and rebuilds sets of shards of one shape.
///
/// Seen as that shape, how many shards give all others and how many those are, with the rows that it
/// keeps and how many calls made one.
#[derive(Drop)]
pub struct Coder {
    alloc: Global,
    data_shards: usize,
    parity_shards: usize,
    rows: RowCache,
    maker: WeightMaker,
}

impl Model for Coder {
    ghost use Rattle.std.specs.Prelude.{ℕ, ◌+◌, ◌<◌, ◌≤◌};
    ghost use Rattle.rs_code.specs.RowCache.{AllFit};
    ghost use Rattle.rs_code.specs.Shape.{CoderState, AreWeights};

    ghost Value = { CoderState };

    ghost view = { λ coder. record { data_shards = coder.data_shards; parity_shards = coder.parity_shards; rows = coder.rows; made = coder.maker.made } };

    ghost invariant = { λ coder. (0 < coder.data_shards) × (coder.data_shards + coder.parity_shards ≤ 256) × AllFit AreWeights coder.rows.entries };
}

/// For each row of factors the sum of its products with the shards of some places.
fn sums(
    alloc: Global,
    shards: &Shards,
    places: &[u8],
    rows: &[FactorRow],
) -> Result<Vec<Vec<u8>>, AllocError>
    requires held { (i : ℕ) → i < length places.now → IsSome (shard_at shards.now (slice_index places.now i)) }
    requires rows { All (λ row. length row ≡ length places.now) rows.now }
    ensures { IfOk result (λ outputs. map (λ output. output.items) outputs.items ≡ map (λ row. sums_of row (bytes_of shards.now places.now) (unwrap_or (size_of shards.now) 0)) rows.now) }
{
    let sources = sources_of(alloc, shards, places)?;
    combine(alloc, rows, &sources, shards.size().unwrap_or(0))
}

/// The sum of the products of a row of factors and the shards of some places.
fn sum(alloc: Global, shards: &Shards, places: &[u8], row: &Bytes) -> Result<Bytes, AllocError>
    requires held { (i : ℕ) → i < length places.now → IsSome (shard_at shards.now (slice_index places.now i)) }
    requires row { length row.now ≡ length places.now }
    ensures { IfOk result (λ bytes. bytes ≡ sums_of row.now (bytes_of shards.now places.now) (unwrap_or (size_of shards.now) 0)) }
{
    let rows = [FactorRow::make(alloc, row.as_slice())?];
    let mut outputs = sums(alloc, shards, places, &rows)?;
    match outputs.pop() {
        Some(output) => Ok(Bytes::from_vec(output)),
        None => unreachable!(),
    }
}

impl Coder {
    /// A coder of sets of `n + m` shards, of which each `n` give all. At most `cached` rows may be kept
    /// between calls.
    pub fn new(alloc: Global, n: usize, m: usize, cached: usize) -> Result<Coder, CodeFault>
        ensures ok { IfOk result (λ coder. coder ≡ record { data_shards = n; parity_shards = m; rows = record { cached = cached; entries = [] }; made = 0 }) }
        ensures bad_shape { IsErrOf result CodeFault.BadShape ↔ ((n ≡ 0) ⊎ (cached ≡ 0) ⊎ (256 < n + m)) }
        ensures asks_for_no_shards { (have : ℕ) → IsErrOf result (CodeFault.TooFew have) → ⊥ }
    {
        if n == 0 || cached == 0 || n > 256 || m > 256 - n {
            return Err(CodeFault::BadShape);
        }
        Ok(Coder {
            alloc,
            data_shards: n,
            parity_shards: m,
            rows: RowCache::make(alloc, cached)?,
            maker: WeightMaker::new(alloc),
        })
    }

    /// How many rows are kept. Takes no memory.
    pub fn entries(&self) -> usize
        ensures value { result ≡ length self.now.rows.entries }
        ensures within { length self.now.rows.entries ≤ self.now.rows.cached }
    {
        self.rows.len()
    }

    /// How many calls made a row, up to 2^64 - 1. Takes no memory.
    pub fn made(&self) -> u64
        ensures { result ≡ self.now.made }
    {
        self.maker.made
    }

    /// Adds every shard that isn't held, by the least held ones. A refusal leaves the shards as they are.
    pub fn fill(&mut self, shards: &mut Shards) -> Result<(), CodeFault>
        requires total { length shards.old ≡ self.old.data_shards + self.old.parity_shards }
        ensures ok { OnOk result (shards.new ≡ filled self.old.data_shards shards.old) }
        ensures err { OnErr result (shards.new ≡ shards.old) }
        ensures too_few { (have : ℕ) → IsErrOf result (CodeFault.TooFew have) ↔ ((have ≡ held_count shards.old) × (have < self.old.data_shards)) }
        ensures good_shape { IsErrOf result CodeFault.BadShape → ⊥ }
        ensures even { AreEven shards.new }
        ensures shape { shape self.new ≡ shape self.old }
    {
        let have = shards.count();
        if have < self.data_shards {
            return Err(CodeFault::TooFew { have });
        }
        let total = self.data_shards + self.parity_shards;
        let places = least_held(self.alloc, shards, total, self.data_shards)?;
        let rows = missing_weights(
            self.alloc,
            &mut self.rows,
            &mut self.maker,
            shards,
            total,
            &places,
        )?;
        let outputs = sums(self.alloc, shards, &places, &rows)?;
        shards.complete(spread(self.alloc, shards, total, outputs)?);
        Ok(())
    }

    /// The shard of an index, by the least held ones.
    pub fn rebuild(&mut self, shards: &Shards, want: usize) -> Result<Bytes, CodeFault>
        requires total { length shards.now ≡ self.old.data_shards + self.old.parity_shards }
        requires below { want < length shards.now }
        ensures value { IfOk result (λ bytes. bytes ≡ rebuilt self.old.data_shards shards.now want) }
        ensures rows { OnOk result (HasLookedUp (is_among want (take self.old.data_shards (held shards.now))) (take self.old.data_shards (held shards.now)) want self.old self.new) }
        ensures err { OnErr result (HasOnlyMade self.old self.new) }
        ensures refused { (have : ℕ) → IsErrOf result (CodeFault.TooFew have) → self.new ≡ self.old }
        ensures too_few { (have : ℕ) → IsErrOf result (CodeFault.TooFew have) ↔ ((have ≡ held_count shards.now) × (have < self.old.data_shards)) }
        ensures good_shape { IsErrOf result CodeFault.BadShape → ⊥ }
        ensures shape { shape self.new ≡ shape self.old }
    {
        let have = shards.count();
        if have < self.data_shards {
            return Err(CodeFault::TooFew { have });
        }
        let total = self.data_shards + self.parity_shards;
        let places = least_held(self.alloc, shards, total, self.data_shards)?;
        if places.contains(&(want as u8)) {
            let row = weights_of(self.alloc, &places, want as u8)?;
            return Ok(sum(self.alloc, shards, &places, &row)?);
        }
        Ok(self.looked_up(shards, &places, want as u8)?)
    }

    /// The shard of an index by the row that is kept, or else by one that is made and kept from then on.
    fn looked_up(&mut self, shards: &Shards, places: &[u8], want: u8) -> Result<Bytes, NoMemory>
        requires { (i : ℕ) → i < length places.now → IsSome (shard_at shards.now (slice_index places.now i)) }
        ensures value { IfOk result (λ bytes. bytes ≡ row_through shards.now places.now want) }
        ensures rows { OnOk result (HasLookedUp false places.now want self.old self.new) }
        ensures err { OnErr result (HasOnlyMade self.old self.new) }
    {
        let key = RowKey::make(self.alloc, places, want)?;
        if let Some(row) = self.rows.copy_of(&key)? {
            let bytes = sum(self.alloc, shards, places, &row)?;
            self.rows.renew(&key);
            return Ok(bytes);
        }
        let row = self.maker.make(self.alloc, places, want)?;
        let bytes = sum(self.alloc, shards, places, &row)?;
        self.rows.keep(key, row)?;
        Ok(bytes)
    }
}
