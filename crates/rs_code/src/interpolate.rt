//! The shards that the least held ones give: weights as factors, held shards as sources, and their sums.

ghost use Rattle.std.specs.Prelude.{◌≡◌, ℕ, ◌<◌, ◌≤◌, List, ◌∷◌, length, take, map, slice_index, IsSome, IfOk};
ghost use Rattle.std.specs.Vec.Iter.{into_iter_items};
ghost use Rattle.std.specs.List.{range_with_len};
ghost use Rattle.gf256.specs.Rows.{contents};
ghost use Rattle.rs_code.specs.Shards.{shard_at, held, missing, bytes_of, spread_at};
ghost use Rattle.rs_code.specs.ShardValue.{weights};
ghost use Rattle.rs_code.specs.RowCache.{AllFit};
ghost use Rattle.rs_code.specs.Shape.{AreWeights};

use crate::weighing::WeightMaker;
use crate::{RowCache, Shards};
use disk_base::NoMemory;
use gf256::FactorRow;
use std::alloc::{AllocError, Global};
use std::vec::IntoIter;
use unit_id::Bytes;

/// The least indexes that are held, at most `n`.
pub fn least_held(
    alloc: Global,
    shards: &Shards,
    total: usize,
    n: usize,
) -> Result<Vec<u8>, AllocError>
    requires total { length shards.now ≡ total }
    requires bytes { total ≤ 256 }
    ensures { IfOk result (λ places. places.items ≡ take n (held shards.now)) }
{
    let mut places = Vec::new(alloc);
    for k in 0..total {
        if places.len() < n && shards.holds(k) {
            places.push(k as u8)?;
        }
    }
    Ok(places)
}

/// The bytes of the shards of some places, all of which are held.
pub fn sources_of<'a>(
    alloc: Global,
    shards: &'a Shards,
    places: &[u8],
) -> Result<Vec<&'a [u8]>, AllocError>
    requires { (i : ℕ) → i < length places.now → IsSome (shard_at shards.now (slice_index places.now i)) }
    ensures { IfOk result (λ sources. contents sources.items ≡ bytes_of shards.now places.now) }
{
    let mut sources = Vec::with_capacity(alloc, places.len())?;
    for x in places {
        let Some(bytes) = shards.get(usize::from(*x)) else {
            unreachable!()
        };
        sources.push(bytes)?;
    }
    Ok(sources)
}

/// For each index that isn't held, ascending, its row of weights, as one that is kept or made.
pub fn missing_weights(
    alloc: Global,
    kept: &mut RowCache,
    maker: &mut WeightMaker,
    shards: &Shards,
    total: usize,
    places: &[u8],
) -> Result<Vec<FactorRow>, NoMemory>
    requires total { length shards.now ≡ total }
    requires bytes { total ≤ 256 }
    requires fit { AllFit AreWeights kept.old.entries }
    ensures rows { IfOk result (λ rows. rows.items ≡ map (weights places.now) (missing shards.now)) }
    ensures fit { AllFit AreWeights kept.new.entries }
{
    let mut rows = Vec::new(alloc);
    for k in 0..total {
        if !shards.holds(k) {
            let row = kept.row(maker, places, k as u8)?;
            rows.push(FactorRow::make(alloc, row.as_slice())?)?;
        }
    }
    Ok(rows)
}

/// The next of some outputs.
fn next_of(left: &mut IntoIter<Vec<u8>>) -> Option<Bytes>
    ensures { (first : List ℕ) (more : List (List ℕ)) → map (λ output. output.items) (into_iter_items left.old) ≡ first ∷ more → (result ≡ Some first) × (map (λ output. output.items) (into_iter_items left.new) ≡ more) }
{
    match left.next() {
        Some(output) => Some(Bytes::from_vec(output)),
        None => None,
    }
}

/// At each index that isn't held the next of some outputs, and None where it is held.
pub fn spread(
    alloc: Global,
    shards: &Shards,
    total: usize,
    outputs: Vec<Vec<u8>>,
) -> Result<Vec<Option<Bytes>>, AllocError>
    requires { length shards.now ≡ total }
    ensures { IfOk result (λ rows. (row_of : ℕ → List ℕ) → map (λ output. output.items) outputs.items ≡ map row_of (missing shards.now) → rows.items ≡ map (spread_at shards.now row_of) (range_with_len 0 total)) }
{
    let mut left = outputs.into_iter();
    let mut rows = Vec::with_capacity(alloc, total)?;
    for k in 0..total {
        if shards.holds(k) {
            rows.push(None)?;
        } else {
            rows.push(next_of(&mut left))?;
        }
    }
    Ok(rows)
}
