//! The shards of a blob.

ghost use Rattle.std.specs.Prelude.{ℕ, List, Option, All, ◌≡◌, ◌-◌, ◌<◌, ◌≤◌, ◌++◌, length, take, drop, set, replicate, Some, None, IfOk, IfSome, OnErr, OnOk};
ghost use Rattle.std.specs.List.{concat};
ghost use Rattle.rs_code.specs.Shards.{shard_at, size_of};
ghost use Rattle.rs_code.specs.ShardValue.{rebuilt, filled};
ghost use Rattle.code_mode.specs.declared.mode.Mode.{Mode};
ghost use Rattle.code_mode.specs.Mode.{data_count, total_count};
ghost use Rattle.code_mode.specs.Stripe.{pieces, data_shards, all_shards, shard_of, joined, HoldsData, HoldsEnough, HoldsOwnData};

use crate::mode::Mode;
use disk_base::NoMemory;
use rs_code::{ShardFault, Shards};
use std::alloc::{AllocError, Global};
use unit_id::Bytes;

/// The most bytes that a blob has.
pub const BLOB_LIMIT: u32 = 4_194_304;

/// `size` bytes of the blob from a place on, and zero bytes where it ends before.
fn padded_part(alloc: Global, blob: &[u8], start: usize, size: usize) -> Result<Vec<u8>, AllocError>
    ensures { IfOk result
        (λ bytes. let part = take size (drop start blob.now) in bytes.items ≡ part ++ replicate (size - length part) 0) }
{
    let rest = &blob[start.min(blob.len())..];
    let part = &rest[..size.min(rest.len())];
    let mut bytes = Vec::with_capacity(alloc, size)?;
    bytes.extend_from_slice(part)?;
    bytes.resize(size, 0)?;
    Ok(bytes)
}

/// Adds a shard of the common length at a free index. It fails only where the memory is out, and the
/// shards are then as they were.
pub fn hold(shards: &mut Shards, index: usize, bytes: Bytes) -> Result<(), NoMemory>
    requires within { index < length shards.old }
    requires free { shard_at shards.old index ≡ None }
    requires even { IfSome (size_of shards.old) (λ size. size ≡ length bytes) }
    ensures ok { OnOk result (shards.new ≡ set shards.old index (Some bytes)) }
    ensures err { OnErr result (shards.new ≡ shards.old) }
{
    match shards.add(index, bytes) {
        Ok(()) => Ok(()),
        Err(ShardFault::Memory) => Err(NoMemory),
        Err(_) => unreachable!(),
    }
}

/// The data shards of a blob of at most `BLOB_LIMIT` bytes: the blob, padded with zero bytes to N times
/// the shard size, cut in order into N pieces. The indexes of the parity shards are free.
pub fn cut(alloc: Global, mode: Mode, blob: &[u8]) -> Result<Shards, NoMemory>
    requires { length blob.now ≤ BLOB_LIMIT }
    ensures pieces { IfOk result (λ shards. shards ≡ data_shards mode blob.now) }
    ensures held { IfOk result (HoldsData mode (length blob.now)) }
{
    let size = mode.shard_size(blob.len() as u32) as usize;
    let mut shards = Shards::make(alloc, mode.total() as usize);
    for index in 0..mode.n() as usize {
        let piece = padded_part(alloc, blob, index * size, size)?;
        hold(&mut shards, index, Bytes::from_vec(piece))?;
    }
    Ok(shards)
}

/// The first `size` bytes of the data shards, in order: the blob that they were cut from.
pub fn join(alloc: Global, mode: Mode, size: u32, shards: &Shards) -> Result<Bytes, NoMemory>
    requires within { size ≤ BLOB_LIMIT }
    requires held { HoldsData mode size shards.now }
    ensures bytes { IfOk result (λ bytes. bytes ≡ take size (joined (data_count mode) shards.now)) }
    ensures length { IfOk result (λ bytes. length bytes ≡ size) }
{
    let size = size as usize;
    let mut bytes = Vec::with_capacity(alloc, size)?;
    for index in 0..mode.n() as usize {
        let Some(piece) = shards.get(index) else {
            unreachable!()
        };
        let rest = size - bytes.len();
        bytes.extend_from_slice(&piece[..rest.min(piece.len())])?;
    }
    Ok(Bytes::from_vec(bytes))
}

/// What was cut can be joined, and is the blob again.
pub fn cut_shards_join()
    ensures pieces { (mode : Mode) (blob : List ℕ) → take (length blob) (concat (pieces mode blob)) ≡ blob }
    ensures held { (mode : Mode) (blob : List ℕ) → HoldsData mode (length blob) (data_shards mode blob) }
    ensures joined { (mode : Mode) (blob : List ℕ) → take (length blob) (joined (data_count mode) (data_shards mode blob)) ≡ blob }
{}

/// Any N shards of a blob give each of its shards, and so the blob.
pub fn any_shards_give_the_blob()
    ensures cut { (mode : Mode) (blob : List ℕ) → All (λ b. b < 256) blob → HoldsEnough mode blob (data_shards mode blob) }
    ensures filled { (mode : Mode) (blob : List ℕ) (shards : List (Option (List ℕ))) → All (λ b. b < 256) blob → HoldsEnough mode blob shards
        → filled (data_count mode) shards ≡ all_shards mode blob }
    ensures each { (mode : Mode) (blob : List ℕ) (k : ℕ) → k < total_count mode → shard_at (all_shards mode blob) k ≡ Some (shard_of mode blob k) }
    ensures rebuilt { (mode : Mode) (blob : List ℕ) (shards : List (Option (List ℕ))) (r : ℕ) → All (λ b. b < 256) blob → HoldsEnough mode blob shards
        → r < total_count mode → rebuilt (data_count mode) shards r ≡ shard_of mode blob r }
    ensures held { (mode : Mode) (blob : List ℕ) (shards : List (Option (List ℕ))) → HoldsOwnData mode blob shards → HoldsData mode (length blob) shards }
    ensures joined { (mode : Mode) (blob : List ℕ) (shards : List (Option (List ℕ))) → All (λ b. b < 256) blob → HoldsOwnData mode blob shards
        → take (length blob) (joined (data_count mode) shards) ≡ blob }
{}
