//! The shards of a blob.

ghost use Rattle.std.specs.Prelude.{ℕ, ◌≡◌, ◌+◌, ◌<◌, ◌≤◌, All, length, take, IfOk, IfSome, OnOk, Some};
ghost use Rattle.rs_code.specs.Shards.{shard_at, held_count};
ghost use Rattle.rs_code.specs.ShardValue.{filled};
ghost use Rattle.code_mode.specs.declared.stripe.TheConstants.{BLOB_LIMIT};
ghost use Rattle.code_mode.specs.Mode.{data_count, total_count, shard_size};
ghost use Rattle.code_mode.specs.Stripe.{all_shards, shard_of, joined};
ghost use Rattle.rs_code.specs.Shape.{shape};
ghost use Rattle.blob_access.specs.Coding.{coder_shape};

use code_mode::{Mode, any_shards_give_the_blob, cut, join};
use disk_base::NoMemory;
use rs_code::{CodeFault, Coder, Shards};
use std::alloc::Global;
use unit_id::Bytes;

/// Adds all shards that aren't held to enough of them.
pub(crate) fn fill(coder: &mut Coder, shards: &mut Shards) -> Result<(), NoMemory>
    requires total { length shards.old ≡ coder.old.data_shards + coder.old.parity_shards }
    requires enough { coder.old.data_shards ≤ held_count shards.old }
    ensures filled { OnOk result (shards.new ≡ filled coder.old.data_shards shards.old) }
    ensures shape { shape coder.new ≡ shape coder.old }
{
    match coder.fill(shards) {
        Ok(()) => Ok(()),
        Err(CodeFault::Memory) => Err(NoMemory),
        Err(CodeFault::BadShape) => unreachable!(),
        Err(CodeFault::TooFew { have: _ }) => unreachable!(),
    }
}

/// All shards of a blob of at most `BLOB_LIMIT` bytes.
pub(crate) fn shards_of(
    alloc: Global,
    mode: Mode,
    coder: &mut Coder,
    blob: &[u8],
) -> Result<Shards, NoMemory>
    requires coder { shape coder.old ≡ coder_shape mode }
    requires size { length blob.now ≤ BLOB_LIMIT }
    ensures all { IfOk result (λ shards. shards ≡ all_shards mode blob.now) }
    ensures bytes { IfOk result (λ _. All (λ b. b < 256) blob.now) }
    ensures shape { shape coder.new ≡ shape coder.old }
{
    any_shards_give_the_blob();
    let mut shards = cut(alloc, mode, blob)?;
    fill(coder, &mut shards)?;
    Ok(shards)
}

/// A copy of one shard of a blob.
pub(crate) fn copy_shard(
    alloc: Global,
    mode: Mode,
    blob: &[u8],
    shards: &Shards,
    index: usize,
) -> Result<Bytes, NoMemory>
    requires all { shards.now ≡ all_shards mode blob.now }
    requires within { index < total_count mode }
    ensures { IfOk result (λ bytes. bytes ≡ shard_of mode blob.now index) }
{
    any_shards_give_the_blob();
    match shards.get(index) {
        Some(held) => Ok(Bytes::from_vec(Vec::from_slice(alloc, held)?)),
        None => unreachable!(),
    }
}

/// The blob of these shards, by which the others are filled in.
pub(crate) fn blob_of(
    alloc: Global,
    mode: Mode,
    coder: &mut Coder,
    size: u32,
    shards: &mut Shards,
) -> Result<Bytes, NoMemory>
    requires coder { shape coder.old ≡ coder_shape mode }
    requires size { size ≤ BLOB_LIMIT }
    requires total { length shards.old ≡ total_count mode }
    requires even { (k : ℕ) → IfSome (shard_at shards.old k) (λ bytes. length bytes ≡ shard_size mode size) }
    requires enough { data_count mode ≤ held_count shards.old }
    ensures blob { IfOk result (λ bytes. bytes ≡ take size (joined (data_count mode) (filled (data_count mode) shards.old))) }
    ensures shape { shape coder.new ≡ shape coder.old }
{
    fill(coder, shards)?;
    join(alloc, mode, size, shards)
}
