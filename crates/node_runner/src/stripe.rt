//! The shards of an object: made of its bytes, and read to them again.

ghost use Rattle.std.specs.Prelude.{◌≡◌, ◌+◌, ◌<◌, ◌≤◌, length, set, IfOk, IfSome, OnOk, Some, None};
ghost use Rattle.rs_code.specs.Shape.{shape};
ghost use Rattle.rs_code.specs.Shards.{shard_at, held_count, size_of};
ghost use Rattle.rs_code.specs.ShardValue.{rebuilt, filled};
ghost use Rattle.code_mode.specs.Mode.{data_count, parity_count};
ghost use Rattle.code_mode.specs.Stripe.{shard_of};
ghost use Rattle.node_runner.specs.Session.{largest_object};
ghost use Rattle.node_runner.specs.Stripes.{shape_of, blob_in, IsStripe};

use code_mode::{Mode, any_shards_give_the_blob, cut, hold, join};
use disk_base::NoMemory;
use rs_code::{CodeFault, Coder, Shards};
use std::alloc::Global;
use unit_id::Bytes;

/// How many rows a coder may keep between calls.
const CACHED_ROWS: usize = 16;

/// A coder of a mode.
pub fn coder_of(alloc: Global, mode: Mode) -> Result<Coder, NoMemory>
    ensures { IfOk result (λ coder. shape coder ≡ shape_of mode) }
{
    match Coder::new(alloc, mode.n() as usize, mode.m() as usize, CACHED_ROWS) {
        Ok(coder) => Ok(coder),
        Err(CodeFault::BadShape) => unreachable!(),
        Err(_) => Err(NoMemory),
    }
}

/// Adds all shards that aren't held to enough of them.
fn fill(coder: &mut Coder, shards: &mut Shards) -> Result<(), NoMemory>
    requires total { length shards.old ≡ coder.old.data_shards + coder.old.parity_shards }
    requires enough { coder.old.data_shards ≤ held_count shards.old }
    ensures filled { OnOk result (shards.new ≡ filled coder.old.data_shards shards.old) }
    ensures shape { shape coder.new ≡ shape coder.old }
{
    match coder.fill(shards) {
        Ok(()) => Ok(()),
        Err(CodeFault::Memory) => Err(NoMemory),
        Err(CodeFault::BadShape) => unreachable!(),
        Err(CodeFault::TooFew { have: _ }) => unreachable!(),
    }
}

/// The shard of an index, by enough of them.
fn rebuild(coder: &mut Coder, shards: &Shards, index: usize) -> Result<Bytes, NoMemory>
    requires total { length shards.now ≡ coder.old.data_shards + coder.old.parity_shards }
    requires within { index < length shards.now }
    requires enough { coder.old.data_shards ≤ held_count shards.now }
    ensures rebuilt { IfOk result (λ bytes. bytes ≡ rebuilt coder.old.data_shards shards.now index) }
    ensures shape { shape coder.new ≡ shape coder.old }
{
    match coder.rebuild(shards, index) {
        Ok(bytes) => Ok(bytes),
        Err(CodeFault::Memory) => Err(NoMemory),
        Err(CodeFault::BadShape) => unreachable!(),
        Err(CodeFault::TooFew { have: _ }) => unreachable!(),
    }
}

/// All shards of a blob: it is cut, and the coder adds the parity shards.
pub fn shards_of(
    alloc: Global,
    mode: Mode,
    coder: &mut Coder,
    blob: &[u8],
) -> Result<Shards, NoMemory>
    requires coder { shape coder.old ≡ shape_of mode }
    requires size { length blob.now ≤ largest_object }
    ensures stripe { IfOk result (IsStripe mode (length blob.now)) }
    ensures blob { IfOk result (λ shards. blob_in mode (length blob.now) shards ≡ blob.now) }
    ensures shape { shape coder.new ≡ shape coder.old }
{
    any_shards_give_the_blob();
    let mut shards = cut(alloc, mode, blob)?;
    fill(coder, &mut shards)?;
    Ok(shards)
}

/// A data shard of a blob: copied where it is held, else rebuilt by those that are.
fn data_shard(
    alloc: Global,
    mode: Mode,
    coder: &mut Coder,
    size: u32,
    shards: &Shards,
    index: usize,
) -> Result<Bytes, NoMemory>
    requires coder { shape coder.old ≡ shape_of mode }
    requires stripe { IsStripe mode size shards.now }
    requires within { index < data_count mode }
    ensures shard { IfOk result (λ bytes. bytes ≡ shard_of mode (blob_in mode size shards.now) index) }
    ensures shape { shape coder.new ≡ shape coder.old }
{
    any_shards_give_the_blob();
    match shards.get(index) {
        Some(held) => Ok(Bytes::from_vec(Vec::from_slice(alloc, held)?)),
        None => rebuild(coder, shards, index),
    }
}

/// The blob of all its shards: the data shards that are held are copied, and only the others rebuilt.
pub fn blob_of(
    alloc: Global,
    mode: Mode,
    coder: &mut Coder,
    size: u32,
    shards: &Shards,
) -> Result<Bytes, NoMemory>
    requires coder { shape coder.old ≡ shape_of mode }
    requires stripe { IsStripe mode size shards.now }
    ensures blob { IfOk result (λ bytes. bytes ≡ blob_in mode size shards.now) }
    ensures shape { shape coder.new ≡ shape coder.old }
{
    any_shards_give_the_blob();
    let mut found = Shards::make(alloc, mode.total() as usize);
    'pieces: for index in 0..mode.n() as usize {
        let piece = data_shard(alloc, mode, coder, size, shards, index)?;
        hold(&mut found, index, piece)?;
    }
    join(alloc, mode, size, &found)
}
