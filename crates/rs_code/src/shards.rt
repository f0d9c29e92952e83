//! Shards at their indexes.

ghost use Rattle.std.specs.Prelude.{◌≡◌, ℕ, ◌≢◌, ◌↔◌, ◌+◌, ◌-◌, ◌<◌, ◌≤◌, ◌++◌, max, length, set, replicate, is_some, None, Some, IsErrOf, IfSome, IsSome, IsTrue, false, IsSomeAnd, OnOk, OnErr};
ghost use Rattle.std.specs.Option.{option_copied};
ghost use Rattle.rs_code.specs.Shards.{shard_at, held_count, size_of, completed_at, AreEven};
ghost use Rattle.rs_code.specs.declared.shards.ShardFault.TheVariants.{Memory};

use std::alloc::{AllocFailed, Global};
use std::marker::Model;
use thiserror::Error;
use unit_id::Bytes;

/// Why a shard was not added.
#[derive(Debug, Drop, Error)]
pub enum ShardFault {
    /// The index is not below the total.
    #[error("the index is out of range")]
    OutOfRange,
    /// The index is held already.
    #[error("the shard is held already")]
    Twice,
    /// A shard of another length is held.
    #[error("a shard of another length is held")]
    Uneven,
    /// The allocator had no memory left.
    #[error("out of memory")]
    Memory,
}

impl<T: Drop> From<AllocFailed<T>> for ShardFault {
    ghost from_gives = { λ _ e. e ≡ Memory };

    fn from(_error: AllocFailed<T>) -> ShardFault {
        ShardFault::Memory
    }
}

/// Byte strings of one length at different indexes below a total.
///
/// Seen as the list of its places, one for each index below the total: the bytes, or None where that
/// shard isn't held.
#[derive(Drop)]
pub struct Shards {
    rows: Vec<Option<Bytes>>,
    total: usize,
}

impl Model for Shards {
    ghost use Rattle.std.specs.Prelude.{ℕ, List, Option, ◌≤◌, length};
    ghost use Rattle.rs_code.specs.Shards.{padded, AreEven};

    ghost Value = { List (Option (List ℕ)) };

    ghost view = { λ shards. padded shards.total shards.rows.items };

    ghost invariant = { λ shards. (length shards.rows.items ≤ shards.total) × AreEven (padded shards.total shards.rows.items) };
}

/// Adds empty places until there are `least`, or memory is out.
fn grow(rows: &mut Vec<Option<Bytes>>, least: usize) -> Result<(), AllocFailed<Option<Bytes>>>
    ensures grown { rows.new.items ≡ rows.old.items ++ replicate (length rows.new.items - length rows.old.items) None }
    ensures no_less { length rows.old.items ≤ length rows.new.items }
    ensures enough { OnOk result (least ≤ length rows.new.items) }
    ensures no_more { length rows.new.items ≤ max (length rows.old.items) least }
{
    for _ in rows.len()..least {
        rows.push(None)?;
    }
    Ok(())
}

/// Moves each shard of `from` to its place in `to`.
fn move_held(from: &mut Vec<Option<Bytes>>, to: &mut Vec<Option<Bytes>>)
    requires { length from.old.items ≤ length to.old.items }
    ensures long { length to.new.items ≡ length to.old.items }
    ensures each { (k : ℕ) → shard_at to.new.items k ≡ completed_at from.old.items to.old.items k }
{
    for k in 0..from.len() {
        if from[k].is_some() {
            to[k] = from[k].take();
        }
    }
}

impl Shards {
    /// No shards, at indexes below `total`. Takes no memory.
    pub fn make(alloc: Global, total: usize) -> Shards
        ensures { result ≡ replicate total None }
    {
        Shards {
            rows: Vec::new(alloc),
            total,
        }
    }

    /// The bytes of the shard of an index, and None where it isn't held.
    pub fn get(&self, index: usize) -> Option<&[u8]>
        ensures value { option_copied result ≡ shard_at self.now index }
        ensures even { AreEven self.now }
    {
        match self.rows.get(index) {
            Some(Some(bytes)) => Some(bytes.as_slice()),
            _ => None,
        }
    }

    /// Whether the shard of an index is held.
    pub(crate) fn holds(&self, index: usize) -> bool
        ensures { result ≡ is_some (shard_at self.now index) }
    {
        self.get(index).is_some()
    }

    /// How many shards are held.
    pub fn count(&self) -> usize
        ensures value { result ≡ held_count self.now }
        ensures even { AreEven self.now }
    {
        self.rows.iter().filter(|row| row.is_some()).count()
    }

    /// Adds a shard at an index. A refusal leaves the shards as they are.
    pub fn add(&mut self, index: usize, bytes: Bytes) -> Result<(), ShardFault>
        ensures ok { OnOk result (self.new ≡ set self.old index (Some bytes)) }
        ensures err { OnErr result (self.new ≡ self.old) }
        ensures even { AreEven self.new }

        ensures out_of_range { IsErrOf result ShardFault.OutOfRange ↔ (length self.old ≤ index) }
        ensures twice { IsErrOf result ShardFault.Twice ↔ ((index < length self.old) × IsSome (shard_at self.old index)) }
        ensures uneven { IsErrOf result ShardFault.Uneven ↔ ((index < length self.old) × (shard_at self.old index ≡ None) × IsSomeAnd (size_of self.old) (λ size. size ≢ length bytes)) }
    {
        if index >= self.total {
            return Err(ShardFault::OutOfRange);
        }
        if self.get(index).is_some() {
            return Err(ShardFault::Twice);
        }
        if !self.fits(bytes.len()) {
            return Err(ShardFault::Uneven);
        }
        grow(&mut self.rows, index + 1)?;
        self.rows[index] = Some(bytes);
        Ok(())
    }

    /// Adds the shard of each index that isn't held, where `rows` has one. Takes no memory.
    pub(crate) fn complete(&mut self, mut rows: Vec<Option<Bytes>>)
        requires long { length rows.items ≡ length self.old }
        requires even { (k : ℕ) → shard_at self.old k ≡ None → IfSome (shard_at rows.items k) (λ bytes. size_of self.old ≡ Some (length bytes)) }
        ensures long { length self.new ≡ length self.old }
        ensures each { (k : ℕ) → shard_at self.new k ≡ completed_at self.old rows.items k }
        ensures even { AreEven self.new }
    {
        move_held(&mut self.rows, &mut rows);
        self.rows = rows;
    }

    /// Whether the held shards, if there are any, are of a length.
    fn fits(&self, length: usize) -> bool
        ensures yes { IsTrue result ↔ IfSome (size_of self.now) (λ size. size ≡ length) }
        ensures no { result ≡ false ↔ IsSomeAnd (size_of self.now) (λ size. size ≢ length) }
    {
        match self.size() {
            Some(size) => size == length,
            None => true,
        }
    }

    /// How long the held shards are, and None where none is held.
    pub(crate) fn size(&self) -> Option<usize>
        ensures value { result ≡ size_of self.now }
        ensures even { AreEven self.now }
    {
        for row in &self.rows {
            if let Some(bytes) = row {
                return Some(bytes.len());
            }
        }
        None
    }
}
