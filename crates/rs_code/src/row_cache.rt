//! Rows of factors that are kept between calls.

ghost use Rattle.std.specs.Prelude.{◌≡◌, ◌↔◌, ℕ, ◌<◌, ◌≤◌, List, [], length, None, option_map, IfOk, IfSome, OnOk, OnErr};
ghost use Rattle.rs_code.specs.RowCache.{found, renewed, with_row, AllFit, HasRisen, IsRowOf};

use disk_base::NoMemory;
use lru::LruCache;
use std::alloc::{AllocError, Global};
use std::marker::Model;
use std::num::NonZeroUsize;
use unit_id::Bytes;

/// What makes the rows of factors.
pub trait RowMaker {
    ghost use Rattle.std.specs.Prelude.{ℕ, List};

    /// Whether a row is one for some held indexes and a wanted one.
    ghost fits: { Self → List ℕ → ℕ → List ℕ → Type 0 };

    /// How many calls there were.
    ghost made: { Self → ℕ };

    /// A row for some held indexes and a wanted one. No call changes which rows fit.
    fn make(&mut self, alloc: Global, held: &[u8], want: u8) -> Result<Bytes, NoMemory>
        ensures fits { IfOk result (fits self.old held.now want) }
        ensures keeps { (indexes : List ℕ) (index : ℕ) (row : List ℕ) → fits self.old indexes index row ↔ fits self.new indexes index row }
        ensures counted { HasRisen (made self.old) (made self.new) };
}

/// For which indexes a row is.
#[derive(Drop, PartialEq, Eq, Hash)]
pub(crate) struct RowKey {
    held: Vec<u8>,
    want: u8,
}

impl RowKey {
    /// The key of these indexes.
    pub(crate) fn make(alloc: Global, held: &[u8], want: u8) -> Result<RowKey, AllocError>
        ensures held { IfOk result (λ key. key.held.items ≡ held.now) }
        ensures want { IfOk result (λ key. key.want ≡ want) }
    {
        Ok(RowKey {
            held: Vec::from_slice(alloc, held)?,
            want,
        })
    }
}

/// Rows by their held indexes and their wanted one, at most so many, without the least recently used ones.
///
/// Seen as how many there may be, and the entries, the most recently used first.
#[derive(Drop)]
pub struct RowCache {
    alloc: Global,
    rows: LruCache<RowKey, Bytes>,
}

impl Model for RowCache {
    ghost use Rattle.std.specs.Prelude.{map};
    ghost use Rattle.rs_code.specs.RowCache.{KeptRow, KeptRows};

    ghost Value = { KeptRows };

    ghost view = { λ c. record { cached = c.rows.cap; entries = map (λ e. let entry : KeptRow = record { held = e.0.held.items; want = e.0.want; row = e.1 } in entry) c.rows.entries } };
}

impl RowCache {
    /// A cache of at most `cached` rows, without any.
    pub fn make(alloc: Global, cached: usize) -> Result<RowCache, NoMemory>
        requires { 1 ≤ cached }
        ensures { IfOk result (λ cache. cache ≡ record { cached = cached; entries = [] }) }
    {
        match NonZeroUsize::new(cached) {
            Some(cap) => Ok(RowCache {
                alloc,
                rows: LruCache::sparse(alloc, cap)?,
            }),
            None => unreachable!(),
        }
    }

    /// How many rows are kept. Takes no memory.
    pub fn len(&self) -> usize
        ensures value { result ≡ length self.now.entries }
        ensures within { length self.now.entries ≤ self.now.cached }
    {
        self.rows.len()
    }

    /// The row for some held indexes and a wanted one: the one that is kept, or else one that is made and
    /// kept from then on. Without memory the rows stay as they are.
    pub fn row<M: RowMaker>(
        &mut self,
        maker: &mut M,
        held: &[u8],
        want: u8,
    ) -> Result<Bytes, NoMemory>
        requires { AllFit (M.fits maker.old) self.old.entries }
        ensures row { IfOk result (IsRowOf (M.fits maker.old) held.now want self.old self.new (M.made maker.old) (M.made maker.new)) }
        ensures fits { IfOk result (M.fits maker.old held.now want) }
        ensures err { OnErr result (self.new ≡ self.old) }
        ensures fit { AllFit (M.fits maker.new) self.new.entries }
    {
        let key = RowKey::make(self.alloc, held, want)?;
        if let Some(row) = self.copy_of(&key)? {
            self.renew(&key);
            return Ok(row);
        }
        let row = maker.make(self.alloc, held, want)?;
        self.keep(key, copied(self.alloc, &row)?)?;
        Ok(row)
    }

    /// A copy of the row that is kept, and None where there is none.
    pub(crate) fn copy_of(&self, key: &RowKey) -> Result<Option<Bytes>, AllocError>
        ensures { IfOk result (λ row. row ≡ option_map (λ entry. entry.row) (found key.now.held.items key.now.want self.now.entries)) }
    {
        match self.rows.peek(key) {
            Some(row) => Ok(Some(copied(self.alloc, row)?)),
            None => Ok(None),
        }
    }

    /// Makes the row that is kept the most recently used one. Takes no memory.
    pub(crate) fn renew(&mut self, key: &RowKey)
        ensures { IfSome (found key.now.held.items key.now.want self.old.entries) (λ entry. self.new ≡ renewed key.now.held.items key.now.want entry self.old) }
    {
        self.rows.promote(key);
    }

    /// Keeps a row where there was none. Without memory the rows stay as they are.
    pub(crate) fn keep(&mut self, key: RowKey, row: Bytes) -> Result<(), AllocError>
        requires { found key.held.items key.want self.old.entries ≡ None }
        ensures ok { OnOk result (self.new ≡ with_row key.held.items key.want row self.old) }
        ensures err { OnErr result (self.new ≡ self.old) }
    {
        match self.rows.put(key, row) {
            Ok(_) => Ok(()),
            Err(_) => Err(AllocError),
        }
    }
}

/// A copy of a row.
fn copied(alloc: Global, row: &Bytes) -> Result<Bytes, AllocError>
    ensures { IfOk result (λ copy. copy ≡ row.now) }
{
    Ok(Bytes::from_vec(Vec::from_slice(alloc, row.as_slice())?))
}
