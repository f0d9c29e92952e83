//! Which live rows a copy can use, and which units it can read.

ghost use Rattle.std.specs.Prelude.{◌≡◌, IfOk};
ghost use Rattle.migrate_task.specs.Copies.{agrees, is_usable, others_than};

use code_mode::{BLOB_LIMIT, Mode};
use std::alloc::{AllocError, Global};
use unit_id::{Bytes, Home};

/// The size of a blob, as the first live row of it said that was heard in this call.
#[derive(Clone, Copy, Debug, PartialEq, Eq)]
pub(crate) struct KnownSize {
    pub(crate) bid: u64,
    pub(crate) size: u32,
}

/// Whether the size is that of the first live row of this blob.
fn agrees(known: Option<KnownSize>, bid: u64, size: u32) -> bool
    ensures { result ≡ agrees known bid size }
{
    match known {
        Some(known) => known.bid != bid || known.size == size,
        None => true,
    }
}

/// Whether a live row has the length of a shard of a blob of its size, and the size that is known.
pub(crate) fn is_usable(
    mode: Mode,
    known: Option<KnownSize>,
    bid: u64,
    size: u32,
    bytes: &Bytes,
) -> bool
    ensures { result ≡ is_usable mode known bid size bytes.now }
{
    let in_limits = 1 <= size && size <= BLOB_LIMIT;
    let has_length = bytes.len() == mode.shard_size(size) as usize;
    in_limits && (has_length && agrees(known, bid, size))
}

/// The current units on unbroken disks but the one of this index.
pub(crate) fn others_than(alloc: Global, homes: &[Home], index: u8) -> Result<Vec<Home>, AllocError>
    ensures { IfOk result (λ others. others.items ≡ others_than index homes.now) }
{
    homes
        .iter()
        .copied()
        .filter(|home| !home.broken)
        .filter(|home| {
            let unit = home.unit;
            unit.index != index
        })
        .collect(alloc)
}
