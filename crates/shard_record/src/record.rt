//! Records and why bytes are none.

ghost use Rattle.std.specs.Prelude.{◌≡◌};

use thiserror::Error;
use unit_id::{Bytes, UnitName};

/// The bytes that tell the kinds apart.
pub(crate) const SHARD: u8 = 1;

pub(crate) const MARK: u8 = 2;

pub(crate) const FREE: u8 = 3;

pub(crate) const FENCE: u8 = 4;

pub(crate) const RELEASE: u8 = 5;

/// One change of a unit's rows, as its chunk keeps it.
#[derive(Drop)]
pub enum ShardRecord {
    /// The shard of a blob of `blob_size` bytes, both sizes 1 to 4,194,304 bytes.
    Shard {
        bid: u64,
        unit: UnitName,
        blob_size: u32,
        bytes: Bytes,
    },
    /// The blob is to be deleted.
    Mark {
        bid: u64,
        unit: UnitName,
    },
    /// The blob's shard is gone for good.
    Free {
        bid: u64,
        unit: UnitName,
    },
    /// No write is taken any more, by the lock of this number.
    Fence {
        lock: u64,
        unit: UnitName,
    },
    /// The unit is given up, with all its rows.
    Release {
        unit: UnitName,
    },
}

/// The first test that bytes failed which spell no record.
#[derive(Clone, Copy, Debug, PartialEq, Eq, Error)]
pub enum RecordFault {
    /// There are fewer than 21 bytes.
    #[error("fewer than 21 bytes")]
    Short,
    /// The sum that stands there isn't that of the bytes after it.
    #[error("the sum is {kept:08x} where {computed:08x} is right")]
    BadSum { kept: u32, computed: u32 },
    /// The kind isn't 1 to 5.
    #[error("kind {kind} is none")]
    BadKind { kind: u8 },
    /// The word of the unit is no unit's.
    #[error("no unit has that word")]
    BadUnit,
    /// A release has a number other than 0.
    #[error("a release with number {number}")]
    BadNumber { number: u64 },
    /// A shard has fewer than 29 bytes.
    #[error("a shard of fewer than 29 bytes")]
    ShortHead,
    /// The blob size or the length isn't 1 to 4,194,304.
    #[error("size {size} is none")]
    BadSize { size: u32 },
    /// Fewer bytes follow than the length says.
    #[error("{stated} bytes are stated and {have} are there")]
    BadLength { stated: u32, have: u32 },
    /// Bytes follow behind the record.
    #[error("{extra} bytes too many")]
    Trailing { extra: u32 },
    /// There was no memory left.
    #[error("out of memory")]
    Memory,
}

impl ShardRecord {
    ghost use Rattle.shard_record.specs.Spelling.{kind_of, number_of, unit_of};

    /// The byte that tells the kinds apart.
    pub(crate) fn kind(&self) -> u8
        ensures { result ≡ kind_of self.now }
    {
        match self {
            ShardRecord::Shard { .. } => SHARD,
            ShardRecord::Mark { .. } => MARK,
            ShardRecord::Free { .. } => FREE,
            ShardRecord::Fence { .. } => FENCE,
            ShardRecord::Release { .. } => RELEASE,
        }
    }

    /// The blob or the lock that the record is about, and 0 where it is about neither.
    pub(crate) fn number(&self) -> u64
        ensures { result ≡ number_of self.now }
    {
        match self {
            ShardRecord::Shard { bid, .. }
            | ShardRecord::Mark { bid, .. }
            | ShardRecord::Free { bid, .. } => *bid,
            ShardRecord::Fence { lock, .. } => *lock,
            ShardRecord::Release { .. } => 0,
        }
    }

    /// The unit that the record is about.
    pub fn unit(&self) -> UnitName
        ensures { result ≡ unit_of self.now }
    {
        match self {
            ShardRecord::Shard { unit, .. } => *unit,
            ShardRecord::Mark { unit, .. } => *unit,
            ShardRecord::Free { unit, .. } => *unit,
            ShardRecord::Fence { unit, .. } => *unit,
            ShardRecord::Release { unit } => *unit,
        }
    }
}
