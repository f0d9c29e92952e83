//! What a station is asked.

use crate::bytes::Bytes;
use crate::unit_name::UnitName;

/// A request to the unit at a disk. The number of a fence or a list is the lock's under which it is
/// sent, and that of the others is the blob's.
#[derive(Drop)]
pub enum Request {
    /// Make the unit, with no rows.
    Create {
        unit: UnitName,
        disk: u32,
    },
    /// Take no writes any more.
    Fence {
        unit: UnitName,
        disk: u32,
        lock: u64,
    },
    /// Keep a client's shard.
    Put {
        unit: UnitName,
        disk: u32,
        bid: u64,
        blob_size: u32,
        bytes: Bytes,
    },
    /// Give the shard of a blob.
    Read {
        unit: UnitName,
        disk: u32,
        bid: u64,
    },
    /// List the blobs that have rows.
    List {
        unit: UnitName,
        disk: u32,
        lock: u64,
    },
    /// Keep a shard that was read or rebuilt.
    Copy {
        unit: UnitName,
        disk: u32,
        bid: u64,
        blob_size: u32,
        bytes: Bytes,
    },
    /// Mark a blob as deleted.
    Mark {
        unit: UnitName,
        disk: u32,
        bid: u64,
    },
    /// Let a marked blob's shard go.
    Free {
        unit: UnitName,
        disk: u32,
        bid: u64,
    },
    /// Drop all rows and end the unit.
    Release {
        unit: UnitName,
        disk: u32,
    },
}
