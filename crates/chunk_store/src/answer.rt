//! What calls on a chunk answer.

use unit_id::Bytes;

/// What became of a shard that was put.
#[derive(Clone, Copy, Debug, PartialEq, Eq)]
pub enum Put {
    /// It is stored, and the row is live.
    Stored,
    /// The row was live before and stays as it is.
    Already,
    /// The row is marked or gone and stays so.
    Deleted,
}

/// What a chunk has of a blob.
#[derive(Drop)]
pub enum Got {
    /// Its shard, and the size of the blob.
    Live { blob_size: u32, bytes: Bytes },
    /// The mark of a delete.
    Marked,
    /// The shard is gone for good.
    Gone,
    /// Nothing.
    Absent,
}

/// What the row of a blob is, without its bytes.
#[derive(Clone, Copy, Debug, PartialEq, Eq)]
pub enum RowKind {
    /// The blob's shard is stored.
    Live,
    /// The blob is marked as deleted.
    Marked,
    /// The shard is gone for good.
    Gone,
}
