//! The rows of one unit over its log.
//!
//! A chunk is the file of one unit of a volume. Its rows, its fence and its release are the fold of the
//! records in its log, by the one definition of `shard_record`. Memory keeps of each row what it is and where
//! its record stands, and `get` reads the bytes back from the file.
//!
//! Each call that may write says by a plan what it refuses, answers or writes, whatever the file tells. Over a
//! file that tells its content, the records after such a call are those of before, or those with one more at
//! the end; so are those of each file that a crash at any moment inside leaves, and a start finds them.
//!
//! Public: `Chunk` with `over`, `start`, `put`, `get`, `mark`, `free`, `list`, `fence`, `release`, `reserve`,
//! `is_shut`, `is_released`, `unit`, `row`, `fence_lock` and `into_file`; `ChunkFault`, `Put`, `Got` and `RowKind`.
#![tactic(auto)]

mod answer;
mod chunk;
mod fault;
mod index;
mod reading;
mod starting;
#[cfg(test)]
mod tests;
mod writing;

pub use answer::{Got, Put, RowKind};
pub use chunk::Chunk;
pub use fault::ChunkFault;
