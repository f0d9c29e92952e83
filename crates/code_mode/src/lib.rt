//! The code modes, the shards of a blob, and the bytes that a put carries.
//!
//! Each mode has the numbers of one table. A blob is padded with zero bytes and cut in order into data
//! shards of one size, and these joined again are the blob. A payload is the bytes that were written out
//! or those of a generator, all at once or one by one.
//!
//! Public calls: those of `Mode` and `Payload`, `cut`, `hold` and `join`; the laws `mode_numbers`, `mode_shapes`,
//! `cut_shards_join` and `any_shards_give_the_blob`.
#![tactic(auto)]

mod mode;
mod payload;
mod stripe;

pub use mode::{Mode, mode_numbers, mode_shapes};
pub use payload::Payload;
pub use stripe::{BLOB_LIMIT, any_shards_give_the_blob, cut, cut_shards_join, hold, join};
