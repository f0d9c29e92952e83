//! Records of a chunk, their bytes, and the sum that each begins with.
//!
//! A record has one spelling: `write` gives it, `read` answers Ok exactly on spellings and else the
//! first test that fails, with its fields. `crc32` is the remainder of IEEE 802.3, defined bit by bit
//! and computed sixteen bytes at a time: long byte strings are folded on lanes into short ones with the
//! same remainder, and tables that are proved right give that of the rest. What rows a list of records
//! leaves is a definition alone, in `specs/Rows.antt`, for the layer that keeps rows.
//!
//! Public calls: `crc32`, `write`, `read`, `ShardRecord::unit`, and the laws
//! `spelling_is_one_to_one`, `no_spelling_begins_another`, `spelled_or_refused`,
//! `deletes_are_kept`, `gone_rows_stay_gone`, `first_fence_stays` and `nothing_follows_a_release`.
#![tactic(auto)]

mod crc;
mod folding;
mod laws;
mod reading;
mod record;
mod tables;
mod writing;

pub use crc::crc32;
pub use laws::{
    deletes_are_kept, first_fence_stays, gone_rows_stay_gone, no_spelling_begins_another,
    nothing_follows_a_release, spelled_or_refused, spelling_is_one_to_one,
};
pub use reading::read;
pub use record::{RecordFault, ShardRecord};
pub use writing::write;
