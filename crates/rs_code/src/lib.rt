//! Filling and rebuilding the shards of a blob: any n held shards give every shard.
//!
//! A shard of index r is at each byte position the value at r of the only polynomial of degree below n
//! through the n least held shards. `fill` adds exactly the missing shards, `rebuild` gives one, and a
//! refusal or a want of memory leaves the shards as they were. `laws` says that the polynomial is the
//! only one and that any n shards of a filled set give the same set again. A coder multiplies by rows of
//! weights, those of the inverted matrix, and keeps them in a `RowCache`; what it answers doesn't depend on
//! them. Public calls: `make`, `add`, `get` and `count` of `Shards`; `new`, `fill`, `rebuild`, `entries` and
//! `made` of `Coder`; `make`, `len` and `row` of `RowCache`, and the trait `RowMaker`.
#![tactic(auto)]

mod coder;
mod interpolate;
mod known_places;
pub mod laws;
mod row_cache;
mod shards;
mod weighing;

pub use coder::{CodeFault, Coder};
pub use row_cache::{RowCache, RowMaker};
pub use shards::{ShardFault, Shards};
