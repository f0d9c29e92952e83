//! Puts and gets of one blob, over any way to its volume.
//!
//! `put` takes a lease, begins the blob, sends each unit its shard and ends the put; it is acknowledged exactly where the
//! end replied so. `get` looks at the volume and reads unit after unit until enough shards are heard, and tries again
//! where units moved meanwhile. What each asks in which order, and what each reply makes of it, stands in `specs/PutCall`
//! and `specs/GetCall`. By the law `puts_are_short` a put asks for no more than a lease, a begin, a request to each unit and
//! an end, and by `gets_are_short` a get for no more than five looks and four reads of each unit.
//!
//! By the law `short_gets_have_a_cause` a get hears too few shards only where a read failed, more units were on broken
//! disks than a quorum can spare, the blob wasn't acknowledged, or its delete was asked for. Where nothing of that kind
//! happened, it gives the blob's bytes by `gets_give_the_blob`, unless the blob has another size, units moved at every
//! try, or a look failed. What counts as a cause stands in `specs/Causes`.
//!
//! `specs/StandIn` is a volume for the tests.
#![tactic(auto)]

mod fault;
mod getting;
pub mod laws;
mod putting;
mod stripe;
#[cfg(test)]
mod tests;
mod versions;

pub use fault::{GetFault, PutFault};
pub use getting::get;
pub use putting::{Acked, put};
