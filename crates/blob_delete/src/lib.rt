//! The sweep of one blob whose deletion was asked for, over any way to its volume.
//!
//! `sweep` looks, marks the blob at each unit on an unbroken disk, commits its deletion and has the marked units free its
//! shards. What it asks in which order, and what each reply makes of it, stands in `specs/SweepCall`, and what its answers
//! say in `specs/Sweeps`: `Freed` exactly where every unit of the volume freed in this call, and `Freed` or `Committed`
//! only where the deletion is committed. `specs/StandIn` is a volume for the tests.
#![tactic(auto)]

mod fault;
mod sweeping;
#[cfg(test)]
mod tests;

pub use fault::DeleteFault;
pub use sweeping::{Swept, sweep};
