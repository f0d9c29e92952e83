//! The small calls of one volume, over any way to it: its clock, its disks, what is planned for its messages, its late
//! items, restarts, a look, and what is to be deleted.
//!
//! All but `flush` ask for one event, and its reply tells the answer by `specs/SingleCalls`. `flush` has late items
//! arrive until none is left, by `specs/Flushes`. `specs/CallForm` says what holds of each of them, whatever it answers;
//! the faults that pass on why a step wasn't done stand in `specs/CutOff`. `specs/StandIn` is a volume for the tests.
#![tactic(auto)]

mod fault;
mod flushing;
mod single;
#[cfg(test)]
mod tests;

pub use fault::{AskFault, LogFault, RestartFault};
pub use flushing::{Flushed, flush};
pub use single::{ask, break_disk, look, plan, restart, restart_manager, tick};
