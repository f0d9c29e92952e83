//! A whole volume: its state, its moves, and what holds after every list of moves.
//!
//! `specs/State` and `specs/Move` say what is kept and how it changes, whatever is lost, repeated or late; `specs/Run`
//! says which moves an entry of a history is. `specs/Invariant` has what every move keeps, a file each part. `World` is a
//! volume over shelves and files, each of whose steps is one of these; `Port` is any way to a volume.
#![tactic(auto)]

mod beginning;
#[cfg(test)]
mod beginning_tests;
mod clock;
mod copies;
mod event;
pub mod examples;
mod fault;
mod flushing;
mod happening;
mod history;
mod keeping;
mod late;
pub mod laws;
mod making;
mod managing;
mod opening;
mod parts;
mod port;
mod puts;
mod putting;
mod reply;
mod replying;
mod restarting;
mod sending;
mod serving;
mod stations;
#[cfg(test)]
mod stations_tests;
#[cfg(test)]
mod tests;
mod ticking;
mod trace;
mod world;
mod world_fault;

pub use event::Event;
pub use fault::StepFault;
pub use port::Port;
pub use reply::Reply;
pub use trace::{Trace, TraceAnswer, TraceEvent, TraceReply, TraceRequest};
pub use world::World;
pub use world_fault::{MakeRefused, WorldFault};
