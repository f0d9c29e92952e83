//! A store: the cluster's tables, and the volumes that they name over the shelves of a farm.
//!
//! A command is a plan over the tables (`specs/Lines`): which volume is asked what next, as the replies before decide, and
//! what it comes to. Each call of `Store` follows the plan of its command: volumes play its turns, in that order and no
//! others, and the reply and the tables behind it are the plan's (`Played`). What a volume saw is then a session of its own
//! turns, and the laws of `volume_turns` hold of it.
//!
//! A call that has no reply broke off: `HistoryFull` where the history of a volume is full, and `Memory`.
//!
//! Scripts of commands have laws (`laws`), which cover puts as well. No call puts an object yet.
#![tactic(auto)]

mod asking;
mod command;
mod disks;
pub mod laws;
mod links;
mod looking;
mod making;
mod objects;
mod reply;
mod store;
#[cfg(test)]
mod tests;
mod turns;

pub use command::Command;
pub use reply::{Refusal, Reply};
pub use store::Store;
