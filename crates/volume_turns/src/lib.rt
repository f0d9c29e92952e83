//! The commands of a script that go to one volume, turn by turn, over any way to it.
//!
//! `play` plays one command: what it asks of the volume, and which reply that decides, stands in `specs/Turn`, by the relations
//! of the calls below. `play_all` plays commands in order, and what the way then saw is a session of turns, by
//! `specs/Session`: each entry stands in just one turn. Of every session the laws in `laws` hold, on faults, on
//! acknowledgements, and, where files tell what they hold, on objects that a turn put and later turns get, by
//! `specs/ObjectTurns`.
#![tactic(auto)]

mod answering;
mod command;
pub mod laws;
mod reply;
mod session;
#[cfg(test)]
mod tests;
mod turning;

pub use command::VolumeCommand;
pub use reply::{VolumeRefusal, VolumeReply};
pub use session::play_all;
pub use turning::play;
