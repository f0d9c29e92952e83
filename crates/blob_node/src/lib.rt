//! What one disk keeps of one volume's units, how a unit answers, and what becomes of messages.
//!
//! `specs/Units` has the rows, fences and releases of all units as look-ups, and what each record of a chunk
//! changes. `specs/UnitAnswer` has the answers to each request, tried from the top, and what each leaves: nothing,
//! a unit made, a chunk started, a record written, or one in doubt.
//!
//! `HeldUnit` is a unit that was made here, over its chunk, and answers by that relation. Over a file that tells, its
//! chunk's records leave the rows that the protocol knows (`specs/Holding`), before and after each call; a record
//! in doubt is settled by the next start, which says whether it was found.
//!
//! `Station` is all units of one volume on one disk, over a shelf: it makes units, finds them by a hash of their names
//! and answers each request by the protocol's relation. A restart starts all of them in turn and tells what it found of
//! records in doubt (`Settled`). `specs/Station` says what a station stands for over a shelf that tells, what a request
//! and a restart leave, and what a crash at any moment inside leaves of the shelf and its files together;
//! `specs/Starting` has the starts one after the other. `Link` plans by disk what happens to messages.
//!
//! Public: `HeldUnit` with `over`, `start`, `serve`, `unit`, `is_released`, `is_in_doubt`, `is_shut` and `into_chunk`;
//! `Station` with `make`, `handle`, `restart`, `unit`, `is_broken`, `disk`, `vid`, `break_down` and `into_shelf`;
//! `Settled`; `Link` with `make`, `plan`, `peek` and `next`; `Fate`; the laws of `laws`.
#![tactic(auto)]

#[cfg(test)]
mod crash_tests;
mod fate;
mod hand_back;
mod held_unit;
pub mod laws;
mod link;
mod new_chunk;
#[cfg(test)]
mod restart_tests;
mod settled;
mod starting;
mod station;
#[cfg(test)]
mod station_tests;
#[cfg(test)]
mod tests;
mod unit_table;

pub use fate::Fate;
pub use held_unit::{Doubt, HeldUnit};
pub use link::Link;
pub use settled::Settled;
pub use station::Station;
