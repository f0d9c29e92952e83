//! A volume over files in memory, to try what puts, gets, tasks and sweeps do to a whole one.
//!
//! `MemoryVolume` has volume 1 with the unit of each index on the disk of the next number. Each call is total: what a way
//! to a volume asks of an event is tested as it comes, and one that doesn't fit is answered by nothing and changes
//! nothing. `Setup` says which calls of which files fail, and whether the manager's log tells what it holds. Where it does,
//! no shard is put or copied by hand, since nobody could tell that its bytes are the right ones.
//!
//! `fitting` has the tests of events, and `specs/Fitting` what they say; `setup` and `first_homes` have what a volume is
//! made of, and `specs/Setting` says what that is. `specs/MemoryVolume` says what a volume is seen as, and `specs/Calls` what
//! each call does, by what the crates below say of it.
#![tactic(auto)]

mod fault;
mod first_homes;
mod fitting;
#[cfg(test)]
mod parts_tests;
#[cfg(test)]
mod scenes;
mod setup;
mod volume;

pub use fault::MakeFault;
pub use setup::Setup;
pub use volume::MemoryVolume;
