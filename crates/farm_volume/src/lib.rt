//! A volume over the shelves of a farm.
//!
//! `FarmVolume` makes a volume over shelves that it takes from a farm, and has them while they are out: disk 0's, on which
//! the manager's log has the file of the volume's number, and those of its world's stations. It is a way to its volume, and
//! hands all of them back in the end, each with its files and its faults.
//!
//! `specs/Lending` says which shelves are a volume's and how they go back, `specs/Making` how a volume is made over them,
//! `specs/FarmVolume` what handing a volume back means for the farm.
#![tactic(auto)]

mod lending;
mod returning;
mod volume;

pub use volume::FarmVolume;
