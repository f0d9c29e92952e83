//! One volume more: the tables give it a number and disks, and it is made over shelves of a farm.
//!
//! `make_volume` is all that a store does to have another volume. What it answers, and what it leaves of the tables and of
//! the farm, stands in `specs/Making`, by what the tables say of a new volume and a farm's volume of its making.
#![tactic(auto)]

mod fault;
mod making;
#[cfg(test)]
mod object_tests;
#[cfg(test)]
mod tests;

pub use fault::NoVolume;
pub use making::make_volume;
