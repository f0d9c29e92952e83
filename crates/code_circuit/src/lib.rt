//! Sums of products over the field of 256 elements by a short program of steps.
//!
//! A step adds a factor times one register to another. A well chosen program computes all outputs of a
//! constant matrix with fewer products than the matrix has entries. Nobody has to trust who chose it:
//! `Circuit::make` runs the steps on the unit rows, compares what they give with the rows that are wanted,
//! and hands out a circuit only where both agree. `Circuit::run` then gives the very sums of `gf256`'s
//! `combine`.
#![tactic(auto)]

mod circuit;
mod load;
mod play;
mod step;
mod table;

pub use circuit::Circuit;
pub use step::Step;

#[cfg(test)]
mod tests;
