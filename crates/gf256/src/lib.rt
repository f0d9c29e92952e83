//! The field of 256 elements in which shards are computed.
//!
//! A byte is a polynomial of degree below 8 over two values, a sum is an xor, and a product is taken
//! modulo x^8 + x^4 + x^3 + x^2 + 1. Every call gives exactly that field's answer, and `laws` states what
//! holds of all products. Public calls: `mul`, `power`, `inverse` and `scale_add`, which take no memory, and
//! `combine`, which gives for each `FactorRow` the sum of the products of its factors and some sources.
#![tactic(auto)]

mod high_halves;
mod invert;
mod kernel;
mod lanes;
pub mod laws;
mod low_halves;
mod multiply;
mod outputs;
mod row;
mod scale;

pub use invert::inverse;
pub use multiply::{mul, power};
pub use outputs::combine;
pub use row::FactorRow;
pub use scale::scale_add;
