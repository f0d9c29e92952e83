//! Tests of the field, the code over it, and the modes, against values that were worked out elsewhere.
//!
//! They stand in a crate of their own, so that none of `gf256`, `rs_code` and `code_mode` is proved a second time with
//! its tests; they are used here as every crate above uses them, through their public calls.
#![tactic(auto)]

#[cfg(test)]
mod field;
#[cfg(test)]
mod modes;
#[cfg(test)]
mod shards;
