//! Tests of names, lists and records, against values that were worked out elsewhere.
//!
//! They stand in a crate of their own, so that neither `unit_id` nor `shard_record` is proved a second time with its
//! tests; both are used here as every crate above uses them, through their public calls.
#![tactic(auto)]

#[cfg(test)]
mod names;
#[cfg(test)]
mod records;
