//! Tests of the log: worked files, calls that fail, crashes, and files that were cut or changed.
//!
//! They stand in a crate of their own, so that `gate_log` isn't proved a second time with its tests, and use it as every
//! crate above does, through its public calls.
#![tactic(auto)]

#[cfg(test)]
mod logs;
