//! Tests of lines, commands, replies and whole runs of a session.
//!
//! They stand in a crate of their own, so that neither `script_lines` nor `node_runner` is proved a second time with
//! its tests; both are used here as every crate above uses them, through their public calls.
#![tactic(auto)]

#[cfg(test)]
mod lines;
#[cfg(test)]
mod reading;
#[cfg(test)]
mod replies;
#[cfg(test)]
mod root;
#[cfg(test)]
mod runs;
