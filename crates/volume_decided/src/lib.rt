//! Which steps of a volume are decided by the state before them and by what is asked.
//!
//! An event has one reply and leads to one state where neither reply tells that a file failed. Three kinds of steps are left out,
//! though no file fails in them: those whose answer is that a chunk is full, those in which a unit is asked whose answer nobody
//! hears, and those in which a late request arrives. Of those nothing is said.
//!
//! `specs/Decided` says which replies tell of a failure and which requests are handled with nobody hearing, and states the law on
//! steps. `specs/Stretch` has those on stretches and calls, which begin where nothing is late and no fate is planned that leaves an
//! answer unheard or a request late.
#![tactic(auto)]

pub mod laws;
