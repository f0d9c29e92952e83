//! An append-only log of byte strings in one file.
//!
//! What a file says is a definition over its bytes alone; a start answers it, an append adds its body to it,
//! and a read gives the body at a place. A crash at any moment inside an append leaves the file of a log of
//! the bodies before, or of those with this one at the end, and after Ok of the latter; inside a start, a file
//! that says what it said before. `specs/LogLaws` is for those that stand on a log: they need no byte.
//! Each error has its cause: `Fault` comes only where the file's count of faults rose in that call, and the
//! others come exactly where the file's bytes, the body's length or the log's end say so.
//!
//! A start that hands out each body, and so reads each byte once, goes by a `Cursor`.
//!
//! Public: `GateLog` with `over`, `start`, `begin`, `next`, `finish`, `leave`, `append`, `read`, `first`, `end`
//! and `into_file`; `Cursor`; `LogFault`; the laws `nothing_counts_behind_a_closed_gate` and `the_gate_alone_adds_a_body`.
#![tactic(auto)]

mod device;
mod fault;
mod laws;
mod log;
mod record;
mod start;

pub use fault::LogFault;
pub use laws::{nothing_counts_behind_a_closed_gate, the_gate_alone_adds_a_body};
pub use log::GateLog;
pub use start::Cursor;
