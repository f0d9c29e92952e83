//! What a look at a volume shows.

use unit_id::{Homes, Moves};

/// The lock of a task, and the units that it moves.
#[derive(Drop)]
pub struct LockView {
    pub task: u64,
    pub lock: u64,
    pub moves: Moves,
    pub swapped: bool,
}

/// A volume as a look shows it: its clock, how often its units changed (counted from 1), before which time puts may
/// be acknowledged, the lock, and where its units stand.
#[derive(Drop)]
pub struct View {
    pub now: u64,
    pub version: u64,
    pub lease: u64,
    pub held: Option<LockView>,
    pub units: Homes,
}
