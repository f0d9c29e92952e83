//! What is planned for units of a volume.

use crate::targets::Targets;

/// Why units are moved.
#[derive(Clone, Copy, Debug, PartialEq, Eq)]
pub enum Kind {
    /// So that disks are used evenly.
    Balance,
    /// Their disk is to be taken away.
    Drop,
    /// Their disk is broken.
    Repair,
}

/// A planned move of units of one volume, all under one lock.
#[derive(Drop)]
pub struct Task {
    pub id: u64,
    pub kind: Kind,
    pub vid: u32,
    /// The units, by ascending index, with the disks to which they go.
    pub targets: Targets,
}
