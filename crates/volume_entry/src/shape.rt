//! The numbers of a volume.

use code_mode::Mode;

/// The mode of a volume, and how many disks it may use, which are numbered from 1.
#[derive(Clone, Copy, Debug, PartialEq, Eq)]
pub struct Shape {
    pub mode: Mode,
    pub disks: u32,
}
