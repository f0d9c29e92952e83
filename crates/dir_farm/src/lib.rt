//! Shelves of files in real folders.
//!
//! A `DirFarm` keeps the shelf of disk D and volume V in the folder `disk-D/vol-V` of its root, and a file under its number in
//! decimal. Nothing is told of what files hold, so the traits of `disk_base` are met by what this crate counts and
//! remembers itself: which shelves and files are handed out, which names were seen, and how often a call failed.
//!
//! Public: `DirFarm`, `DirShelf` and `DirFile`.
#![tactic(auto)]

mod dir_farm;
mod dir_file;
mod dir_shelf;
mod folder;
mod names;
mod root;
#[cfg(test)]
mod tests;

pub use dir_farm::DirFarm;
pub use dir_file::{DirFile, FileCounts};
pub use dir_shelf::DirShelf;
pub use names::Known;
