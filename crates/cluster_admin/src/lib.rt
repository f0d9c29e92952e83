//! The cluster's tables: disks, volumes, unfinished tasks, names, and the placers that choose disks.
//!
//! Each call's answer, refusals in their order and effect are functions of what the tables say
//! (`state_of`), for every placer that is handed in: a chosen disk is the option that the placer's plan
//! names, and the placer in use then has its next state. A refused call changes nothing, but for
//! `assign`, which answers `NoDisk` after it gave every other target its disk. Names are kept in order
//! of put.
//!
//! Public calls: `Admin::make`, `set_disks`, `use_placer`, `disk_count`, `state`, `break_disk`; `new_volume`,
//! `lose_volume`, `pick_volume`; `plan_balance`, `plan_drop`, `plan_repair`, `plan_repair_all`;
//! `is_unfinished`, `unfinished`, `task`, `assign`, `finish`, `settle`; `may_add_name`, `add_name`,
//! `name`, `remove_name`, `name_at`, `location`; the trait `Placer` and its forms `First`, `Least` and
//! `Turns`.
#![tactic(auto)]

mod admin;
mod assigning;
mod choosing;
mod disks;
mod fault;
mod location;
mod name_block;
mod name_index;
#[cfg(test)]
mod name_tests;
mod names;
mod options;
mod picking;
mod placer;
mod planning;
mod plans;
mod settling;
#[cfg(test)]
mod tests;
mod volumes;

pub use admin::Admin;
pub use disks::{Disk, DiskState};
pub use fault::AdminFault;
pub use names::Object;
pub use picking::Seen;
pub use placer::{First, Least, Place, Placer, Turns};
