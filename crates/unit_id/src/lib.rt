//! Names of units, requests and answers of stations, and the small list types that every layer
//! passes along.
//!
//! A unit's name and the word that stands for it on disks are one to one. Each list type is seen as
//! the list of its items and takes no memory: `Bytes` and `Bids` are made from a `Vec` and give it
//! back, and so is `Targets`; `Homes` and `Moves` have a fixed row of places. Public calls:
//! `UnitName::new`, `pack`, `unpack`, `next` and the law `packed_is_one_to_one`; `from_vec`,
//! `as_slice`, `len` and `into_vec` of `Bytes`, `Bids` and `Targets`; `empty`, `push`, `as_slice` and
//! `len` of `Homes` and `Moves`. `specs/` has what the protocol's definitions in the crates above
//! share: lists and counts, places of units, and requests and answers without their bytes. `Task`, what
//! is planned for units, is plain data.
#![tactic(auto)]

mod answer;
mod bids;
mod bytes;
mod homes;
mod moves;
mod request;
mod targets;
mod task;
mod unit_name;

pub use answer::Answer;
pub use bids::Bids;
pub use bytes::Bytes;
pub use homes::{Home, Homes};
pub use moves::{Move, Moves};
pub use request::Request;
pub use targets::{Target, Targets};
pub use task::{Kind, Task};
pub use unit_name::{UnitFault, UnitName};
