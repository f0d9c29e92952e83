//! The outside of the store, as traits that say what they promise, with forms of them in memory.
//!
//! Each trait has a count of faults that never falls, and a call answers `Failed` only where the count
//! rose in that call; what an object holds is told by the forms in memory alone, and the clauses on
//! content stand where it is told.
//!
//! Public: the traits `Source`, `Sink`, `Extent`, `Shelf` and `Farm`; the forms in memory `MemSource`, `MemSink`,
//! `MemFile`, `MemShelf` and `MemFarm`; the answers `Failed`, `NoMemory`, `ShelfFault` and `FarmFault`.
#![tactic(auto)]

mod extent;
mod farm;
mod fault;
mod fault_plan;
mod mem_farm;
mod mem_file;
mod mem_shelf;
mod mem_sink;
mod mem_source;
mod shelf;
mod sink;
mod source;

pub use extent::Extent;
pub use farm::Farm;
pub use fault::{Failed, FarmFault, NoMemory, ShelfFault};
use fault_plan::FaultPlan;
pub use mem_farm::MemFarm;
pub use mem_file::MemFile;
pub use mem_shelf::MemShelf;
pub use mem_sink::MemSink;
pub use mem_source::MemSource;
pub use shelf::Shelf;
pub use sink::Sink;
pub use source::Source;

#[cfg(test)]
mod switch_order;
#[cfg(test)]
mod tests;
