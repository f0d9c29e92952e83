//! The manager's part of one volume: homes of units, leases, the lock of a task, deletes, and what was heard.
//!
//! `specs/Manager` has what is kept, the records of the log and what each changes, and which records are legal behind
//! others. `specs/Benchmark` says what a destination must have before a swap, and `specs/ManagerStep` has the refusals
//! of each step in order, what it writes where none holds, and what hearing an answer does. `specs/Spelling` gives each
//! record's one spelling in bytes.
//!
//! An `Entry` is the manager's part of one volume over its log. It has a book, which is the log with the table of what its
//! records say, a memory of what was heard, and which disks are broken. `specs/Entry` says for which manager's part an entry
//! stands, and each call says of every such part what it answers and what the entry stands for then. A step writes its record
//! before it is answered; a call on the file that fails shuts the log, until a start reads all records anew and tells whether
//! the record in doubt was found. `specs/Making` says what a making leaves, `specs/Book` what the log of a book says,
//! `specs/HeardMemory` what memory has of answers, `specs/Sending` which requests may be sent, and `specs/Places` which units and
//! disks a look and a grant show, whatever the file tells.
//!
//! Public: `Entry` with `make`, `start`, the steps `lease`, `lock`, `retarget`, `swap`, `unlock`, `ask` and `commit`, further
//! `reserve`, `hear`, `look`, `may_send`, `break_disk`, `end` and `into_file`; `Shape`, `UnitHome` and `are_first_homes` for its
//! making; `ManagerEvent`, `ManagerReply`, `EntryFault`, `View` and `LockView`; and the laws of `laws`.
#![tactic(auto)]

mod appending;
mod bid_set;
mod book;
mod counting;
#[cfg(test)]
mod cut_log_tests;
mod destinations;
mod entry;
mod entry_hear;
mod entry_lock;
mod entry_make;
#[cfg(test)]
mod entry_moves_tests;
#[cfg(test)]
mod entry_rows_tests;
mod entry_swap;
#[cfg(test)]
mod entry_tests;
mod event;
mod fault;
mod first_homes;
mod granting;
mod heard;
mod heard_bids;
mod heard_marks;
mod heard_moves;
#[cfg(test)]
mod heard_tests;
mod hearing;
mod held;
pub mod laws;
mod legal;
mod listing;
mod lock_refusal;
mod looking;
mod moving;
mod reading;
mod record;
mod refusing;
mod replaying;
mod rereading;
mod sending;
mod settling;
mod shape;
mod swap_refusal;
mod table;
#[cfg(test)]
mod tests;
mod unsettled;
mod view;
mod writing;

pub use entry::Entry;
pub use event::{ManagerEvent, ManagerReply};
pub use fault::EntryFault;
pub use first_homes::are_first_homes;
pub use record::UnitHome;
pub use shape::Shape;
pub use view::{LockView, View};
