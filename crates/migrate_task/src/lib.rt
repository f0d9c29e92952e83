//! One task that moves units of a volume under one lock, over any way to the volume.
//!
//! What a task asks in which order, and what each reply makes of it, stands in `specs/AdvanceCall` and, for the copies,
//! `specs/Copies`. A task keeps nothing between calls: one that ended early goes on from what the volume shows.
//!
//! `advance` is one call. `starting` has the lock in the end, `course` goes from there to the listings, and from the swap
//! to the end. `merging` says what destinations lack by listings in order (`ordered`), `rebuilding` gets a lacking shard
//! from the old unit or those of others, and `copies` does one errand behind the other. Where files tell, every shard
//! that is written is the one that belongs to its unit, of the payload with which its blob was begun (`specs/Rows`). What
//! else the parts need and say stands in `specs/TaskParts`, `specs/GatherParts` and `specs/Merging`. `specs/StandIn` is a
//! volume for the tests.
//!
//! What holds of every call stands in `laws`. A call answers that all is done exactly where its unlock was done
//! (`done_is_unlocked`, `unlocked_is_done`), and the reply to its last event tells every other answer
//! (`last_replies_tell`, `replies_end_calls`); what these say stands in `specs/Endings`. While nothing fails, one call
//! takes a task to its end that can have the lock of its volume, or has it (`tasks_get_done`): it gets the lock
//! (`tasks_get_the_lock`), swaps the units (`locked_tasks_get_swapped`), and gives up the old ones
//! (`swapped_tasks_get_done`). What it needs for that stands in `specs/Completion`.
#![tactic(auto)]

mod advancing;
mod copies;
mod copying;
mod course;
mod gathering;
mod halt;
pub mod laws;
mod listing;
mod locking;
mod merging;
mod old_shard;
mod ordered;
mod preparing;
mod rebuilding;
mod retargeting;
mod stage;
mod starting;
mod swapping;
#[cfg(test)]
mod tests;
mod usable;
mod work;

pub use advancing::advance;
pub use stage::{Stage, TaskFault, Why};
