//! How puts begin, how the clock goes on, and what a volume replies for its manager.

use crate::beginning::begin_put;
use crate::clock::later;
use crate::puts::PutBook;
use crate::replying::{start_refusal, step_reply};
use crate::{Reply, StepFault};
use std::test::Fail;
use unit_id::{Homes, Moves};
use volume_entry::{EntryFault, LockView, ManagerReply, View};

const BID: u64 = 7;

/// A volume whose lease ends at 10, with this task's lock or none.
fn view(task: Option<u64>) -> View {
    let held = match task {
        Some(task) => Some(LockView {
            task,
            lock: 1,
            moves: Moves::empty(),
            swapped: false,
        }),
        None => None,
    };
    View {
        now: 3,
        version: 1,
        lease: 10,
        held,
        units: Homes::empty(),
    }
}

/// A reply in a word and a number.
fn words(reply: &Reply) -> (&'static str, u64) {
    match reply {
        Reply::Begun { end, .. } => ("begun", *end),
        Reply::BeginTwice => ("twice", 0),
        Reply::Locked { task } => ("locked", *task),
        Reply::NotCopied { bid } => ("not copied", *bid),
        Reply::Spoiled { place } => ("spoiled", *place),
        Reply::Fault => ("fault", 0),
        _ => ("other", 0),
    }
}

/// An answer in the same words.
fn answer_words(answer: &Result<Reply, StepFault>) -> (&'static str, u64) {
    match answer {
        Ok(reply) => words(reply),
        Err(StepFault::Memory) => ("memory", 0),
        Err(StepFault::HistoryFull) => ("full", 0),
    }
}

#[test]
fn a_put_begins_once_and_under_no_lock(rt: HostRuntime) -> Result<(), Fail> {
    let mut puts = PutBook::none(rt.alloc());
    let refused = begin_put(&mut puts, BID, view(Some(5)))?;
    assert_eq!(rt; words(&refused), ("locked", 5));
    let first = begin_put(&mut puts, BID, view(None))?;
    assert_eq!(rt; words(&first), ("begun", 10));
    let second = begin_put(&mut puts, BID, view(None))?;
    assert_eq!(rt; words(&second), ("twice", 0));
    Ok(())
}

#[test]
fn the_clock_stands_still_at_last(rt: HostRuntime) -> Result<(), Fail> {
    assert_eq!(rt; later(5, 7), 12);
    assert_eq!(rt; later((1 << 62) - 3, 7), 1 << 62);
    Ok(())
}

#[test]
fn a_volume_replies_for_its_manager(rt: HostRuntime) -> Result<(), Fail> {
    let refused = step_reply(Ok(ManagerReply::NotCopied { bid: 9 }));
    assert_eq!(rt; answer_words(&refused), ("not copied", 9));
    let spoiled = start_refusal(EntryFault::Spoiled { place: 40 });
    assert_eq!(rt; answer_words(&spoiled), ("spoiled", 40));
    Ok(())
}
