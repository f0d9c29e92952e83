//! Calls over a volume, as rows name them, and what they tell.

use crate::events::{event, payload, targets};
use crate::requests::{index, large, small};
use crate::setting::VID;
use crate::words::{get_text, home_text, put_text, stage_text, step_text, sweep_text};
use anyhow::{Result, bail};
use memory_volume::MemoryVolume;
use std::alloc::{AllocError, Global};
use unit_id::{Kind, Task};
use volume_world::{Event, StepFault};

/// What is told of what doesn't fit the volume.
fn unfit(alloc: Global) -> Result<String, AllocError> {
    String::from_str(alloc, "unfit")
}

/// An event happens.
fn ask(alloc: Global, volume: &mut MemoryVolume, event: Event) -> Result<String, AllocError> {
    match volume.ask(event) {
        Some(step) => step_text(alloc, step),
        None => unfit(alloc),
    }
}

/// A blob of these bytes is put.
fn put(alloc: Global, volume: &mut MemoryVolume, bid: u64, text: &str) -> Result<String> {
    let payload = payload(alloc, text)?;
    match volume.put(bid, payload) {
        Some(put) => Ok(put_text(alloc, put)?),
        None => Ok(unfit(alloc)?),
    }
}

/// A blob is got that should have these bytes.
fn get(alloc: Global, volume: &mut MemoryVolume, bid: u64, text: &str) -> Result<String> {
    let size = u32::try_from(text.len())?;
    match volume.get(bid, size) {
        Some(got) => Ok(get_text(alloc, got, text.as_bytes())?),
        None => Ok(unfit(alloc)?),
    }
}

/// What is done with each of some blobs.
#[derive(Clone, Copy)]
enum Access {
    Put,
    Get,
}

/// One of these blobs is put with these bytes, or got as one that should have them.
fn access_one(
    alloc: Global,
    volume: &mut MemoryVolume,
    access: Access,
    bid: u64,
    text: &str,
) -> Result<String> {
    match access {
        Access::Put => put(alloc, volume, bid, text),
        Access::Get => get(alloc, volume, bid, text),
    }
}

/// The first of what was told that isn't what was told before, or else the last.
fn access_each(
    alloc: Global,
    volume: &mut MemoryVolume,
    access: Access,
    from: u32,
    to: u32,
    text: &str,
) -> Result<String> {
    let mut told = access_one(alloc, volume, access, u64::from(from), text)?;
    for bid in from..to {
        let next = access_one(alloc, volume, access, u64::from(bid) + 1, text)?;
        if next.as_str() != told.as_str() {
            return Ok(next);
        }
        told = next;
    }
    Ok(told)
}

/// A task by its kind's name.
fn task(alloc: Global, id: &str, kind: &str, moved: &str) -> Result<Task> {
    let kind = match kind {
        "balance" => Kind::Balance,
        "drop" => Kind::Drop,
        "repair" => Kind::Repair,
        _ => bail!("no such kind of task"),
    };
    Ok(Task {
        id: large(id)?,
        kind,
        vid: VID,
        targets: targets(alloc, moved)?,
    })
}

/// A task goes on.
fn advance(alloc: Global, volume: &mut MemoryVolume, task: &Task) -> Result<String, AllocError> {
    match volume.advance(task) {
        Some(stage) => stage_text(alloc, stage),
        None => unfit(alloc),
    }
}

/// A blob is swept.
fn sweep(alloc: Global, volume: &mut MemoryVolume, bid: u64) -> Result<String, AllocError> {
    match volume.sweep(bid) {
        Some(swept) => sweep_text(alloc, swept),
        None => unfit(alloc),
    }
}

/// Room is made in the history.
fn reserve(alloc: Global, volume: &mut MemoryVolume, entries: u32) -> Result<String, AllocError> {
    match volume.reserve(entries as usize) {
        Ok(()) => String::from_str(alloc, "ok"),
        Err(StepFault::HistoryFull) => String::from_str(alloc, "history-full"),
        Err(StepFault::Memory) => String::from_str(alloc, "no memory"),
    }
}

/// How many entries the history has.
fn entries(alloc: Global, volume: &MemoryVolume) -> Result<String, AllocError> {
    format!(in alloc; "{}", volume.history().len())
}

/// Where the unit of an index stands, by a look.
fn home(alloc: Global, volume: &mut MemoryVolume, place: u8) -> Result<String, AllocError> {
    match volume.ask(Event::Look) {
        Some(Ok(reply)) => home_text(alloc, &reply, place),
        Some(Err(fault)) => step_text(alloc, Err(fault)),
        None => unfit(alloc),
    }
}

/// What the calls on blobs tell, where the words name one.
fn about_blobs(alloc: Global, volume: &mut MemoryVolume, words: &[&str]) -> Result<Option<String>> {
    Ok(match *words {
        ["put", bid, text] => Some(put(alloc, volume, large(bid)?, text)?),
        ["get", bid, text] => Some(get(alloc, volume, large(bid)?, text)?),
        ["puts", from, to, text] => {
            let (from, to) = (small(from)?, small(to)?);
            Some(access_each(alloc, volume, Access::Put, from, to, text)?)
        }
        ["gets", from, to, text] => {
            let (from, to) = (small(from)?, small(to)?);
            Some(access_each(alloc, volume, Access::Get, from, to, text)?)
        }
        ["sweep", bid] => Some(sweep(alloc, volume, large(bid)?)?),
        _ => None,
    })
}

/// What a row tells.
pub(crate) fn told(alloc: Global, volume: &mut MemoryVolume, words: &[&str]) -> Result<String> {
    if let Some(told) = about_blobs(alloc, volume, words)? {
        return Ok(told);
    }
    if let Some(event) = event(alloc, volume.mode(), words)? {
        return Ok(ask(alloc, volume, event)?);
    }
    match *words {
        ["advance", id, kind, moved] => {
            Ok(advance(alloc, volume, &task(alloc, id, kind, moved)?)?)
        }
        ["reserve", count] => Ok(reserve(alloc, volume, small(count)?)?),
        ["home", place] => Ok(home(alloc, volume, index(place)?)?),
        ["entries"] => Ok(entries(alloc, volume)?),
        _ => bail!("a row isn't in the language"),
    }
}
