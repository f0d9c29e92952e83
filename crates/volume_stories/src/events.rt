//! Events as rows name them.

use crate::requests::{index, large, request, small};
use anyhow::{Context, Result, bail};
use blob_node::Fate;
use code_mode::{Mode, Payload};
use std::alloc::Global;
use unit_id::{Bytes, Target, Targets};
use volume_world::Event;

/// The fate of a name.
fn fate(word: &str) -> Result<Fate> {
    Ok(match word {
        "pass" => Fate::Pass,
        "lose" => Fate::Lose,
        "lose-reply" => Fate::LoseReply,
        "late-reply" => Fate::LateReply,
        "late-request" => Fate::LateRequest,
        "again" => Fate::Again,
        "slow" => Fate::Slow,
        _ => bail!("no such fate"),
    })
}

/// The bytes of a text, as what a put writes.
pub(crate) fn payload(alloc: Global, text: &str) -> Result<Payload> {
    let bytes = Vec::from_slice(alloc, text.as_bytes())?;
    Ok(Payload::Plain(Bytes::from_vec(bytes)))
}

/// One target, INDEX:DISK.
fn target(word: &str) -> Result<Target> {
    let (place, disk) = word.split_once(':').context("a target is INDEX:DISK")?;
    Ok(Target {
        index: index(place)?,
        disk: small(disk)?,
    })
}

/// Targets with commas between.
pub(crate) fn targets(alloc: Global, word: &str) -> Result<Targets> {
    let mut targets = Vec::new(alloc);
    for one in word.split(',') {
        targets.push(target(one)?)?;
    }
    Ok(Targets::from_vec(targets))
}

/// An event of puts and deletions.
fn about_blobs(alloc: Global, words: &[&str]) -> Result<Option<Event>> {
    Ok(match *words {
        ["lease"] => Some(Event::Lease),
        ["begin", bid, text] => Some(Event::Begin {
            bid: large(bid)?,
            payload: payload(alloc, text)?,
        }),
        ["end", bid] => Some(Event::End { bid: large(bid)? }),
        ["ask", bid] => Some(Event::Ask { bid: large(bid)? }),
        ["commit", bid] => Some(Event::Commit { bid: large(bid)? }),
        _ => None,
    })
}

/// An event of a task.
fn about_tasks(alloc: Global, words: &[&str]) -> Result<Option<Event>> {
    Ok(match *words {
        ["lock", task, moved] => Some(Event::Lock {
            task: large(task)?,
            targets: targets(alloc, moved)?,
        }),
        ["retarget", task, place, disk] => Some(Event::Retarget {
            task: large(task)?,
            index: index(place)?,
            disk: small(disk)?,
        }),
        ["swap", task] => Some(Event::Swap { task: large(task)? }),
        ["unlock", task] => Some(Event::Unlock { task: large(task)? }),
        _ => None,
    })
}

/// An event of the clock, of messages and of disks.
fn about_the_rest(words: &[&str]) -> Result<Option<Event>> {
    Ok(match *words {
        ["tick", by] => Some(Event::Tick { by: small(by)? }),
        ["plan", disk, planned, count] => Some(Event::Plan {
            disk: small(disk)?,
            fate: fate(planned)?,
            count: small(count)?,
        }),
        ["flush"] => Some(Event::FlushOne),
        ["break", disk] => Some(Event::Break { disk: small(disk)? }),
        ["restart", "manager"] => Some(Event::RestartManager),
        ["restart", disk] => Some(Event::Restart { disk: small(disk)? }),
        ["look"] => Some(Event::Look),
        _ => None,
    })
}

/// The event of these words, where they name one.
pub(crate) fn event(alloc: Global, mode: Mode, words: &[&str]) -> Result<Option<Event>> {
    if let Some(event) = about_blobs(alloc, words)? {
        return Ok(Some(event));
    }
    if let Some(event) = about_tasks(alloc, words)? {
        return Ok(Some(event));
    }
    if let Some(event) = about_the_rest(words)? {
        return Ok(Some(event));
    }
    match words {
        ["send", rest @ ..] => Ok(Some(Event::Send {
            request: request(alloc, mode, rest)?,
        })),
        _ => Ok(None),
    }
}
