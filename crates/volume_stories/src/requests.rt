//! Requests as rows name them.

use crate::setting::VID;
use anyhow::{Context, Result, bail};
use code_mode::Mode;
use std::alloc::Global;
use unit_id::{Bytes, Request, UnitName};

/// A number below 2^32.
pub(crate) fn small(word: &str) -> Result<u32> {
    word.parse().context("a number below 2^32 is wanted")
}

/// A number below 2^64.
pub(crate) fn large(word: &str) -> Result<u64> {
    word.parse().context("a number is wanted")
}

/// A number below 256.
pub(crate) fn index(word: &str) -> Result<u8> {
    word.parse().context("an index is wanted")
}

/// The unit of an index and an epoch.
fn unit(index_word: &str, epoch: &str) -> Result<UnitName> {
    match UnitName::new(VID, index(index_word)?, small(epoch)?) {
        Ok(unit) => Ok(unit),
        Err(_) => bail!("no unit has this epoch"),
    }
}

/// The shard of a small blob that begins with a text, with zeros behind. `-` is no text.
fn shard(alloc: Global, mode: Mode, text: &str) -> Result<Bytes> {
    let text = if text == "-" { "" } else { text };
    let mut bytes = Vec::from_slice(alloc, text.as_bytes())?;
    bytes.resize(mode.shard_size(1) as usize, 0)?;
    Ok(Bytes::from_vec(bytes))
}

/// A request that carries a shard.
fn with_shard(alloc: Global, mode: Mode, words: &[&str]) -> Result<Request> {
    match *words {
        ["put", index, epoch, disk, bid, size, text] => Ok(Request::Put {
            unit: unit(index, epoch)?,
            disk: small(disk)?,
            bid: large(bid)?,
            blob_size: small(size)?,
            bytes: shard(alloc, mode, text)?,
        }),
        ["copy", index, epoch, disk, bid, size, text] => Ok(Request::Copy {
            unit: unit(index, epoch)?,
            disk: small(disk)?,
            bid: large(bid)?,
            blob_size: small(size)?,
            bytes: shard(alloc, mode, text)?,
        }),
        _ => bail!("no such request"),
    }
}

/// A request about a unit whole.
fn about_unit(words: &[&str]) -> Result<Option<Request>> {
    Ok(match *words {
        ["create", index, epoch, disk] => Some(Request::Create {
            unit: unit(index, epoch)?,
            disk: small(disk)?,
        }),
        ["fence", index, epoch, disk, lock] => Some(Request::Fence {
            unit: unit(index, epoch)?,
            disk: small(disk)?,
            lock: large(lock)?,
        }),
        ["list", index, epoch, disk, lock] => Some(Request::List {
            unit: unit(index, epoch)?,
            disk: small(disk)?,
            lock: large(lock)?,
        }),
        ["release", index, epoch, disk] => Some(Request::Release {
            unit: unit(index, epoch)?,
            disk: small(disk)?,
        }),
        _ => None,
    })
}

/// A request about one blob, without bytes.
fn about_blob(words: &[&str]) -> Result<Option<Request>> {
    Ok(match *words {
        ["read", index, epoch, disk, bid] => Some(Request::Read {
            unit: unit(index, epoch)?,
            disk: small(disk)?,
            bid: large(bid)?,
        }),
        ["mark", index, epoch, disk, bid] => Some(Request::Mark {
            unit: unit(index, epoch)?,
            disk: small(disk)?,
            bid: large(bid)?,
        }),
        ["free", index, epoch, disk, bid] => Some(Request::Free {
            unit: unit(index, epoch)?,
            disk: small(disk)?,
            bid: large(bid)?,
        }),
        _ => None,
    })
}

/// The request of these words.
pub(crate) fn request(alloc: Global, mode: Mode, words: &[&str]) -> Result<Request> {
    if let Some(request) = about_unit(words)? {
        return Ok(request);
    }
    match about_blob(words)? {
        Some(request) => Ok(request),
        None => with_shard(alloc, mode, words),
    }
}
