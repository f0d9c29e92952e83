//! The volume of a story, as its line says.

use crate::requests::{large, small};
use anyhow::{Context, Result, bail};
use code_mode::Mode;
use memory_volume::{MemoryVolume, Setup};
use std::alloc::Global;

/// The number of every volume.
pub(crate) const VID: u32 = 1;

/// The calls that fail, with commas between.
fn calls(alloc: Global, word: &str) -> Result<Vec<u64>> {
    let mut calls = Vec::new(alloc);
    for call in word.split(',') {
        calls.push(large(call)?)?;
    }
    Ok(calls)
}

/// What the words behind the disks say of a volume.
fn setup(alloc: Global, words: &[&str]) -> Result<Setup> {
    let mut setup = Setup::plain(alloc);
    match *words {
        [] => {}
        ["lying"] => setup.tells = false,
        ["log-fails", failing] => setup.log_fails = calls(alloc, failing)?,
        ["disk-fails", disk, failing] => {
            setup.failing_disk = small(disk)?;
            setup.disk_fails = calls(alloc, failing)?;
        }
        ["epoch", epoch] => setup.first_epoch = small(epoch)?,
        _ => bail!("a volume isn't set up so"),
    }
    Ok(setup)
}

/// The mode of a volume's line.
pub(crate) fn mode(words: &[&str]) -> Result<Mode> {
    match words {
        ["volume", name, ..] => Mode::read_name(name).context("no such mode"),
        _ => bail!("a story begins with its volume"),
    }
}

/// The volume of such a line, where it can be made.
pub(crate) fn volume(alloc: Global, words: &[&str]) -> Result<Option<MemoryVolume>> {
    let mode = mode(words)?;
    match words {
        ["volume", _, "disks", disks, rest @ ..] => {
            let setup = setup(alloc, rest)?;
            Ok(MemoryVolume::make(alloc, mode, small(disks)?, setup).ok())
        }
        _ => bail!("a volume has a number of disks"),
    }
}
