//! Blobs that are put into a volume over files in memory, and a unit of it that moves.

ghost use Rattle.std.specs.Prelude.{◌+◌, ◌<◌, ◌≤◌, IfOk, vec_len};

use crate::code::{encode_time, rebuild_time};
use crate::data;
use crate::measure::{sum_of_copies, sum_of_crcs};
use anyhow::{Result, bail};
use code_mode::{Mode, Payload};
use memory_volume::{MemoryVolume, Setup};
use migrate_task::Stage;
use shard_record::crc32;
use std::alloc::Global;
use std::rt::Clock;
use std::time::{Duration, Instant};
use unit_id::{Bytes, Kind, Target, Targets, Task};
use volume_world::Event;

/// The mode of a volume whose units move.
const MODE: Mode = Mode::Ec6P3;

/// A disk of such a volume on which no unit stands at first.
const SPARE: u32 = 10;

/// The most bytes of a blob.
const LARGEST: usize = 4_194_304;

/// Bytes that a blob may have.
fn made_blob(alloc: Global, size: usize) -> Result<Vec<u8>>
    ensures { IfOk result (λ blob. vec_len blob ≤ 4194304) }
{
    if size < 1 || size > LARGEST {
        bail!("a blob has 1 to 4194304 bytes");
    }
    Ok(data::made(alloc, size)?)
}

/// Puts a blob.
fn put(alloc: Global, volume: &mut MemoryVolume, bid: u64, blob: &[u8]) -> Result<()> {
    let payload = Payload::Plain(Bytes::from_vec(blob.to_vec(alloc)?));
    match volume.put(bid, payload) {
        Some(Ok(_)) => Ok(()),
        _ => bail!("a put isn't acknowledged"),
    }
}

/// Puts so many blobs of these bytes.
fn fill(alloc: Global, volume: &mut MemoryVolume, blob: &[u8], blobs: u32) -> Result<()> {
    for bid in 0..blobs {
        put(alloc, volume, u64::from(bid) + 1, blob)?;
    }
    Ok(())
}

/// A volume with one disk more than units.
fn empty(alloc: Global, mode: Mode) -> Result<MemoryVolume> {
    let disks = mode.total().saturating_add(1);
    Ok(MemoryVolume::make(alloc, mode, disks, Setup::plain(alloc))?)
}

/// How many entries the history of a volume has once so many blobs are put.
fn entries_of(alloc: Global, mode: Mode, blob: &[u8], blobs: u32) -> Result<usize> {
    let mut volume = empty(alloc, mode)?;
    fill_and_count(alloc, &mut volume, blob, blobs)
}

fn fill_and_count(
    alloc: Global,
    volume: &mut MemoryVolume,
    blob: &[u8],
    blobs: u32,
) -> Result<usize> {
    fill(alloc, volume, blob, blobs)?;
    Ok(volume.history().len())
}

/// Prints how long it takes to sum up a shard so many times, and to copy it and sum up the copy as often.
fn print_parts<R: Clock + Print>(
    rt: &R,
    alloc: Global,
    name: &str,
    shard: &mut [u8],
    times: u32,
) -> Result<()> {
    let start = Instant::now(rt)?;
    let sum = sum_of_crcs(shard, times);
    let summed = start.elapsed(rt)?.as_nanos();
    println!(rt; "{name} sums {summed} ns {sum:016x}")?;
    let start = Instant::now(rt)?;
    let sum = sum_of_copies(alloc, shard, times)?;
    let copied = start.elapsed(rt)?.as_nanos();
    println!(rt; "{name} sums and copies {copied} ns {sum:016x}")?;
    Ok(())
}

/// How many of these go into a second, where all of them took so long.
fn a_second(count: u64, taken: Duration) -> u128 {
    u128::from(count) * 1_000_000_000 / taken.as_nanos().max(1)
}

/// Prints how long it took to put so many blobs of so many bytes into a volume of a mode with `n` data and `m` parity shards,
/// and how long the sums, the copies and the code of their shards take alone.
pub fn print_puts<R: Clock + Print>(
    rt: &R,
    alloc: Global,
    name: &str,
    mode: Mode,
    n: usize,
    m: usize,
    size: usize,
    blobs: u32,
) -> Result<()>
    requires { (0 < n) × (n + m ≤ 256) }
{
    let blob = made_blob(alloc, size)?;
    let start = Instant::now(rt)?;
    let entries = entries_of(alloc, mode, &blob, blobs)?;
    let taken = start.elapsed(rt)?;
    let speed = a_second(u64::from(blobs), taken);
    println!(rt;
        "{name} {} ns {entries} entries {speed} puts a second",
        taken.as_nanos()
    )?;
    let mut shard = data::made(alloc, mode.shard_size(blob.len() as u32) as usize)?;
    print_parts(
        rt,
        alloc,
        name,
        &mut shard,
        blobs.saturating_mul(mode.total()),
    )?;
    let code = encode_time(rt, alloc, n, m, shard.len(), blobs)?;
    println!(rt;
        "{name} code {} ns",
        code.as_nanos().saturating_mul(u128::from(blobs))
    )?;
    Ok(())
}

/// How many bytes a blob has that is got.
fn len_of(volume: &mut MemoryVolume, bid: u64, size: u32) -> Result<u64> {
    match volume.get(bid, size) {
        Some(Ok(bytes)) => Ok(bytes.len() as u64),
        _ => bail!("a blob isn't got"),
    }
}

/// How many bytes so many blobs have that are got.
fn len_of_all(volume: &mut MemoryVolume, size: u32, blobs: u32) -> Result<u64> {
    let mut bytes: u64 = 0;
    for bid in 0..blobs {
        bytes = bytes.wrapping_add(len_of(volume, u64::from(bid) + 1, size)?);
    }
    Ok(bytes)
}

/// Prints how long it takes to get so many blobs.
fn print_got<R: Clock + Print>(
    rt: &R,
    name: &str,
    how: &str,
    volume: &mut MemoryVolume,
    size: u32,
    blobs: u32,
) -> Result<()> {
    let start = Instant::now(rt)?;
    let bytes = len_of_all(volume, size, blobs)?;
    let taken = start.elapsed(rt)?;
    let speed = a_second(u64::from(blobs), taken);
    println!(rt;
        "{name} {how} {} ns {bytes} bytes {speed} gets a second",
        taken.as_nanos()
    )?;
    Ok(())
}

/// Gets blobs that were put, before and behind the end of a disk.
fn get_twice<R: Clock + Print>(
    rt: &R,
    alloc: Global,
    name: &str,
    volume: &mut MemoryVolume,
    blob: &[u8],
    size: u32,
    blobs: u32,
) -> Result<()> {
    fill(alloc, volume, blob, blobs)?;
    print_got(rt, name, "whole", volume, size, blobs)?;
    ask(volume, Event::Break { disk: 1 })?;
    print_got(rt, name, "rebuilt", volume, size, blobs)
}

fn put_and_get_twice<R: Clock + Print>(
    rt: &R,
    alloc: Global,
    name: &str,
    mode: Mode,
    blob: &[u8],
    size: u32,
    blobs: u32,
) -> Result<()> {
    let mut volume = empty(alloc, mode)?;
    get_twice(rt, alloc, name, &mut volume, blob, size, blobs)
}

/// Prints how long it took to get so many blobs of so many bytes from a volume of a mode with `n` data and `m` parity shards,
/// with all disks and then with a data shard of each that is rebuilt; and how long the sums, the copies and the code of the
/// shards that are read take alone.
pub fn print_gets<R: Clock + Print>(
    rt: &R,
    alloc: Global,
    name: &str,
    mode: Mode,
    n: usize,
    m: usize,
    size: usize,
    blobs: u32,
) -> Result<()>
    requires { (0 < n) × (n + m ≤ 256) }
{
    let blob = made_blob(alloc, size)?;
    let size = blob.len() as u32;
    put_and_get_twice(rt, alloc, name, mode, &blob, size, blobs)?;
    let mut shard = data::made(alloc, mode.shard_size(size) as usize)?;
    print_parts(rt, alloc, name, &mut shard, blobs.saturating_mul(mode.n()))?;
    let code = rebuild_time(rt, alloc, n, m, shard.len(), blobs)?;
    println!(rt;
        "{name} code {} ns",
        code.as_nanos().saturating_mul(u128::from(blobs))
    )?;
    Ok(())
}

/// A task that moves the unit of an index to a disk.
fn task_of(alloc: Global, kind: Kind, index: u8, disk: u32) -> Result<Task> {
    let mut targets = Vec::new(alloc);
    targets.push(Target { index, disk })?;
    Ok(Task {
        id: u64::from(index) + 1,
        kind,
        vid: 1,
        targets: Targets::from_vec(targets),
    })
}

/// Has an event happen.
fn ask(volume: &mut MemoryVolume, event: Event) -> Result<()> {
    match volume.ask(event) {
        Some(Ok(_)) => Ok(()),
        _ => bail!("an event doesn't happen"),
    }
}

/// The time of a task that is done by one call.
fn time_task<R: Clock>(rt: &R, volume: &mut MemoryVolume, task: &Task) -> Result<Duration> {
    let start = Instant::now(rt)?;
    match volume.advance(task) {
        Some(Ok(Stage::Done { units: _ })) => Ok(start.elapsed(rt)?),
        _ => bail!("a task isn't done"),
    }
}

/// Prints how long a unit's move took, and how many bytes of shards it wrote in a second.
fn print_move<R: Clock + Print>(
    rt: &R,
    how: &str,
    volume: &mut MemoryVolume,
    task: &Task,
    bytes: u64,
) -> Result<()> {
    let taken = time_task(rt, volume, task)?;
    println!(rt;
        "task {how} {} ns {} bytes a second",
        taken.as_nanos(),
        a_second(bytes, taken)
    )?;
    Ok(())
}

/// Prints how long the moves of two units take: of the first by its old unit, and of the second by rebuilding what stood on a
/// broken disk.
fn print_both<R: Clock + Print>(
    rt: &R,
    alloc: Global,
    volume: &mut MemoryVolume,
    bytes: u64,
) -> Result<()> {
    ask(volume, Event::Tick { by: 10 })?;
    let balance = task_of(alloc, Kind::Balance, 0, SPARE)?;
    print_move(rt, "old-unit", volume, &balance, bytes)?;
    ask(volume, Event::Break { disk: 2 })?;
    let repair = task_of(alloc, Kind::Repair, 1, 1)?;
    print_move(rt, "rebuilt", volume, &repair, bytes)
}

fn fill_and_move<R: Clock + Print>(
    rt: &R,
    alloc: Global,
    volume: &mut MemoryVolume,
    blob: &[u8],
    blobs: u32,
    bytes: u64,
) -> Result<()> {
    fill(alloc, volume, blob, blobs)?;
    print_both(rt, alloc, volume, bytes)
}

/// Moves two units of a volume with so many blobs.
fn move_units<R: Clock + Print>(
    rt: &R,
    alloc: Global,
    blob: &[u8],
    blobs: u32,
    bytes: u64,
) -> Result<()> {
    let mut volume = empty(alloc, MODE)?;
    fill_and_move(rt, alloc, &mut volume, blob, blobs, bytes)
}

/// Prints how long it took to move a unit with so many blobs of so many bytes, by its old unit and by rebuilding what stood
/// on a broken disk, and how long the sums, the copies and the code of the shards that are written take alone.
pub fn print_moves<R: Clock + Print>(rt: &R, alloc: Global, size: usize, blobs: u32) -> Result<()> {
    let blob = made_blob(alloc, size)?;
    let mut shard = data::made(alloc, MODE.shard_size(blob.len() as u32) as usize)?;
    let bytes = (shard.len() as u64).saturating_mul(u64::from(blobs));
    move_units(rt, alloc, &blob, blobs, bytes)?;
    print_parts(rt, alloc, "task", &mut shard, blobs)?;
    let code = rebuild_time(rt, alloc, 6, 3, shard.len(), blobs)?;
    println!(rt;
        "task code {} ns",
        code.as_nanos().saturating_mul(u128::from(blobs))
    )?;
    Ok(())
}

/// The CRC of a blob that was put.
fn crc_of(volume: &mut MemoryVolume, bid: u64, size: u32) -> Result<u64> {
    match volume.get(bid, size) {
        Some(Ok(bytes)) => Ok(u64::from(crc32(bytes.as_slice()))),
        _ => bail!("a blob isn't got"),
    }
}

/// The sum of the CRCs of so many blobs, and of the length of the history behind them.
fn sum_of_blobs(volume: &mut MemoryVolume, size: u32, blobs: u32) -> Result<u64> {
    let mut sum: u64 = 0;
    for bid in 0..blobs {
        sum = sum.wrapping_add(crc_of(volume, u64::from(bid) + 1, size)?);
    }
    Ok(sum.wrapping_add(volume.history().len() as u64))
}

/// Puts and gets four blobs, with a tick in between.
fn put_and_get(alloc: Global, volume: &mut MemoryVolume, blob: &[u8], size: u32) -> Result<u64> {
    fill(alloc, volume, blob, 4)?;
    ask(volume, Event::Tick { by: 10 })?;
    sum_of_blobs(volume, size, 4)
}

/// The sum over four blobs of so many bytes that are put and got.
pub fn sum_of_volume(alloc: Global, size: u32) -> Result<u64> {
    let blob = made_blob(alloc, size as usize)?;
    let mut volume = empty(alloc, MODE)?;
    put_and_get(alloc, &mut volume, &blob, size)
}
