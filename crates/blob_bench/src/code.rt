//! How long it takes to fill sets of shards and to rebuild one.

ghost use Rattle.std.specs.Prelude.{◌≡◌, ◌+◌, ◌<◌, ◌≤◌, length, IfOk};

use crate::data;
use anyhow::Result;
use rs_code::{Coder, Shards};
use shard_record::crc32;
use std::alloc::Global;
use std::rt::Clock;
use std::time::{Duration, Instant};
use unit_id::Bytes;

/// What is done to a set of shards.
#[derive(Clone, Copy)]
enum Job {
    /// The parity shards are added to the data shards.
    Encode,
    /// The first shard is rebuilt.
    RebuildOne,
    /// The first shards are added, as many as may be lost.
    RebuildAll,
}

/// How many rows a coder keeps whose rows are ready.
const KEPT: usize = 64;

impl Job {
    /// The word that stands for it in a line.
    fn name(self) -> &'static str {
        match self {
            Job::Encode => "encode",
            Job::RebuildOne => "rebuild-one",
            Job::RebuildAll => "rebuild-all",
        }
    }

    /// The first index that isn't held, and how many from there on aren't.
    fn lost(self, n: usize, m: usize) -> (usize, usize) {
        match self {
            Job::Encode => (n, m),
            Job::RebuildOne => (0, 1),
            Job::RebuildAll => (0, m),
        }
    }
}

/// The shards of made bytes, with those of parity.
fn full_set(alloc: Global, n: usize, m: usize, size: usize) -> Result<Shards>
    requires { n + m ≤ 256 }
{
    let mut coder = Coder::new(alloc, n, m, 1)?;
    let mut shards = data_set(alloc, n, n + m, size)?;
    coder.fill(&mut shards)?;
    Ok(shards)
}

/// So many shards of made bytes, the first ones of a set.
fn data_set(alloc: Global, n: usize, total: usize, size: usize) -> Result<Shards>
    ensures { IfOk result (λ shards. length shards ≡ total) }
{
    let mut shards = Shards::make(alloc, total);
    for k in 0..n {
        let mut bytes = data::made(alloc, size)?;
        if let Some(first) = bytes.first_mut() {
            *first = (k % 256) as u8;
        }
        shards.add(k, Bytes::from_vec(bytes))?;
    }
    Ok(shards)
}

/// The shards of a set but for some from an index on.
fn without(alloc: Global, full: &Shards, total: usize, lost: (usize, usize)) -> Result<Shards>
    ensures { IfOk result (λ shards. length shards ≡ total) }
{
    let mut shards = Shards::make(alloc, total);
    for k in 0..total {
        let is_lost = lost.0 <= k && k - lost.0 < lost.1;
        if !is_lost && let Some(bytes) = full.get(k) {
            shards.add(k, Bytes::from_vec(Vec::from_slice(alloc, bytes)?))?;
        }
    }
    Ok(shards)
}

/// The time of one call.
fn time_call<R: Clock>(rt: &R, coder: &mut Coder, shards: &mut Shards, job: Job) -> Result<Duration>
    requires total { length shards.old ≡ coder.old.data_shards + coder.old.parity_shards }
    requires some { 0 < length shards.old }
    ensures data { coder.new.data_shards ≡ coder.old.data_shards }
    ensures parity { coder.new.parity_shards ≡ coder.old.parity_shards }
{
    let start = Instant::now(rt)?;
    match job {
        Job::RebuildOne => {
            let _bytes = coder.rebuild(shards, 0)?;
        }
        _ => coder.fill(shards)?,
    }
    Ok(start.elapsed(rt)?)
}

/// The least time of a call over so many, with a coder whose rows are ready or with a new one each time.
fn least_time<R: Clock>(
    rt: &R,
    alloc: Global,
    full: &Shards,
    n: usize,
    m: usize,
    job: Job,
    ready: bool,
    rounds: u32,
) -> Result<Duration>
    requires { (0 < n) × (n + m ≤ 256) }
{
    let mut coder = Coder::new(alloc, n, m, KEPT)?;
    let mut least = Duration::MAX;
    for _ in 0..rounds {
        let mut shards = without(alloc, full, n + m, job.lost(n, m))?;
        if !ready {
            coder = Coder::new(alloc, n, m, KEPT)?;
        }
        least = least.min(time_call(rt, &mut coder, &mut shards, job)?);
    }
    Ok(least)
}

/// The least time in which the parity of a set is made, whose shards have so many bytes.
pub fn encode_time<R: Clock>(
    rt: &R,
    alloc: Global,
    n: usize,
    m: usize,
    size: usize,
    rounds: u32,
) -> Result<Duration>
    requires { (0 < n) × (n + m ≤ 256) }
{
    let full = full_set(alloc, n, m, size)?;
    least_time(rt, alloc, &full, n, m, Job::Encode, true, rounds)
}

/// The least time in which a shard of such a set is rebuilt.
pub fn rebuild_time<R: Clock>(
    rt: &R,
    alloc: Global,
    n: usize,
    m: usize,
    size: usize,
    rounds: u32,
) -> Result<Duration>
    requires { (0 < n) × (n + m ≤ 256) }
{
    let full = full_set(alloc, n, m, size)?;
    least_time(rt, alloc, &full, n, m, Job::RebuildOne, true, rounds)
}

/// Prints the least time of a call for each job of a shape, with ready rows and without.
fn print_shape<R: Clock + Print>(
    rt: &R,
    alloc: Global,
    name: &str,
    n: usize,
    m: usize,
    size: usize,
    rounds: u32,
) -> Result<()>
    requires { (0 < n) × (n + m ≤ 256) }
{
    let full = full_set(alloc, n, m, size)?;
    for job in [Job::Encode, Job::RebuildOne, Job::RebuildAll] {
        let ready = least_time(rt, alloc, &full, n, m, job, true, rounds)?;
        println!(rt; "{name} {} ready {size} {}", job.name(), ready.as_nanos())?;
        let made = least_time(rt, alloc, &full, n, m, job, false, rounds)?;
        println!(rt; "{name} {} made {size} {}", job.name(), made.as_nanos())?;
    }
    Ok(())
}

/// Prints a line for each shape, job and state of the coder's rows: these three, the bytes of a shard and
/// the nanoseconds of a call.
pub fn print_speeds<R: Clock + Print>(
    rt: &R,
    alloc: Global,
    size: usize,
    rounds: u32,
) -> Result<()> {
    print_shape(rt, alloc, "EC6P3", 6, 3, size, rounds)?;
    print_shape(rt, alloc, "EC12P4", 12, 4, size, rounds)?;
    print_shape(rt, alloc, "EC15P12", 15, 12, size, rounds)
}

/// The sum of the CRCs of all shards of a set.
pub fn sum_of_set(alloc: Global, size: usize) -> Result<u64> {
    let full = full_set(alloc, 15, 12, size)?;
    let mut sum: u64 = 0;
    for k in 0..27 {
        if let Some(bytes) = full.get(k) {
            sum = sum.wrapping_add(u64::from(crc32(bytes)));
        }
    }
    Ok(sum)
}
