//! What can be measured.

use crate::data;
use crate::names::{find_places, turn_over};
use crate::turns::count_steps;
use anyhow::{Result, bail};
use chunk_store::Chunk;
use disk_base::MemFile;
use shard_record::crc32;
use std::alloc::Global;
use std::rt::Clock;
use std::sync::Wait;
use std::thread::Threads;
use std::time::{Duration, Instant};
use unit_id::UnitName;

/// The most bytes of a shard.
const LARGEST: usize = 4_194_304;

/// A part of the store that is run over and over.
#[derive(Clone, Copy)]
pub enum Measure {
    /// The sum of records.
    Crc,
    /// The sum and one copy, which each put of a shard needs at least.
    Copy,
    /// Shards that are put into a chunk over a file in memory.
    Chunk,
    /// The start of a chunk with so many shards.
    ChunkStart,
    /// Turns of threads.
    Turn,
    /// Names that are entered, looked up and taken out.
    Admin,
    /// The names at each place in order of put.
    AdminAt,
}

/// What a run of a measure gave: a sum of its results, and the time that it took.
#[derive(Clone, Copy)]
pub struct Outcome {
    pub sum: u64,
    pub taken: Duration,
}

impl Measure {
    pub const ALL: [Measure; 7] = [
        Measure::Crc,
        Measure::Copy,
        Measure::Chunk,
        Measure::ChunkStart,
        Measure::Turn,
        Measure::Admin,
        Measure::AdminAt,
    ];

    /// The measure of this name.
    pub fn read_name(name: &str) -> Option<Measure> {
        match name {
            "crc" => Some(Measure::Crc),
            "copy" => Some(Measure::Copy),
            "chunk" => Some(Measure::Chunk),
            "chunk-start" => Some(Measure::ChunkStart),
            "turn" => Some(Measure::Turn),
            "admin" => Some(Measure::Admin),
            "admin-at" => Some(Measure::AdminAt),
            _ => None,
        }
    }

    /// The word that asks for the measure.
    pub fn name(self) -> &'static str {
        match self {
            Measure::Crc => "crc",
            Measure::Copy => "copy",
            Measure::Chunk => "chunk",
            Measure::ChunkStart => "chunk-start",
            Measure::Turn => "turn",
            Measure::Admin => "admin",
            Measure::AdminAt => "admin-at",
        }
    }

    /// What it goes over.
    pub fn unit(self) -> &'static str {
        match self {
            Measure::Turn => "turns",
            Measure::Admin | Measure::AdminAt => "names",
            _ => "bytes",
        }
    }

    /// The size and the rounds of a run without words.
    pub fn set_run(self) -> (usize, u32) {
        match self {
            Measure::Turn => (1_000, 4),
            Measure::Admin | Measure::AdminAt => (1_000, 8),
            _ => (65_536, 8),
        }
    }

    /// Runs the measure `rounds` times over `size` made bytes or names; of turns, in `rounds` threads, `size` turns each.
    pub fn run<R: Threads + Wait + Sync + Clock>(
        self,
        rt: &R,
        alloc: Global,
        size: usize,
        rounds: u32,
    ) -> Result<Outcome> {
        match self {
            Measure::Turn => time_turns(rt, alloc, size, rounds),
            Measure::Admin => {
                let (sum, taken) = turn_over(rt, alloc, size, rounds)?;
                Ok(Outcome { sum, taken })
            }
            Measure::AdminAt => {
                let (sum, taken) = find_places(rt, alloc, size, rounds)?;
                Ok(Outcome { sum, taken })
            }
            _ => self.time_bytes(rt, alloc, size, rounds),
        }
    }

    /// Runs a measure that goes over bytes.
    fn time_bytes<R: Clock>(
        self,
        rt: &R,
        alloc: Global,
        size: usize,
        rounds: u32,
    ) -> Result<Outcome> {
        let mut bytes = data::made(alloc, size)?;
        if let Measure::ChunkStart = self {
            let chunk = chunk_with(alloc, &bytes, rounds)?;
            return start_again(rt, chunk);
        }
        let start = Instant::now(rt)?;
        let sum = match self {
            Measure::Crc => sum_of_crcs(&mut bytes, rounds),
            Measure::Copy => sum_of_copies(alloc, &mut bytes, rounds)?,
            _ => rows_of(&chunk_with(alloc, &bytes, rounds)?)?,
        };
        Ok(Outcome {
            sum,
            taken: start.elapsed(rt)?,
        })
    }
}

/// The sum is the number of turns.
fn time_turns<R: Threads + Wait + Sync + Clock>(
    rt: &R,
    alloc: Global,
    size: usize,
    rounds: u32,
) -> Result<Outcome> {
    let start = Instant::now(rt)?;
    let sum = count_steps(rt, alloc, rounds, size);
    Ok(Outcome {
        sum,
        taken: start.elapsed(rt)?,
    })
}

/// Sums up the CRCs of the bytes, whose first is another one in each round.
pub fn sum_of_crcs(bytes: &mut [u8], rounds: u32) -> u64 {
    let mut sum: u64 = 0;
    for round in 0..rounds {
        if let Some(first) = bytes.first_mut() {
            *first = (round % 256) as u8;
        }
        sum = sum.wrapping_add(u64::from(crc32(bytes)));
    }
    sum
}

/// The same over a copy of the bytes in each round.
pub fn sum_of_copies(alloc: Global, bytes: &mut [u8], rounds: u32) -> Result<u64> {
    let mut sum: u64 = 0;
    for round in 0..rounds {
        if let Some(first) = bytes.first_mut() {
            *first = (round % 256) as u8;
        }
        let copy = bytes.to_vec(alloc)?;
        sum = sum.wrapping_add(u64::from(crc32(&copy)));
    }
    Ok(sum)
}

/// A chunk over a file in memory with these bytes as the shard of so many blobs.
fn chunk_with(alloc: Global, shard: &[u8], rows: u32) -> Result<Chunk<MemFile>> {
    if shard.is_empty() || shard.len() > LARGEST {
        bail!("a shard has 1 to 4194304 bytes");
    }
    let file = MemFile::new(alloc, Vec::new(alloc));
    let mut chunk = Chunk::over(alloc, file, UnitName::new(1, 0, 1)?);
    chunk.start()?;
    for row in 0..rows {
        if chunk.is_shut() || chunk.is_released() {
            bail!("the chunk takes no shard");
        }
        chunk.put(u64::from(row) + 1, 1, shard)?;
    }
    Ok(chunk)
}

/// How many live rows a chunk has.
fn rows_of(chunk: &Chunk<MemFile>) -> Result<u64> {
    let (live, _deleted) = chunk.list()?;
    Ok(live.len() as u64)
}

/// Starts a chunk once more, and takes the time of that alone.
fn start_again<R: Clock>(rt: &R, chunk: Chunk<MemFile>) -> Result<Outcome> {
    let mut chunk = chunk;
    let start = Instant::now(rt)?;
    chunk.start()?;
    let taken = start.elapsed(rt)?;
    Ok(Outcome {
        sum: rows_of(&chunk)?,
        taken,
    })
}
