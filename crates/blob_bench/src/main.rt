//! Measures parts of the store over made data.
//!
//! `blob_bench MEASURE SIZE ROUNDS` runs a measure that many rounds over that many bytes, and prints
//! the sum of its results and the bytes a second. Without words each measure runs over a set size and
//! only the sums are printed, which are the same on every machine. Measures: `crc`, `copy`, `chunk`,
//! `chunk-start`, `turn`, for which SIZE is the turns of each thread and ROUNDS the number of threads, and
//! `admin` and `admin-at`, for which SIZE is the number of names, and `code`, which prints the least
//! nanoseconds of ROUNDS calls over shards of SIZE bytes for each job. `world` puts ROUNDS blobs of SIZE bytes into a volume
//! of EC6P3 over files in memory, `world-widest` into one of EC15P12; `put` does so in EC6P3 and EC12P4, and `get` puts such
//! blobs and gets them, with all disks and with one broken; `task` moves units of a volume of EC6P3. All of these print the
//! parts of their time.
#![tactic(auto)]

mod code;
mod data;
mod measure;
mod names;
mod turns;
mod worlds;

use anyhow::{Context, Result, bail};
use code_mode::Mode;
use measure::Measure;
use std::alloc::Global;
use std::env;
use std::rt::Clock;
use std::sync::Wait;
use std::thread::Threads;

fn main(rt: HostRuntime) -> Result<()> {
    let mut words = env::args(&rt)?.skip(1);
    let Some(name) = words.next() else {
        return print_sums(&rt, rt.alloc());
    };
    let (Some(size), Some(rounds), None) = (words.next(), words.next(), words.next()) else {
        bail!("usage: blob_bench [MEASURE SIZE ROUNDS]");
    };
    let size = size.as_str().parse().context("SIZE is a number")?;
    let rounds = rounds.as_str().parse().context("ROUNDS is a number")?;
    match name.as_str() {
        "code" => return code::print_speeds(&rt, rt.alloc(), size, rounds),
        "world" => {
            return worlds::print_puts(&rt, rt.alloc(), "world", Mode::Ec6P3, 6, 3, size, rounds);
        }
        "world-widest" => {
            return worlds::print_puts(
                &rt,
                rt.alloc(),
                "world",
                Mode::Ec15P12,
                15,
                12,
                size,
                rounds,
            );
        }
        "put" => return print_puts(&rt, rt.alloc(), size, rounds),
        "get" => return print_gets(&rt, rt.alloc(), size, rounds),
        "task" => return worlds::print_moves(&rt, rt.alloc(), size, rounds),
        _ => {}
    }
    let measure = Measure::read_name(name.as_str()).context("no such measure")?;
    print_speed(&rt, rt.alloc(), measure, size, rounds)
}

/// Prints what puts into volumes of two modes take.
fn print_puts<R: Clock + Print>(rt: &R, alloc: Global, size: usize, blobs: u32) -> Result<()> {
    worlds::print_puts(rt, alloc, "put EC6P3", Mode::Ec6P3, 6, 3, size, blobs)?;
    worlds::print_puts(rt, alloc, "put EC12P4", Mode::Ec12P4, 12, 4, size, blobs)
}

/// Prints what gets from volumes of two modes take.
fn print_gets<R: Clock + Print>(rt: &R, alloc: Global, size: usize, blobs: u32) -> Result<()> {
    worlds::print_gets(rt, alloc, "get EC6P3", Mode::Ec6P3, 6, 3, size, blobs)?;
    worlds::print_gets(rt, alloc, "get EC12P4", Mode::Ec12P4, 12, 4, size, blobs)
}

/// Prints the sum of each measure over the set size.
fn print_sums<R: Threads + Wait + Sync + Clock + Print>(rt: &R, alloc: Global) -> Result<()> {
    for measure in Measure::ALL {
        let (size, rounds) = measure.set_run();
        let outcome = measure.run(rt, alloc, size, rounds)?;
        println!(rt; "{} {:016x}", measure.name(), outcome.sum)?;
    }
    println!(rt; "code {:016x}", code::sum_of_set(alloc, 1_000)?)?;
    println!(rt; "world {:016x}", worlds::sum_of_volume(alloc, 1_000)?)?;
    Ok(())
}

/// Prints the sum of a measure and how much it went over in a second.
fn print_speed<R: Threads + Wait + Sync + Clock + Print>(
    rt: &R,
    alloc: Global,
    measure: Measure,
    size: usize,
    rounds: u32,
) -> Result<()> {
    let outcome = measure.run(rt, alloc, size, rounds)?;
    let gone_over = size as u128 * u128::from(rounds);
    let nanos = outcome.taken.as_nanos().max(1);
    let speed = gone_over * 1_000_000_000 / nanos;
    println!(rt;
        "{} {:016x} {speed} {} a second",
        measure.name(),
        outcome.sum,
        measure.unit()
    )?;
    Ok(())
}
