//! Names that are entered, looked up and taken out.

use anyhow::Result;
use cluster_admin::{Admin, First, Object, Placer};
use std::alloc::Global;
use std::rt::Clock;
use std::time::{Duration, Instant};

/// How far apart in order of put the names stand that are taken out one after the other: a prime, so
/// that each comes once.
const STRIDE: usize = 65_537;

/// So many names.
fn made(alloc: Global, count: usize) -> Result<Vec<String>> {
    let mut names = Vec::with_capacity(alloc, count)?;
    for number in 0..count {
        names.push(format!(in alloc; "object-{number}")?)?;
    }
    Ok(names)
}

/// The object that is entered at a place: its place is its bid.
fn object_at(place: usize) -> Object {
    Object {
        vid: 1,
        bid: place as u64,
        size: 1,
    }
}

/// Looks the names up, and sums up their bids.
fn look_up(admin: &Admin, names: &[String]) -> Result<u64> {
    let mut sum: u64 = 0;
    for name in names {
        sum = sum.wrapping_add(admin.name(name.as_str())?.bid);
    }
    Ok(sum)
}

/// Asks for the name at each place, and sums up the bids.
fn go_through(admin: &Admin, count: usize) -> Result<u64> {
    let mut sum: u64 = 0;
    for place in 0..count as u64 {
        if let Some((_name, object)) = admin.name_at(place)? {
            sum = sum.wrapping_add(object.bid);
        }
    }
    Ok(sum)
}

/// Enters so many names, looks each up and takes each out, so many times. Answers the sum of the bids
/// and the time that it took.
pub fn turn_over<R: Clock>(
    rt: &R,
    alloc: Global,
    count: usize,
    rounds: u32,
) -> Result<(u64, Duration)> {
    let names = made(alloc, count)?;
    let first: Box<dyn Placer> = Box::new(alloc, First::new())?;
    let mut placers = Vec::new(alloc);
    placers.push(first)?;
    let mut admin = Admin::make(alloc, placers)?;
    let mut sum: u64 = 0;
    let start = Instant::now(rt)?;
    for _round in 0..rounds {
        for (place, name) in names.iter().enumerate() {
            admin.add_name(name.as_str(), object_at(place))?;
        }
        sum = sum.wrapping_add(look_up(&admin, &names)?);
        let mut place: usize = 0;
        for _step in 0..names.len() {
            place = place.wrapping_add(STRIDE) % names.len();
            sum = sum.wrapping_add(admin.remove_name(names[place].as_str())?.bid);
        }
    }
    Ok((sum, start.elapsed(rt)?))
}

/// Asks for the name at each of so many places, so many times. Answers the sum of the bids and the
/// time that it took.
pub fn find_places<R: Clock>(
    rt: &R,
    alloc: Global,
    count: usize,
    rounds: u32,
) -> Result<(u64, Duration)> {
    let names = made(alloc, count)?;
    let first: Box<dyn Placer> = Box::new(alloc, First::new())?;
    let mut placers = Vec::new(alloc);
    placers.push(first)?;
    let mut admin = Admin::make(alloc, placers)?;
    for (place, name) in names.iter().enumerate() {
        admin.add_name(name.as_str(), object_at(place))?;
    }
    let mut sum: u64 = 0;
    let start = Instant::now(rt)?;
    for _round in 0..rounds {
        sum = sum.wrapping_add(go_through(&admin, count)?);
    }
    Ok((sum, start.elapsed(rt)?))
}
