//! A blob from its put to its sweep, and what a volume is made of in the end.

use crate::MemoryVolume;
use crate::scenes::{
    BID, Got, HELLO, Put, Sweep, Told, ask, get_blob, put_blob, sweep_blob, volume,
};
use std::alloc::Global;
use std::test::Fail;
use volume_world::Event;

/// A put of a blob and a get, before its deletion is asked for.
fn kept(alloc: Global, volume: &mut MemoryVolume) -> Result<(Put, Got, Sweep), Fail> {
    let put = put_blob(alloc, volume, BID, &HELLO)?;
    let got = get_blob(volume, BID, &HELLO);
    Ok((put, got, sweep_blob(volume, BID)))
}

/// The deletion, two sweeps and a get behind it.
fn swept(volume: &mut MemoryVolume) -> (Told, Sweep, Sweep, Got) {
    let asked = ask(volume, Event::Ask { bid: BID });
    let first = sweep_blob(volume, BID);
    let second = sweep_blob(volume, BID);
    (asked, first, second, get_blob(volume, BID, &HELLO))
}

/// What is told of a blob that is kept, and of one that is swept.
type Lifetime = ((Put, Got, Sweep), (Told, Sweep, Sweep, Got));

fn lifetime(alloc: Global, volume: &mut MemoryVolume) -> Result<Lifetime, Fail> {
    let kept = kept(alloc, volume)?;
    Ok((kept, swept(volume)))
}

fn lifetime_told(alloc: Global) -> Result<Lifetime, Fail> {
    let mut volume = volume(alloc, 9, true)?;
    lifetime(alloc, &mut volume)
}

#[test]
fn a_swept_blob_is_gone(rt: HostRuntime) -> Result<(), Fail> {
    let kept = (Put::Acked(9), Got::Right, Sweep::NotAsked);
    let swept = (Told::Done, Sweep::Freed, Sweep::Freed, Got::Short(0, 0, 0));
    assert_eq!(rt; lifetime_told(rt.alloc())?, (kept, swept));
    Ok(())
}

/// How many stations a volume has, whether its manager's file is a log, and how many entries its history has.
fn parts_of(volume: MemoryVolume) -> (usize, bool, usize) {
    let (stations, file, history) = volume.into_parts();
    let is_log = file.as_slice().starts_with(b"BLOBLOG1");
    (stations.len(), is_log, history.len())
}

#[test]
fn a_volume_comes_apart(rt: HostRuntime) -> Result<(), Fail> {
    let alloc = rt.alloc();
    let mut volume = volume(alloc, 12, true)?;
    assert_eq!(rt; ask(&mut volume, Event::Lease), Told::LeaseTo(10));
    assert_eq!(rt; parts_of(volume), (12, true, 1));
    Ok(())
}
