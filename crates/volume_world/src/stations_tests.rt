//! Two stations over shelves in memory: which one answers, a disk that breaks, and a record in doubt.

ghost use Rattle.std.specs.Prelude.{◌≡◌, IfOk, true};
ghost use Rattle.volume_world.specs.Stations.{HasDisk};

use crate::stations::Stations;
use blob_node::Station;
use disk_base::{MemShelf, NoMemory};
use std::alloc::Global;
use std::test::Fail;
use unit_id::{Answer, Bytes, Request, UnitName};

/// Call `c` of the first file that a shelf hands out fails where it is told this number more.
const FIRST_FILE: u64 = 0x1_0000_0000;

/// What is heard of an answer.
#[derive(Clone, Copy, Debug, PartialEq, Eq)]
enum Heard {
    Done,
    Live,
    Absent,
    NoUnit,
    Broken,
    Fault,
    /// There is no such disk.
    NoDisk,
    Other,
}

fn word(answer: Result<Answer, NoMemory>) -> Result<Heard, Fail> {
    Ok(match answer? {
        Answer::Done => Heard::Done,
        Answer::Live { .. } => Heard::Live,
        Answer::Absent => Heard::Absent,
        Answer::NoUnit => Heard::NoUnit,
        Answer::Broken => Heard::Broken,
        Answer::Fault => Heard::Fault,
        _ => Heard::Other,
    })
}

/// The stations of volume 1 on two disks. Some calls of the second fail.
fn stations(alloc: Global, fails: Vec<u64>) -> Result<Stations<MemShelf>, Fail> {
    let mut kept = Vec::new(alloc);
    let shelf = MemShelf::new(alloc, Vec::new(alloc));
    kept.push(Station::make(alloc, shelf, 1, 1))?;
    kept.push(Station::make(alloc, MemShelf::new(alloc, fails), 1, 2))?;
    Ok(Stations::over(1, kept))
}

/// Whether the disk is one of these.
fn has(stations: &Stations<MemShelf>, disk: u32) -> bool
    ensures { result ≡ true → HasDisk stations.now.stations disk }
{
    1 <= disk && disk <= stations.count()
}

/// The first unit of the volume.
fn unit_of(stations: &Stations<MemShelf>) -> Result<UnitName, Fail>
    ensures { IfOk result (λ unit. unit.vid ≡ stations.now.vid) }
{
    Ok(UnitName::new(stations.vid(), 0, 1)?)
}

fn create(stations: &mut Stations<MemShelf>, disk: u32) -> Result<Heard, Fail> {
    if !has(stations, disk) {
        return Ok(Heard::NoDisk);
    }
    let unit = unit_of(stations)?;
    word(stations.handle(&Request::Create { unit, disk }).1)
}

fn read(stations: &mut Stations<MemShelf>, disk: u32) -> Result<Heard, Fail> {
    if !has(stations, disk) {
        return Ok(Heard::NoDisk);
    }
    let unit = unit_of(stations)?;
    word(stations.handle(&Request::Read { unit, disk, bid: 7 }).1)
}

/// A put of five bytes of a blob of seven, and whether a record in doubt was found.
fn put(
    alloc: Global,
    stations: &mut Stations<MemShelf>,
    disk: u32,
) -> Result<(Option<bool>, Heard), Fail> {
    if !has(stations, disk) {
        return Ok((None, Heard::NoDisk));
    }
    let unit = unit_of(stations)?;
    let request = Request::Put {
        unit,
        disk,
        bid: 7,
        blob_size: 7,
        bytes: Bytes::from_vec(Vec::from_slice(alloc, b"hello")?),
    };
    let (found, answer) = stations.handle(&request);
    Ok((found, word(answer)?))
}

/// Whether the unit on this disk has a record in doubt.
fn is_in_doubt(stations: &Stations<MemShelf>, disk: u32) -> Result<bool, Fail> {
    if !has(stations, disk) {
        return Ok(false);
    }
    let unit = unit_of(stations)?;
    Ok(stations.is_in_doubt(&Request::Read { unit, disk, bid: 7 }))
}

/// Whether the disk is there and broken.
fn is_broken(stations: &Stations<MemShelf>, disk: u32) -> bool {
    has(stations, disk) && stations.is_broken(disk)
}

fn break_down(stations: &mut Stations<MemShelf>, disk: u32) {
    if has(stations, disk) {
        stations.break_down(disk);
    }
}

/// The answers of two disks, of which the first alone takes a shard.
fn life(alloc: Global, stations: &mut Stations<MemShelf>) -> Result<[Heard; 7], Fail> {
    let none = read(stations, 1)?;
    let first = create(stations, 1)?;
    let neighbour = read(stations, 2)?;
    let second = create(stations, 2)?;
    let (_, stored) = put(alloc, stations, 1)?;
    let shown = read(stations, 1)?;
    Ok([
        none,
        first,
        neighbour,
        second,
        stored,
        shown,
        read(stations, 2)?,
    ])
}

#[test]
fn each_disk_answers_for_itself(rt: HostRuntime) -> Result<(), Fail> {
    let alloc = rt.alloc();
    let mut stations = stations(alloc, Vec::new(alloc))?;
    assert_eq!(rt; stations.count(), 2);
    assert_eq!(rt;
        life(alloc, &mut stations)?,
        [
            Heard::NoUnit,
            Heard::Done,
            Heard::NoUnit,
            Heard::Done,
            Heard::Done,
            Heard::Live,
            Heard::Absent
        ]
    );
    Ok(())
}

/// Which disks are broken, and what both answer.
fn sight(stations: &mut Stations<MemShelf>) -> Result<(bool, bool, Heard, Heard), Fail> {
    let first = is_broken(stations, 1);
    let second = is_broken(stations, 2);
    let heard = read(stations, 1)?;
    Ok((first, second, heard, read(stations, 2)?))
}

#[test]
fn a_disk_that_breaks_breaks_no_other(rt: HostRuntime) -> Result<(), Fail> {
    let alloc = rt.alloc();
    let mut stations = stations(alloc, Vec::new(alloc))?;
    break_down(&mut stations, 1);
    assert_eq!(rt;
        sight(&mut stations)?,
        (true, false, Heard::Broken, Heard::NoUnit)
    );
    let (vid, kept) = stations.into_parts();
    assert_eq!(rt; (vid, kept.len()), (1, 2));
    Ok(())
}

/// Whether a put on the second disk leaves a doubt there, and whether the first disk has one.
fn fails(alloc: Global, stations: &mut Stations<MemShelf>) -> Result<(Heard, bool, bool), Fail> {
    let _first = create(stations, 1)?;
    let _second = create(stations, 2)?;
    let (_, heard) = put(alloc, stations, 2)?;
    let first = is_in_doubt(stations, 1)?;
    Ok((heard, first, is_in_doubt(stations, 2)?))
}

#[test]
fn a_doubt_lasts_until_the_next_start(rt: HostRuntime) -> Result<(), Fail> {
    let alloc = rt.alloc();
    // A create makes four calls on the file, so the fifth is the put's first.
    let mut stations = stations(alloc, vec![in alloc; FIRST_FILE + 5]?)?;
    assert_eq!(rt; fails(alloc, &mut stations)?, (Heard::Fault, false, true));
    assert_eq!(rt; put(alloc, &mut stations, 2)?, (Some(false), Heard::Done));
    assert!(rt; !is_in_doubt(&stations, 2)?);
    Ok(())
}

#[test]
fn a_broken_disk_keeps_its_doubt(rt: HostRuntime) -> Result<(), Fail> {
    let alloc = rt.alloc();
    let mut stations = stations(alloc, vec![in alloc; FIRST_FILE + 5]?)?;
    assert_eq!(rt; fails(alloc, &mut stations)?, (Heard::Fault, false, true));
    break_down(&mut stations, 2);
    assert!(rt; is_in_doubt(&stations, 2)?);
    assert_eq!(rt; put(alloc, &mut stations, 2)?, (None, Heard::Broken));
    Ok(())
}
