//! A station over a shelf in memory: a unit from its making to its end, calls that fail, and many units.

ghost use Rattle.std.specs.Prelude.{◌≡◌, IfOk};

use crate::Station;
use crate::tests::{Heard, word};
use disk_base::MemShelf;
use std::alloc::Global;
use std::test::Fail;
use unit_id::{Bytes, Request, UnitName};

/// Call `c` of the first file that a shelf hands out fails where it is told this number more.
pub(crate) const FIRST_FILE: u64 = 0x1_0000_0000;

/// A station of volume 1 on disk 3, some of whose calls fail.
pub(crate) fn station(alloc: Global, fails: Vec<u64>) -> Station<MemShelf> {
    Station::make(alloc, MemShelf::new(alloc, fails), 1, 3)
}

/// A unit of the station's volume.
fn unit_of(station: &Station<MemShelf>, index: u8, epoch: u32) -> Result<UnitName, Fail>
    ensures { IfOk result (λ unit. unit.vid ≡ station.now.vid) }
{
    Ok(UnitName::new(station.vid(), index, epoch)?)
}

pub(crate) fn create(
    station: &mut Station<MemShelf>,
    index: u8,
    epoch: u32,
) -> Result<Heard, Fail> {
    let unit = unit_of(station, index, epoch)?;
    let request = Request::Create {
        unit,
        disk: station.disk(),
    };
    word(station.handle(&request).1)
}

/// A put of five bytes of a blob of seven to the first unit, and whether a record in doubt was found.
fn put(
    alloc: Global,
    station: &mut Station<MemShelf>,
    bid: u64,
) -> Result<(Option<bool>, Heard), Fail> {
    put_at(alloc, station, 0, bid)
}

/// The same to the unit of an index.
pub(crate) fn put_at(
    alloc: Global,
    station: &mut Station<MemShelf>,
    index: u8,
    bid: u64,
) -> Result<(Option<bool>, Heard), Fail> {
    let unit = unit_of(station, index, 1)?;
    let request = Request::Put {
        unit,
        disk: station.disk(),
        bid,
        blob_size: 7,
        bytes: Bytes::from_vec(Vec::from_slice(alloc, b"hello")?),
    };
    let (found, answer) = station.handle(&request);
    Ok((found, word(answer)?))
}

pub(crate) fn read(station: &mut Station<MemShelf>, index: u8, epoch: u32) -> Result<Heard, Fail> {
    let unit = unit_of(station, index, epoch)?;
    let request = Request::Read {
        unit,
        disk: station.disk(),
        bid: 7,
    };
    word(station.handle(&request).1)
}

fn mark(station: &mut Station<MemShelf>) -> Result<Heard, Fail> {
    let unit = unit_of(station, 0, 1)?;
    let request = Request::Mark {
        unit,
        disk: station.disk(),
        bid: 7,
    };
    word(station.handle(&request).1)
}

fn free(station: &mut Station<MemShelf>) -> Result<Heard, Fail> {
    let unit = unit_of(station, 0, 1)?;
    let request = Request::Free {
        unit,
        disk: station.disk(),
        bid: 7,
    };
    word(station.handle(&request).1)
}

fn fence(station: &mut Station<MemShelf>, lock: u64) -> Result<(Option<bool>, Heard), Fail> {
    let unit = unit_of(station, 0, 1)?;
    let request = Request::Fence {
        unit,
        disk: station.disk(),
        lock,
    };
    let (found, answer) = station.handle(&request);
    Ok((found, word(answer)?))
}

fn list(station: &mut Station<MemShelf>) -> Result<Heard, Fail> {
    let unit = unit_of(station, 0, 1)?;
    let request = Request::List {
        unit,
        disk: station.disk(),
        lock: 4,
    };
    word(station.handle(&request).1)
}

fn release(station: &mut Station<MemShelf>) -> Result<(Option<bool>, Heard), Fail> {
    let unit = unit_of(station, 0, 1)?;
    let request = Request::Release {
        unit,
        disk: station.disk(),
    };
    let (found, answer) = station.handle(&request);
    Ok((found, word(answer)?))
}

/// The answers from the making of a unit to the mark of its blob.
fn life(alloc: Global, station: &mut Station<MemShelf>) -> Result<[Heard; 6], Fail> {
    let made = create(station, 0, 1)?;
    let again = create(station, 0, 1)?;
    let (_, first) = put(alloc, station, 7)?;
    let (_, second) = put(alloc, station, 7)?;
    let shown = read(station, 0, 1)?;
    Ok([made, again, first, second, shown, free(station)?])
}

/// The answers from the mark to the end of the shard.
fn end(alloc: Global, station: &mut Station<MemShelf>) -> Result<[Heard; 5], Fail> {
    let marked = mark(station)?;
    let (_, late) = put(alloc, station, 7)?;
    let shown = read(station, 0, 1)?;
    let freed = free(station)?;
    Ok([marked, late, shown, freed, read(station, 0, 1)?])
}

/// The answers under a fence.
fn fenced(alloc: Global, station: &mut Station<MemShelf>) -> Result<[Heard; 4], Fail> {
    let (_, first) = fence(station, 4)?;
    let (_, late) = put(alloc, station, 8)?;
    let (_, other) = fence(station, 5)?;
    Ok([first, late, other, list(station)?])
}

/// The answers once the unit is released, and followed by a later one.
fn outlived(alloc: Global, station: &mut Station<MemShelf>) -> Result<[Heard; 7], Fail> {
    let (_, released) = release(station)?;
    let shown = read(station, 0, 1)?;
    let (_, late) = put(alloc, station, 9)?;
    let later = read(station, 0, 2)?;
    let neighbour = read(station, 1, 1)?;
    let made = create(station, 0, 2)?;
    Ok([
        released,
        shown,
        late,
        later,
        neighbour,
        made,
        read(station, 0, 2)?,
    ])
}

#[test]
fn a_station_answers_from_a_unit_made_to_its_end(rt: HostRuntime) -> Result<(), Fail> {
    let alloc = rt.alloc();
    let mut station = station(alloc, Vec::new(alloc));
    assert_eq!(rt;
        life(alloc, &mut station)?,
        [
            Heard::Done,
            Heard::Already,
            Heard::Done,
            Heard::Already,
            Heard::Live,
            Heard::NotMarked
        ]
    );
    assert_eq!(rt;
        end(alloc, &mut station)?,
        [
            Heard::Done,
            Heard::Deleted,
            Heard::Marked,
            Heard::Done,
            Heard::Gone
        ]
    );
    assert_eq!(rt;
        fenced(alloc, &mut station)?,
        [Heard::Done, Heard::Fenced, Heard::Fenced, Heard::Listing]
    );
    assert_eq!(rt;
        outlived(alloc, &mut station)?,
        [
            Heard::Done,
            Heard::Stale,
            Heard::Stale,
            Heard::NoUnit,
            Heard::NoUnit,
            Heard::Done,
            Heard::Absent
        ]
    );
    Ok(())
}

/// What a create answers whose call of this number fails, and what the same create answers then.
fn create_twice(alloc: Global, call: u64) -> Result<(Heard, Heard), Fail> {
    let mut station = station(alloc, vec![in alloc; call]?);
    let first = create(&mut station, 0, 1)?;
    Ok((first, create(&mut station, 0, 1)?))
}

/// The same of a put to a unit that was made.
fn put_twice(alloc: Global, call: u32) -> Result<(Heard, Option<bool>, Heard), Fail> {
    let mut station = station(alloc, vec![in alloc; FIRST_FILE + u64::from(call)]?);
    let _made = create(&mut station, 0, 1)?;
    let (_, first) = put(alloc, &mut station, 7)?;
    let (found, again) = put(alloc, &mut station, 7)?;
    Ok((first, found, again))
}

/// The same of a fence.
fn fence_twice(alloc: Global, call: u32) -> Result<(Heard, Option<bool>, Heard), Fail> {
    let mut station = station(alloc, vec![in alloc; FIRST_FILE + u64::from(call)]?);
    let _made = create(&mut station, 0, 1)?;
    let (_, first) = fence(&mut station, 4)?;
    let (found, again) = fence(&mut station, 4)?;
    Ok((first, found, again))
}

/// The same of a release.
fn release_twice(alloc: Global, call: u32) -> Result<(Heard, Option<bool>, Heard), Fail> {
    let mut station = station(alloc, vec![in alloc; FIRST_FILE + u64::from(call)]?);
    let _made = create(&mut station, 0, 1)?;
    let (_, first) = release(&mut station)?;
    let (found, again) = release(&mut station)?;
    Ok((first, found, again))
}

#[test]
fn what_failed_goes_on(rt: HostRuntime) -> Result<(), Fail> {
    let alloc = rt.alloc();
    // A create makes one call on the shelf, and its start four on the file.
    for call in [
        1,
        FIRST_FILE + 1,
        FIRST_FILE + 2,
        FIRST_FILE + 3,
        FIRST_FILE + 4,
    ] {
        assert_eq!(rt; create_twice(alloc, call)?, (Heard::Fault, Heard::Done));
    }
    // A write makes four more: its record's and its gate's, each with a sync.
    for (call, found, put, fence, release) in [
        (5, false, Heard::Done, Heard::Done, Heard::Done),
        (6, false, Heard::Done, Heard::Done, Heard::Done),
        (7, true, Heard::Already, Heard::Done, Heard::Stale),
        (8, true, Heard::Already, Heard::Done, Heard::Stale),
    ] {
        assert_eq!(rt; put_twice(alloc, call)?, (Heard::Fault, Some(found), put));
        assert_eq!(rt;
            fence_twice(alloc, call)?,
            (Heard::Fault, Some(found), fence)
        );
        assert_eq!(rt;
            release_twice(alloc, call)?,
            (Heard::Fault, Some(found), release)
        );
    }
    Ok(())
}

/// Whether a thousand units are made and each is then found, with no row.
fn are_made_and_found(station: &mut Station<MemShelf>) -> Result<bool, Fail> {
    for number in 0..1000u32 {
        let index = (number % 256) as u8;
        let epoch = 1 + number / 256;
        if create(station, index, epoch)? != Heard::Done {
            return Ok(false);
        }
        if read(station, index, epoch)? != Heard::Absent {
            return Ok(false);
        }
    }
    Ok(true)
}

#[test]
fn a_thousand_units_are_found(rt: HostRuntime) -> Result<(), Fail> {
    let alloc = rt.alloc();
    let mut station = station(alloc, Vec::new(alloc));
    assert!(rt; are_made_and_found(&mut station)?);
    let unit = UnitName::new(1, 5, 2)?;
    assert!(rt; station.unit(unit).is_some());
    assert!(rt; !station.is_broken());
    station.break_down();
    assert_eq!(rt; read(&mut station, 0, 1)?, Heard::Broken);
    assert!(rt; !station.into_shelf().is_out(unit.pack()));
    Ok(())
}
