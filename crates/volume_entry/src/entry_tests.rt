//! An entry over a file in memory, from its making on.

ghost use Rattle.std.specs.Prelude.{◌≡◌, true};
ghost use Rattle.volume_entry.specs.Entry.{HasRoomIfOpen};

use crate::record::UnitHome;
use crate::{Entry, EntryFault, ManagerReply, Shape, are_first_homes};
use code_mode::Mode;
use disk_base::{Extent, MemFile};
use std::alloc::Global;
use std::process::Abort;
use std::test::Fail;
use unit_id::{Answer, Bids, Bytes, Home, Homes, Request, UnitName};

const VID: u32 = 4;

const SHAPE: Shape = Shape {
    mode: Mode::Ec3P3,
    disks: 8,
};

/// The blob that is asked about.
const BID: u64 = 7;

/// Homes of six units on disks 1 to 6.
fn six_homes(alloc: Global) -> Result<Vec<UnitHome>, EntryFault> {
    let mut homes = Vec::new(alloc);
    for disk in 1..7u32 {
        homes.push(UnitHome { epoch: 1, disk })?;
    }
    Ok(homes)
}

/// A volume in a new file of which these calls fail.
fn made(rt: &impl Abort, alloc: Global, fails: &[u64]) -> Result<Entry<MemFile>, EntryFault> {
    let homes = six_homes(alloc)?;
    assert!(rt; are_first_homes(SHAPE, &homes));
    let file = MemFile::new(alloc, fails.to_vec(alloc)?);
    match Entry::make(alloc, file, VID, SHAPE, &homes) {
        Ok(entry) => Ok(entry),
        Err((fault, _file)) => Err(fault),
    }
}

/// Whether a making of which this call fails gives a file of so many bytes back.
fn gives_back(rt: &impl Abort, alloc: Global, call: u64, size: usize) -> Result<bool, EntryFault> {
    let homes = six_homes(alloc)?;
    assert!(rt; are_first_homes(SHAPE, &homes));
    let file = MemFile::new(alloc, [call].to_vec(alloc)?);
    match Entry::make(alloc, file, VID, SHAPE, &homes) {
        Ok(_entry) => Ok(false),
        Err((_fault, file)) => Ok(file.as_slice().len() == size),
    }
}

/// How many bytes the file of a new volume has.
fn made_size(rt: &impl Abort, alloc: Global) -> Result<usize, EntryFault> {
    let file = made(rt, alloc, &[])?.into_file();
    Ok(file.as_slice().len())
}

#[test]
fn a_making_gives_the_file_back(rt: HostRuntime) -> Result<(), Fail> {
    let alloc = rt.alloc();
    assert!(rt; gives_back(&rt, alloc, 1, 0)?);
    assert!(rt; gives_back(&rt, alloc, 4, 9)?, "an empty log");
    assert!(rt;
        gives_back(&rt, alloc, 5, 73)?,
        "a record behind a closed gate"
    );
    assert!(rt;
        made_size(&rt, alloc)? == 73,
        "the record, behind an open gate"
    );
    Ok(())
}

/// Whether there is room for a step's record, where the log isn't shut.
fn has_room(entry: &Entry<MemFile>) -> bool
    ensures { result ≡ true → HasRoomIfOpen entry.now.book.log.end }
{
    match entry.end() {
        Some(end) => end < 100_000,
        None => true,
    }
}

/// Until when puts may be acknowledged, by a lease at this time.
fn lease(rt: &impl Abort, entry: &mut Entry<MemFile>, now: u32) -> Result<u64, EntryFault> {
    assert!(rt; has_room(entry));
    match entry.lease(u64::from(now))? {
        ManagerReply::LeaseTo { end } => Ok(end),
        _ => Ok(0),
    }
}

/// Whether the deletion of the blob is noted now, and not before.
fn is_noted(rt: &impl Abort, entry: &mut Entry<MemFile>) -> Result<bool, EntryFault> {
    assert!(rt; has_room(entry));
    Ok(matches!(entry.ask(BID)?, ManagerReply::Done))
}

/// Whether a start finds a record that was in doubt.
fn finds(entry: &mut Entry<MemFile>) -> Result<bool, EntryFault> {
    entry.start()
}

/// Whether a look shows the first version of six units, and the lease until this time.
fn shows_lease(entry: &Entry<MemFile>, lease: u64) -> Result<bool, EntryFault> {
    let view = entry.look(5)?;
    Ok(view.now == 5 && view.version == 1 && view.lease == lease && view.units.len() == 6)
}

/// Whether the unit of an index stands on this disk in its first epoch, and the disk is broken or not.
fn stands(units: &Homes, index: u8, on: u32, is_broken: bool) -> bool {
    match units.as_slice().get(usize::from(index)) {
        Some(home) => {
            let Home { unit, disk, broken } = *home;
            unit.index == index && unit.epoch == 1 && disk == on && broken == is_broken
        }
        None => false,
    }
}

/// Whether a look shows the unit of an index so.
fn shows(
    entry: &Entry<MemFile>,
    index: u8,
    disk: u32,
    is_broken: bool,
) -> Result<bool, EntryFault> {
    let view = entry.look(0)?;
    Ok(stands(&view.units, index, disk, is_broken))
}

/// Whether disk 3, and no other, is shown as broken once it breaks.
fn shows_broken(entry: &mut Entry<MemFile>) -> Result<bool, EntryFault> {
    entry.break_disk(3);
    Ok(shows(entry, 2, 3, true)? && shows(entry, 3, 4, false)?)
}

/// Whether a lease and a delete are noted.
fn steps(rt: &impl Abort, entry: &mut Entry<MemFile>) -> Result<bool, EntryFault> {
    Ok(lease(rt, entry, 3)? == 13 && is_noted(rt, entry)?)
}

/// Whether a start finds nothing in doubt, and the lease and the delete again.
fn keeps_steps(rt: &impl Abort, entry: &mut Entry<MemFile>) -> Result<bool, EntryFault> {
    Ok(!finds(entry)? && !is_noted(rt, entry)? && shows_lease(entry, 13)?)
}

/// Whether a new volume is shown, and then with its broken disk.
fn is_shown(rt: &impl Abort, alloc: Global) -> Result<bool, EntryFault> {
    let mut entry = made(rt, alloc, &[])?;
    assert!(rt; matches!(shows_lease(&entry, 0), Ok(true)));
    shows_broken(&mut entry)
}

/// Whether a start keeps what was done before.
fn is_kept(rt: &impl Abort, alloc: Global) -> Result<bool, EntryFault> {
    let mut entry = made(rt, alloc, &[])?;
    assert!(rt; matches!(steps(rt, &mut entry), Ok(true)));
    keeps_steps(rt, &mut entry)
}

#[test]
fn a_volume_is_shown_and_started(rt: HostRuntime) -> Result<(), Fail> {
    let alloc = rt.alloc();
    assert!(rt; is_shown(&rt, alloc)?);
    assert!(rt; is_kept(&rt, alloc)?);
    Ok(())
}

/// Whether the log is shut after a lease of which a call on the file fails.
fn is_shut(rt: &impl Abort, entry: &mut Entry<MemFile>) -> bool {
    matches!(lease(rt, entry, 3), Err(EntryFault::Fault)) && entry.end().is_none()
}

/// Whether a start finds the record of a lease during which this call on the file fails.
fn is_found(rt: &impl Abort, alloc: Global, call: u64) -> Result<bool, EntryFault> {
    let mut entry = made(rt, alloc, &[call])?;
    assert!(rt; is_shut(rt, &mut entry));
    finds(&mut entry)
}

#[test]
fn a_failed_call_leaves_a_lease_in_doubt(rt: HostRuntime) -> Result<(), Fail> {
    // The making takes eight calls, and the write of a record four more.
    let alloc = rt.alloc();
    assert!(rt; !is_found(&rt, alloc, 9)?, "the record wasn't written");
    assert!(rt; is_found(&rt, alloc, 12)?, "the record was written");
    Ok(())
}

/// A unit of the first epoch, or of the second.
fn unit(moved: bool) -> UnitName {
    let epoch = if moved { 2 } else { 1 };
    UnitName {
        vid: VID,
        index: 0,
        epoch,
    }
}

/// Whether a put of the blob to a unit may be sent.
fn may_put(alloc: Global, entry: &Entry<MemFile>, unit: UnitName, is_begun: bool) -> bool {
    let request = Request::Put {
        unit,
        disk: 1,
        bid: BID,
        blob_size: 0,
        bytes: Bytes::from_vec(Vec::new(alloc)),
    };
    entry.may_send(&request, is_begun)
}

/// A mark of the blob at a unit.
fn mark(unit: UnitName) -> Request {
    Request::Mark {
        unit,
        disk: 1,
        bid: BID,
    }
}

/// Whether a blob is only put if it was begun, and only at a current unit; and marked if its deletion is noted.
fn sends_in_turn(alloc: Global, entry: &Entry<MemFile>) -> bool {
    may_put(alloc, entry, unit(false), true)
        && !may_put(alloc, entry, unit(false), false)
        && !may_put(alloc, entry, unit(true), true)
        && !entry.may_send(&mark(unit(false)), true)
}

/// Whether a mark is heard, for which there is room.
fn hears_mark(entry: &mut Entry<MemFile>) -> Result<bool, EntryFault> {
    entry.reserve()?;
    Ok(entry.hear(&mark(unit(false)), &Answer::Done).is_ok())
}

/// Whether a listing is heard that shows the blob live, and none marked.
fn hears_listing(alloc: Global, entry: &mut Entry<MemFile>) -> Result<bool, EntryFault> {
    let request = Request::List {
        unit: unit(false),
        disk: 1,
        lock: 1,
    };
    let listing = Answer::Listing {
        lock: 1,
        live: Bids::from_vec([BID].to_vec(alloc)?),
        marked: Bids::from_vec(Vec::new(alloc)),
    };
    Ok(entry.hear(&request, &listing).is_ok())
}

/// Whether requests to a new volume may be sent in turn, and a mark is heard.
fn is_asked(rt: &impl Abort, alloc: Global) -> Result<bool, EntryFault> {
    let mut entry = made(rt, alloc, &[])?;
    assert!(rt; sends_in_turn(alloc, &entry));
    hears_mark(&mut entry)
}

/// Whether a new volume hears a listing.
fn is_listed(rt: &impl Abort, alloc: Global) -> Result<bool, EntryFault> {
    let mut entry = made(rt, alloc, &[])?;
    hears_listing(alloc, &mut entry)
}

#[test]
fn requests_are_sent_and_answers_heard(rt: HostRuntime) -> Result<(), Fail> {
    let alloc = rt.alloc();
    assert!(rt; is_asked(&rt, alloc)?);
    assert!(rt; is_listed(&rt, alloc)?);
    Ok(())
}
