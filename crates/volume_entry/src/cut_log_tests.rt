//! A manager's log cut to every length, and with each of its bits changed.

ghost use Rattle.std.specs.Prelude.{◌≡◌, true};
ghost use Rattle.volume_entry.specs.Entry.{HasRoomIfOpen};

use crate::book::Book;
use crate::record::UnitHome;
use crate::{Entry, EntryFault, ManagerReply, Shape, are_first_homes};
use code_mode::Mode;
use disk_base::{Extent, MemFile};
use gate_log::GateLog;
use std::alloc::Global;
use std::process::Abort;
use std::test::Fail;

const VID: u32 = 4;

const SHAPE: Shape = Shape {
    mode: Mode::Ec3P3,
    disks: 8,
};

/// The blob whose deletion the worked log notes.
const BID: u64 = 7;

/// Where the worked log has the record of its making, behind the mark.
const MADE_AT: u64 = 8;

/// Where it has the lease. Gate and length take 5 bytes, and the making of six units 59: sum, kind and volume, mode and count,
/// and six homes of 8 bytes.
const LEASED_AT: u64 = 72;

/// Where it has the deletion. A lease takes 13 bytes: sum, kind and the lease's end.
const ASKED_AT: u64 = 90;

/// Where its closed gate stands, with which it ends. A deletion takes as many bytes as a lease.
const END: u64 = 108;

/// What a start leaves.
#[derive(Clone, Copy, Debug, PartialEq, Eq)]
enum Outcome {
    /// It has read so much: where the log ends, until when the lease runs, and whether the deletion is noted.
    Started {
        end: u64,
        lease: u64,
        is_asked: bool,
    },
    /// At this place no legal record stands, and the log is shut.
    Broken {
        place: u64,
    },
}

/// The making alone is left.
const ONLY_MADE: Outcome = Outcome::Started {
    end: LEASED_AT,
    lease: 0,
    is_asked: false,
};

/// So is the lease.
const MADE_AND_LEASED: Outcome = Outcome::Started {
    end: ASKED_AT,
    lease: 10,
    is_asked: false,
};

/// All is left.
const ALL: Outcome = Outcome::Started {
    end: END,
    lease: 10,
    is_asked: true,
};

/// A volume in a new file, with homes on disks 1 to 6.
fn made(rt: &impl Abort, alloc: Global) -> Result<Entry<MemFile>, EntryFault> {
    let mut homes = Vec::new(alloc);
    for disk in 1..7u32 {
        homes.push(UnitHome { epoch: 1, disk })?;
    }
    assert!(rt; are_first_homes(SHAPE, &homes));
    match Entry::make(
        alloc,
        MemFile::new(alloc, Vec::new(alloc)),
        VID,
        SHAPE,
        &homes,
    ) {
        Ok(entry) => Ok(entry),
        Err((fault, _file)) => Err(fault),
    }
}

/// Whether there is room for a step's record, where the log isn't shut.
fn has_room(entry: &Entry<MemFile>) -> bool
    ensures { result ≡ true → HasRoomIfOpen entry.now.book.log.end }
{
    match entry.end() {
        Some(end) => end < 100_000,
        None => true,
    }
}

/// A lease at 0 is given.
fn lease(rt: &impl Abort, entry: &mut Entry<MemFile>) -> Result<(), EntryFault> {
    assert!(rt; has_room(entry));
    assert!(rt; matches!(entry.lease(0)?, ManagerReply::LeaseTo { end: 10 }));
    Ok(())
}

/// The deletion is noted.
fn ask(rt: &impl Abort, entry: &mut Entry<MemFile>) -> Result<(), EntryFault> {
    assert!(rt; has_room(entry));
    assert!(rt; matches!(entry.ask(BID)?, ManagerReply::Done));
    Ok(())
}

/// The bytes of the worked log: a volume's making, a lease and a deletion.
fn worked(rt: &impl Abort, alloc: Global) -> Result<Vec<u8>, EntryFault> {
    let mut entry = made(rt, alloc)?;
    lease(rt, &mut entry)?;
    ask(rt, &mut entry)?;
    Ok(entry.into_file().as_slice().to_vec(alloc)?)
}

/// A file with these bytes, all of them settled.
fn file_with(alloc: Global, bytes: &[u8]) -> Result<MemFile, Fail> {
    let mut file = MemFile::new(alloc, Vec::new(alloc));
    file.grow(bytes.len() as u64)?;
    file.write_at(0, bytes)?;
    file.sync()?;
    Ok(file)
}

/// A book that isn't started, over another file than its own.
fn shut_over(book: Book<MemFile>, file: MemFile) -> Book<MemFile> {
    Book {
        log: GateLog::over(file),
        is_shut: true,
        doubt: None,
        ..book
    }
}

/// What the start of a book leaves.
fn outcome_of(book: &mut Book<MemFile>) -> Result<Outcome, EntryFault> {
    match book.start() {
        Ok((_found, _heard)) => Ok(Outcome::Started {
            end: book.end().unwrap_or(0),
            lease: book.table.lease_end,
            is_asked: book.table.asked.has(BID),
        }),
        Err(EntryFault::Spoiled { place }) => match book.end() {
            None => Ok(Outcome::Broken { place }),
            Some(_) => Err(EntryFault::Spoiled { place }),
        },
        Err(fault) => Err(fault),
    }
}

/// What a start over these bytes leaves.
fn start_over(rt: &impl Abort, alloc: Global, bytes: &[u8]) -> Result<Outcome, Fail> {
    let file = file_with(alloc, bytes)?;
    let mut book = shut_over(made(rt, alloc)?.book, file);
    Ok(outcome_of(&mut book)?)
}

/// Whether a start over each front of the bytes leaves this, from one length up to another.
fn do_fronts_leave(
    rt: &impl Abort,
    alloc: Global,
    bytes: &[u8],
    (from, to): (u64, u64),
    want: Outcome,
) -> Result<bool, Fail> {
    for count in from..to {
        let Some(front) = bytes.get(..count as usize) else {
            return Ok(false);
        };
        if start_over(rt, alloc, front)? != want {
            return Ok(false);
        }
    }
    Ok(true)
}

/// The bytes with one bit changed, where there is a byte at the place.
fn changed(alloc: Global, bytes: &[u8], place: u64, bit: u8) -> Result<Vec<u8>, Fail> {
    let mut bytes = bytes.to_vec(alloc)?;
    if let Some(byte) = bytes.get_mut(place as usize) {
        *byte ^= 1 << (bit % 8);
    }
    Ok(bytes)
}

/// Whether a start leaves this for each bit of a byte that is changed.
fn does_each_bit_leave(
    rt: &impl Abort,
    alloc: Global,
    bytes: &[u8],
    place: u64,
    want: Outcome,
) -> Result<bool, Fail> {
    for bit in 0..8u8 {
        if start_over(rt, alloc, &changed(alloc, bytes, place, bit)?)? != want {
            return Ok(false);
        }
    }
    Ok(true)
}

/// Whether a start leaves this for each bit that is changed from one place up to another.
fn do_changes_leave(
    rt: &impl Abort,
    alloc: Global,
    bytes: &[u8],
    (from, to): (u64, u64),
    want: Outcome,
) -> Result<bool, Fail> {
    for place in from..to {
        if !does_each_bit_leave(rt, alloc, bytes, place, want)? {
            return Ok(false);
        }
    }
    Ok(true)
}

/// Whether an open gate stands at a place, and behind it this length.
fn has_record(bytes: &[u8], place: u64, length: u8) -> bool {
    match bytes.get(place as usize..) {
        Some(rest) => rest.starts_with(&[1, 0, 0, 0, length]),
        None => false,
    }
}

#[test]
fn a_worked_log_has_three_records(rt: HostRuntime) -> Result<(), Fail> {
    let bytes = worked(&rt, rt.alloc())?;
    assert_eq!(rt; bytes.len(), 109);
    assert!(rt; has_record(&bytes, MADE_AT, 59));
    assert!(rt; has_record(&bytes, LEASED_AT, 13));
    assert!(rt; has_record(&bytes, ASKED_AT, 13));
    assert_eq!(rt; bytes.last().copied(), Some(0), "a closed gate");
    Ok(())
}

#[test]
fn a_cut_leaves_whole_records_or_is_told(rt: HostRuntime) -> Result<(), Fail> {
    let alloc = rt.alloc();
    let bytes = worked(&rt, alloc)?;
    // Of at most nine bytes a start makes a log without records, which is no volume's. A cut right behind a record takes only
    // the next gate, and a start writes it closed.
    let rows = [
        ((0, LEASED_AT), Outcome::Broken { place: MADE_AT }),
        ((LEASED_AT, LEASED_AT + 1), ONLY_MADE),
        (
            (LEASED_AT + 1, ASKED_AT),
            Outcome::Broken { place: LEASED_AT },
        ),
        ((ASKED_AT, ASKED_AT + 1), MADE_AND_LEASED),
        ((ASKED_AT + 1, END), Outcome::Broken { place: ASKED_AT }),
        ((END, END + 2), ALL),
    ];
    for (range, want) in rows {
        assert!(rt;
            do_fronts_leave(&rt, alloc, &bytes, range, want)?,
            "cut to {range:?}"
        );
    }
    Ok(())
}

#[test]
fn a_changed_bit_closes_a_gate_or_is_told(rt: HostRuntime) -> Result<(), Fail> {
    let alloc = rt.alloc();
    let bytes = worked(&rt, alloc)?;
    // Only a byte of 1 is an open gate, so a changed gate ends the log before its record. A changed length takes another body
    // or goes behind the file's end, and a changed body isn't what its sum says.
    let rows = [
        ((0, MADE_AT), Outcome::Broken { place: 0 }),
        ((MADE_AT, LEASED_AT), Outcome::Broken { place: MADE_AT }),
        ((LEASED_AT, LEASED_AT + 1), ONLY_MADE),
        (
            (LEASED_AT + 1, ASKED_AT),
            Outcome::Broken { place: LEASED_AT },
        ),
        ((ASKED_AT, ASKED_AT + 1), MADE_AND_LEASED),
        ((ASKED_AT + 1, END), Outcome::Broken { place: ASKED_AT }),
    ];
    for (range, want) in rows {
        assert!(rt;
            do_changes_leave(&rt, alloc, &bytes, range, want)?,
            "changed in {range:?}"
        );
    }
    Ok(())
}

#[test]
fn a_gate_behind_the_records_stays_closed_but_at_one(rt: HostRuntime) -> Result<(), Fail> {
    let alloc = rt.alloc();
    let bytes = worked(&rt, alloc)?;
    let open = changed(alloc, &bytes, END, 0)?;
    assert_eq!(rt;
        start_over(&rt, alloc, &open)?,
        Outcome::Broken { place: END }
    );
    for bit in 1..8u8 {
        let closed = changed(alloc, &bytes, END, bit)?;
        assert_eq!(rt; start_over(&rt, alloc, &closed)?, ALL, "bit {bit}");
    }
    Ok(())
}
