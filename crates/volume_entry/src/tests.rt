//! Worked spellings, and bytes that spell no record. The bytes were made by another program.

ghost use Rattle.volume_entry.specs.RecordBytes.{record_of, IsShort};

use crate::laws::records_have_one_spelling;
use crate::reading::read;
use crate::record::{LogRecord, NewHome};
use crate::table::Table;
use crate::writing::write;
use crate::{Shape, UnitHome, are_first_homes};
use code_mode::Mode;
use std::alloc::Global;
use std::process::Abort;
use std::test::Fail;
use unit_id::Bytes;

const VID: u32 = 1;

const MODE: Mode = Mode::Ec6P3;

const SHAPE: Shape = Shape {
    mode: MODE,
    disks: 11,
};

const LEASED: [u8; 13] = [0x28, 0x2a, 0xd5, 0x36, 2, 0, 0, 0, 0, 0, 0, 0, 10];

const LOCKED: [u8; 40] = [
    0x1f, 0xa6, 0x5f, 0x49, 3, 0, 0, 0, 0, 0, 0, 0, 1, 0, 0, 0, 0, 0, 0, 0, 1, 2, 0, 0, 0, 0, 10,
    0, 0, 0, 2, 3, 0, 0, 0, 11, 0, 0, 0, 3,
];

const MADE: [u8; 27] = [
    0xf6, 0x5a, 0x30, 0xd6, 1, 0, 0, 0, 1, 2, 2, 0, 0, 0, 1, 0, 0, 0, 1, 0, 0, 0, 1, 0, 0, 0, 2,
];

/// Writes a record, reads it back and writes it again.
fn check_spelling(
    rt: &impl Abort,
    alloc: Global,
    item: &LogRecord,
    spelling: &[u8],
) -> Result<(), Fail>
    requires { IsShort (record_of item.now) }
{
    let written = write(alloc, VID, MODE, item)?;
    assert_eq!(rt; written.as_slice(), spelling);
    assert!(rt; read(alloc, VID, MODE, spelling)?.is_some());
    Ok(())
}

fn grant(index: u8, disk: u32, epoch: u32) -> NewHome {
    NewHome {
        index,
        dest: UnitHome { epoch, disk },
    }
}

#[test]
fn records_with_one_number(rt: HostRuntime) -> Result<(), Fail> {
    let alloc = rt.alloc();
    check_spelling(&rt, alloc, &LogRecord::Leased { end: 10 }, &LEASED)?;
    let asked = [0x1c, 0x0c, 0xec, 0xc4, 7, 0, 0, 0, 0, 0, 0, 0, 7];
    check_spelling(&rt, alloc, &LogRecord::Asked { bid: 7 }, &asked)?;
    let committed = [0xc3, 0xb5, 0x23, 0x15, 8, 0, 0, 0, 0, 0, 0, 0, 7];
    check_spelling(&rt, alloc, &LogRecord::Committed { bid: 7 }, &committed)
}

#[test]
fn records_of_a_move(rt: HostRuntime) -> Result<(), Fail> {
    let alloc = rt.alloc();
    let retargeted = [0x04, 0xb8, 0xa8, 0xa7, 4, 0, 0, 0, 0, 11, 0, 0, 0, 3];
    let item = LogRecord::Retargeted {
        grant: grant(0, 11, 3),
    };
    check_spelling(&rt, alloc, &item, &retargeted)?;
    let swapped = [0xa2, 0x68, 0x1b, 0x02, 5];
    check_spelling(&rt, alloc, &LogRecord::Swapped, &swapped)?;
    let unlocked = [0x3b, 0x61, 0x4a, 0xb8, 6];
    check_spelling(&rt, alloc, &LogRecord::Unlocked, &unlocked)
}

#[test]
fn a_lock_of_two_units(rt: HostRuntime) -> Result<(), Fail> {
    let alloc = rt.alloc();
    let grants = [grant(0, 10, 2), grant(3, 11, 3)].to_vec(alloc)?;
    assert_eq!(rt; grants.len(), 2);
    let item = LogRecord::Locked {
        task: 1,
        lock: 1,
        grants,
    };
    check_spelling(&rt, alloc, &item, &LOCKED)
}

#[test]
fn a_making_of_two_units(rt: HostRuntime) -> Result<(), Fail> {
    let alloc = rt.alloc();
    let homes = [
        UnitHome { epoch: 1, disk: 1 },
        UnitHome { epoch: 1, disk: 2 },
    ]
    .to_vec(alloc)?;
    assert_eq!(rt; homes.len(), 2);
    check_spelling(&rt, alloc, &LogRecord::Made { homes }, &MADE)
}

/// Whether the bytes spell a record in the tests' log.
fn spells(alloc: Global, bytes: &[u8]) -> Result<bool, Fail> {
    Ok(read(alloc, VID, MODE, bytes)?.is_some())
}

#[test]
fn the_first_record_names_volume_and_mode(rt: HostRuntime) -> Result<(), Fail> {
    let alloc = rt.alloc();
    assert!(rt; read(alloc, 2, MODE, &MADE)?.is_none(), "another volume");
    assert!(rt;
        read(alloc, VID, Mode::Ec6P6, &MADE)?.is_none(),
        "another mode"
    );
    assert!(rt; spells(alloc, &MADE)?);
    Ok(())
}

#[test]
fn no_shorter_bytes_are_a_record(rt: HostRuntime) -> Result<(), Fail> {
    let alloc = rt.alloc();
    for end in 0..LOCKED.len() {
        assert!(rt; !spells(alloc, &LOCKED[..end])?, "{end} bytes");
    }
    for end in 0..MADE.len() {
        assert!(rt; !spells(alloc, &MADE[..end])?, "{end} bytes");
    }
    Ok(())
}

#[test]
fn one_bit_makes_it_no_record(rt: HostRuntime) -> Result<(), Fail> {
    let alloc = rt.alloc();
    let mut bytes = LOCKED;
    for place in 0..bytes.len() {
        bytes[place] ^= 4;
        assert!(rt; !spells(alloc, &bytes)?, "place {place}");
        bytes[place] ^= 4;
    }
    assert!(rt; spells(alloc, &bytes)?);
    Ok(())
}

/// Nine units on disks 1 to 9.
fn nine_units(alloc: Global) -> Result<Table, Fail> {
    let mut homes = Vec::new(alloc);
    for disk in 1..10u32 {
        homes.push(UnitHome { epoch: 1, disk })?;
    }
    Ok(Table::fresh(alloc, homes)?)
}

/// Whether a record is legal behind those of the table.
fn is_legal(table: &Table, item: &LogRecord) -> bool {
    table.is_legal(SHAPE, item)
}

/// Takes a record that is legal.
fn take(rt: &impl Abort, alloc: Global, table: &mut Table, item: &LogRecord) -> Result<(), Fail> {
    assert!(rt; table.version < 1000);
    assert!(rt; table.take_legal(alloc, SHAPE, item)?);
    Ok(())
}

/// A lock of units 0 and 3 by task 7.
fn two_moves(alloc: Global, lock: u64, one: NewHome, other: NewHome) -> Result<LogRecord, Fail> {
    let grants = [one, other].to_vec(alloc)?;
    Ok(LogRecord::Locked {
        task: 7,
        lock,
        grants,
    })
}

#[test]
fn illegal_locks(rt: HostRuntime) -> Result<(), Fail> {
    let alloc = rt.alloc();
    let table = nine_units(alloc)?;
    let rows = [
        (1, grant(0, 10, 2), grant(3, 11, 2), true),
        (2, grant(0, 10, 2), grant(3, 11, 2), false),
        (1, grant(3, 10, 2), grant(0, 11, 2), false),
        (1, grant(0, 10, 2), grant(3, 10, 2), false),
        (1, grant(0, 10, 3), grant(3, 11, 2), false),
        (1, grant(0, 9, 2), grant(3, 11, 2), false),
        (1, grant(0, 12, 2), grant(3, 11, 2), false),
        (1, grant(0, 10, 2), grant(9, 11, 1), false),
    ];
    for (lock, one, other, legal) in rows {
        let item = two_moves(alloc, lock, one, other)?;
        assert_eq!(rt; is_legal(&table, &item), legal);
    }
    Ok(())
}

#[test]
fn two_units_are_moved(rt: HostRuntime) -> Result<(), Fail> {
    let alloc = rt.alloc();
    let mut table = nine_units(alloc)?;
    take(&rt, alloc, &mut table, &LogRecord::Leased { end: 10 })?;
    let item = two_moves(alloc, 1, grant(0, 10, 2), grant(3, 11, 2))?;
    take(&rt, alloc, &mut table, &item)?;
    assert!(rt; !is_legal(&table, &item));
    assert!(rt; !is_legal(&table, &LogRecord::Unlocked));
    take(&rt, alloc, &mut table, &LogRecord::Swapped)?;
    assert!(rt; !is_legal(&table, &LogRecord::Swapped));
    check_homes(&rt, &table, 10, 11)?;
    take(&rt, alloc, &mut table, &LogRecord::Unlocked)?;
    assert_eq!(rt; (table.version, table.lease_end, table.granted), (2, 10, 1));
    Ok(())
}

/// Units 0 and 3 stand on these disks.
fn check_homes(rt: &impl Abort, table: &Table, one: u32, other: u32) -> Result<(), Fail> {
    assert_eq!(rt; table.homes.len(), 9);
    assert_eq!(rt; (table.homes[0].disk, table.homes[3].disk), (one, other));
    Ok(())
}

#[test]
fn a_new_destination(rt: HostRuntime) -> Result<(), Fail> {
    let alloc = rt.alloc();
    let mut table = nine_units(alloc)?;
    let item = two_moves(alloc, 1, grant(0, 10, 2), grant(3, 11, 2))?;
    take(&rt, alloc, &mut table, &item)?;
    let rows = [
        (grant(0, 11, 3), false),
        (grant(0, 10, 2), false),
        (grant(1, 10, 2), false),
        (grant(0, 10, 3), true),
    ];
    for (grant, legal) in rows {
        assert_eq!(rt; is_legal(&table, &LogRecord::Retargeted { grant }), legal);
    }
    let item = LogRecord::Retargeted {
        grant: grant(0, 10, 3),
    };
    take(&rt, alloc, &mut table, &item)?;
    assert_eq!(rt;
        table.greatest.as_slice(),
        [3, 1, 1, 2, 1, 1, 1, 1, 1].as_slice()
    );
    Ok(())
}

#[test]
fn a_delete_is_settled_once(rt: HostRuntime) -> Result<(), Fail> {
    let alloc = rt.alloc();
    let mut table = nine_units(alloc)?;
    let asked = LogRecord::Asked { bid: 5 };
    let committed = LogRecord::Committed { bid: 5 };
    assert!(rt; !is_legal(&table, &committed));
    take(&rt, alloc, &mut table, &asked)?;
    assert!(rt; !is_legal(&table, &asked));
    take(&rt, alloc, &mut table, &committed)?;
    assert!(rt; !is_legal(&table, &committed));
    Ok(())
}

/// Homes of nine units on disks 1 to 9, but for this unit's.
fn nine_homes(alloc: Global, index: u32, home: UnitHome) -> Result<Vec<UnitHome>, Fail> {
    let mut homes = Vec::new(alloc);
    for place in 0..9u32 {
        let usual = UnitHome {
            epoch: 1,
            disk: place + 1,
        };
        homes.push(if place == index { home } else { usual })?;
    }
    Ok(homes)
}

#[test]
fn homes_of_a_new_volume(rt: HostRuntime) -> Result<(), Fail> {
    let alloc = rt.alloc();
    let rows = [
        (UnitHome { epoch: 1, disk: 11 }, true),
        (UnitHome { epoch: 1, disk: 12 }, false),
        (UnitHome { epoch: 1, disk: 0 }, false),
        (UnitHome { epoch: 1, disk: 9 }, false),
        (UnitHome { epoch: 0, disk: 4 }, false),
    ];
    for (home, first) in rows {
        let homes = nine_homes(alloc, 3, home)?;
        assert_eq!(rt; are_first_homes(SHAPE, &homes), first);
        assert!(rt;
            !are_first_homes(SHAPE, homes.split_at(8.min(homes.len())).0),
            "eight homes"
        );
    }
    records_have_one_spelling();
    Ok(())
}

/// The body of the record of a volume's making, with nine homes.
fn made_body(alloc: Global) -> Result<Bytes, Fail> {
    let homes = nine_homes(alloc, 0, UnitHome { epoch: 1, disk: 1 })?;
    if homes.len() > 255 {
        return Ok(Bytes::from_vec(Vec::new(alloc)));
    }
    Ok(write(alloc, VID, MODE, &LogRecord::Made { homes })?)
}

/// Whether the table takes a body.
fn takes(alloc: Global, table: &mut Table, body: &[u8]) -> Result<bool, Fail> {
    if table.version > 1000 {
        return Ok(false);
    }
    Ok(table.take_body(alloc, VID, SHAPE, body)?)
}

#[test]
fn bodies_make_a_table(rt: HostRuntime) -> Result<(), Fail> {
    let alloc = rt.alloc();
    let first = made_body(alloc)?;
    assert!(rt; Table::made(alloc, VID, SHAPE, &LEASED)?.is_none());
    let made = Table::made(alloc, VID, SHAPE, first.as_slice())?;
    let mut table = made.expect(&rt, "a table");
    assert!(rt; takes(alloc, &mut table, &LEASED)?);
    assert!(rt;
        !takes(alloc, &mut table, first.as_slice())?,
        "no second making"
    );
    assert!(rt; !takes(alloc, &mut table, &LOCKED)?, "an epoch too great");
    assert_eq!(rt; (table.lease_end, table.granted), (10, 0));
    Ok(())
}
