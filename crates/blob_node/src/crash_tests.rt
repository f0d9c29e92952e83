//! What a crash in the midst of a request leaves of a unit's file: the failing call stands for the moment of the crash.

use crate::Station;
use crate::station_tests::{FIRST_FILE, create, put_at, station};
use chunk_store::{Chunk, RowKind};
use disk_base::{MemShelf, Shelf};
use std::alloc::Global;
use std::test::Fail;
use unit_id::UnitName;

/// The row of blob 7 in the file of the first unit, where a crash left this byte in each place that wasn't settled.
fn row_after(
    alloc: Global,
    station: Station<MemShelf>,
    choice: u8,
) -> Result<Option<RowKind>, Fail> {
    let unit = UnitName::new(1, 0, 1)?;
    let mut shelf = station.into_shelf();
    let file = shelf.open(alloc, unit.pack())?.crash(&[choice; 64]);
    let mut chunk = Chunk::over(alloc, file, unit);
    chunk.start()?;
    Ok(chunk.row(7))
}

/// The same after a put whose call of this number failed.
fn row_after_put(alloc: Global, call: u32, choice: u8) -> Result<Option<RowKind>, Fail> {
    let mut station = station(alloc, vec![in alloc; FIRST_FILE + u64::from(call)]?);
    let _made = create(&mut station, 0, 1)?;
    let _failed = put_at(alloc, &mut station, 0, 7)?;
    row_after(alloc, station, choice)
}

#[test]
fn a_crash_inside_a_put_leaves_its_record_or_not(rt: HostRuntime) -> Result<(), Fail> {
    let alloc = rt.alloc();
    // A start makes four calls on the file, and a put the next four: its record's and its gate's, each with a sync.
    for (call, choice, row) in [
        (5, 1, None),
        (6, 1, None),
        (7, 0, None),
        (7, 1, Some(RowKind::Live)),
        (8, 0, None),
        (8, 1, Some(RowKind::Live)),
    ] {
        assert_eq!(rt; row_after_put(alloc, call, choice)?, row);
    }
    Ok(())
}

/// The same after a create whose call of this number on the file failed.
fn row_after_create(alloc: Global, call: u32, choice: u8) -> Result<Option<RowKind>, Fail> {
    let mut station = station(alloc, vec![in alloc; FIRST_FILE + u64::from(call)]?);
    let _failed = create(&mut station, 0, 1)?;
    row_after(alloc, station, choice)
}

#[test]
fn a_crash_inside_a_create_leaves_no_records(rt: HostRuntime) -> Result<(), Fail> {
    let alloc = rt.alloc();
    for (call, choice) in [(1, 1), (2, 1), (3, 0), (3, 1), (4, 0), (4, 1)] {
        assert_eq!(rt; row_after_create(alloc, call, choice)?, None);
    }
    Ok(())
}
