//! Restarts of a station over a shelf in memory.

use crate::Station;
use crate::station_tests::{FIRST_FILE, create, put_at, read, station};
use crate::tests::{Heard, word};
use disk_base::MemShelf;
use std::alloc::Global;
use std::test::Fail;

/// A record that was settled: the index of its unit, and whether it was found.
type Told = Option<(u8, bool)>;

/// What a restart tells of the first two records that it settles, how many it settles, and what it answers.
fn restart(station: &mut Station<MemShelf>) -> Result<([Told; 2], usize, Heard), Fail> {
    let (settled, answer) = station.restart();
    let mut told = [None; 2];
    for (place, item) in told.iter_mut().zip(settled.as_slice()) {
        *place = Some((item.unit.index, item.found));
    }
    Ok((told, settled.len(), word(answer)?))
}

/// A station with the units 1 and 0, to each of which a put was sent.
fn with_two(alloc: Global, fails: Vec<u64>) -> Result<Station<MemShelf>, Fail> {
    let mut station = station(alloc, fails);
    let _second = create(&mut station, 1, 1)?;
    let _first = create(&mut station, 0, 1)?;
    let _at_second = put_at(alloc, &mut station, 1, 7)?;
    let _at_first = put_at(alloc, &mut station, 0, 7)?;
    Ok(station)
}

#[test]
fn a_whole_station_restarts(rt: HostRuntime) -> Result<(), Fail> {
    let alloc = rt.alloc();
    let mut station = with_two(alloc, Vec::new(alloc))?;
    assert_eq!(rt; restart(&mut station)?, ([None, None], 0, Heard::Done));
    assert_eq!(rt; read(&mut station, 1, 1)?, Heard::Live);
    Ok(())
}

/// What a restart tells and answers after a put whose call of this number failed, and what the same put answers then.
fn settled_put(
    alloc: Global,
    call: u32,
) -> Result<(Told, usize, Heard, Option<bool>, Heard), Fail> {
    let mut station = station(alloc, vec![in alloc; FIRST_FILE + u64::from(call)]?);
    let _made = create(&mut station, 0, 1)?;
    let _failed = put_at(alloc, &mut station, 0, 7)?;
    let (told, count, answer) = restart(&mut station)?;
    let (found, again) = put_at(alloc, &mut station, 0, 7)?;
    Ok((told[0], count, answer, found, again))
}

#[test]
fn a_restart_settles_a_record_in_doubt(rt: HostRuntime) -> Result<(), Fail> {
    let alloc = rt.alloc();
    // A start makes four calls on the file, and a put the next four: its record's and its gate's, each with a sync.
    for (call, is_found, again) in [
        (5, false, Heard::Done),
        (6, false, Heard::Done),
        (7, true, Heard::Already),
        (8, true, Heard::Already),
    ] {
        assert_eq!(rt;
            settled_put(alloc, call)?,
            (Some((0, is_found)), 1, Heard::Done, None, again)
        );
    }
    Ok(())
}

#[test]
fn records_are_settled_in_order_of_the_names(rt: HostRuntime) -> Result<(), Fail> {
    let alloc = rt.alloc();
    // The put to unit 1, made first, fails at its gate, and that to unit 0 at its record.
    let fails = vec![in alloc; FIRST_FILE + 7, 2 * FIRST_FILE + 5]?;
    let mut station = with_two(alloc, fails)?;
    assert_eq!(rt;
        restart(&mut station)?,
        ([Some((0, false)), Some((1, true))], 2, Heard::Done)
    );
    assert_eq!(rt; read(&mut station, 0, 1)?, Heard::Absent);
    assert_eq!(rt; read(&mut station, 1, 1)?, Heard::Live);
    Ok(())
}

#[test]
fn a_restart_ends_at_the_first_unit_that_fails(rt: HostRuntime) -> Result<(), Fail> {
    let alloc = rt.alloc();
    // Both puts fail, and so does the first call of the start of unit 1, which is the second.
    let fails = vec![in alloc; FIRST_FILE + 7, FIRST_FILE + 8, 2 * FIRST_FILE + 7]?;
    let mut station = with_two(alloc, fails)?;
    assert_eq!(rt;
        restart(&mut station)?,
        ([Some((0, true)), None], 1, Heard::Fault)
    );
    assert_eq!(rt;
        restart(&mut station)?,
        ([Some((1, true)), None], 1, Heard::Done)
    );
    Ok(())
}

#[test]
fn a_broken_station_starts_nothing(rt: HostRuntime) -> Result<(), Fail> {
    let alloc = rt.alloc();
    let mut station = with_two(alloc, vec![in alloc; FIRST_FILE + 7]?)?;
    station.break_down();
    assert_eq!(rt; restart(&mut station)?, ([None, None], 0, Heard::Done));
    assert_eq!(rt; read(&mut station, 1, 1)?, Heard::Broken);
    Ok(())
}
