//! Names in great numbers, entered and taken out in any order.

use crate::{Admin, AdminFault, First, Object, Placer};
use std::alloc::Global;
use std::process::Abort;
use std::test::Fail;

/// The tables of a store with one placer.
fn one_placer(alloc: Global) -> Result<Admin, Fail> {
    let first: Box<dyn Placer> = Box::new(alloc, First::new())?;
    let mut placers = Vec::new(alloc);
    placers.push(first)?;
    Ok(Admin::make(alloc, placers)?)
}

/// An object of one byte.
fn object(bid: u64) -> Object {
    Object {
        vid: 1,
        bid,
        size: 1,
    }
}

/// Enters the name of a bid.
fn enter(alloc: Global, admin: &mut Admin, bid: u64) -> Result<(), Fail> {
    let name = format!(in alloc; "n{bid}")?;
    admin.add_name(name.as_str(), object(bid))?;
    Ok(())
}

/// Takes the name of a bid out.
fn take_out(alloc: Global, admin: &mut Admin, bid: u64) -> Result<Result<u64, AdminFault>, Fail> {
    let name = format!(in alloc; "n{bid}")?;
    Ok(admin.remove_name(name.as_str()).map(|object| object.bid))
}

/// The bid of the name at a place.
fn bid_at(admin: &Admin, place: u64) -> Result<Option<u64>, Fail> {
    match admin.name_at(place)? {
        Some((_name, object)) => Ok(Some(object.bid)),
        None => Ok(None),
    }
}

/// Enters the names of the bids 0 to 99,999.
fn enter_all(alloc: Global, admin: &mut Admin) -> Result<(), Fail> {
    for bid in 0..100_000 {
        enter(alloc, admin, bid)?;
    }
    Ok(())
}

/// Takes the name of each seventh bid out, in an order that jumps about.
fn take_sevenths(rt: &impl Abort, alloc: Global, admin: &mut Admin) -> Result<(), Fail> {
    for step in 0..14_286u64 {
        let bid = step * 65_537 % 14_286 * 7;
        assert_eq!(rt; take_out(alloc, admin, bid)?, Ok(bid));
    }
    Ok(())
}

/// Compares each place, where each seventh name is gone.
fn compare_places(rt: &impl Abort, admin: &Admin) -> Result<(), Fail> {
    for place in 0..85_714u64 {
        assert_eq!(rt; bid_at(admin, place)?, Some(place + place / 6 + 1));
    }
    assert_eq!(rt; bid_at(admin, 85_714)?, None);
    Ok(())
}

/// Takes all others out, in an order that jumps about too.
fn take_others(rt: &impl Abort, alloc: Global, admin: &mut Admin) -> Result<(), Fail> {
    for step in 0..85_714u64 {
        let place = step * 65_537 % 85_714;
        let bid = place + place / 6 + 1;
        assert_eq!(rt; take_out(alloc, admin, bid)?, Ok(bid));
    }
    Ok(())
}

/// Compares the refusals of a store that holds as many names as it can.
fn compare_full(rt: &impl Abort, admin: &mut Admin) {
    assert_eq!(rt; admin.name("n7"), Ok(object(7)));
    assert_eq!(rt; admin.may_add_name("more"), Err(AdminFault::LimitNames));
    assert_eq!(rt;
        admin.add_name("more", object(7)),
        Err(AdminFault::LimitNames)
    );
    assert_eq!(rt; admin.may_add_name("n7"), Err(AdminFault::NameTaken));
    assert_eq!(rt; admin.add_name("n7", object(7)), Err(AdminFault::NameTaken));
}

/// Compares the refusals of a store that doesn't hold the name.
fn compare_without(rt: &impl Abort, admin: &mut Admin) {
    assert_eq!(rt; admin.name("n7"), Err(AdminFault::NoName));
    assert_eq!(rt; admin.remove_name("n7"), Err(AdminFault::NoName));
    assert_eq!(rt; admin.may_add_name("n7"), Ok(()));
}

#[test]
fn names_in_any_order(rt: HostRuntime) -> Result<(), Fail> {
    let mut admin = one_placer(rt.alloc())?;
    compare_without(&rt, &mut admin);
    enter_all(rt.alloc(), &mut admin)?;
    compare_full(&rt, &mut admin);
    take_sevenths(&rt, rt.alloc(), &mut admin)?;
    compare_places(&rt, &admin)?;
    compare_without(&rt, &mut admin);
    take_others(&rt, rt.alloc(), &mut admin)?;
    assert_eq!(rt; bid_at(&admin, 0)?, None);
    enter(rt.alloc(), &mut admin, 7)?;
    assert_eq!(rt; bid_at(&admin, 0)?, Some(7));
    Ok(())
}

/// Enters the names of 99,000 bids from the first on.
fn enter_from(alloc: Global, admin: &mut Admin, first: u32) -> Result<(), Fail> {
    for offset in 0..99_000u64 {
        enter(alloc, admin, u64::from(first) + offset)?;
    }
    Ok(())
}

/// Takes them out in an order that jumps about, but for each thousandth.
fn take_from(rt: &impl Abort, alloc: Global, admin: &mut Admin, first: u32) -> Result<(), Fail> {
    for step in 0..99_000u64 {
        let offset = step * 65_537 % 99_000;
        if offset % 1_000 != 0 {
            assert_eq!(rt;
                take_out(alloc, admin, u64::from(first) + offset)?,
                Ok(u64::from(first) + offset)
            );
        }
    }
    Ok(())
}

/// Compares each place, where each thousandth name stayed in three rounds.
fn compare_thousands(rt: &impl Abort, admin: &Admin) -> Result<(), Fail> {
    for place in 0..297u64 {
        let bid = place / 99 * 100_000 + place % 99 * 1_000;
        assert_eq!(rt; bid_at(admin, place)?, Some(bid));
    }
    assert_eq!(rt; bid_at(admin, 297)?, None);
    Ok(())
}

#[test]
fn names_stay_in_order_among_many_puts(rt: HostRuntime) -> Result<(), Fail> {
    let mut admin = one_placer(rt.alloc())?;
    for first in [0, 100_000, 200_000] {
        enter_from(rt.alloc(), &mut admin, first)?;
        take_from(&rt, rt.alloc(), &mut admin, first)?;
    }
    compare_thousands(&rt, &admin)?;
    assert_eq!(rt; admin.name("n203000"), Ok(object(203_000)));
    assert_eq!(rt; admin.name("n203001"), Err(AdminFault::NoName));
    Ok(())
}
