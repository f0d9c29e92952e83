//! Each call and each refusal, by tables of steps over small stores.

use crate::{Admin, AdminFault, DiskState, First, Least, Object, Placer, Seen, Turns};
use code_mode::Mode;
use std::alloc::Global;
use std::process::Abort;
use std::test::Fail;
use unit_id::{Home, Homes, Kind, Target, UnitFault, UnitName};

/// A call on disks, volumes and tasks, with its answer.
#[derive(Clone, Copy)]
enum Step<'a> {
    Disks(u32, Result<(), AdminFault>),
    Placer(u32, Result<(), AdminFault>),
    Volume(Mode, Result<&'a [u32], AdminFault>),
    Lose(u32),
    Break(u32, Result<(), AdminFault>),
    State(u32, Result<DiskState, AdminFault>),
    Balance(u32, &'a [u8], Result<u64, AdminFault>),
    Drop(u32, Result<u32, AdminFault>),
    Repair(u32, Result<u32, AdminFault>),
    RepairAll(Result<u32, AdminFault>),
    Unfinished(&'a [u64]),
    Task(u64, Kind, u32, &'a [Target]),
    Assign(u64, Result<&'a [Target], AdminFault>),
    Finish(u64, u32, &'a [Target]),
    Settle(&'a [(u32, DiskState)]),
}

/// The tables of a store with the placers first, least and turns.
fn three_placers(alloc: Global) -> Result<Admin, Fail> {
    let first: Box<dyn Placer> = Box::new(alloc, First::new())?;
    let least: Box<dyn Placer> = Box::new(alloc, Least::new())?;
    let turns: Box<dyn Placer> = Box::new(alloc, Turns::new())?;
    let mut placers = Vec::new(alloc);
    placers.push(first)?;
    placers.push(least)?;
    placers.push(turns)?;
    Ok(Admin::make(alloc, placers)?)
}

/// Compares the units of a new volume.
fn on_disks(rt: &impl Abort, vid: u32, homes: &[Home], disks: &[u32]) {
    assert_eq!(rt; homes.len(), disks.len());
    for (index, home) in homes.iter().enumerate() {
        let unit = home.unit;
        assert!(rt; unit.vid == vid && usize::from(unit.index) == index && unit.epoch == 1);
        assert!(rt; !home.broken);
        assert_eq!(rt; Some(home.disk), disks.get(index).copied());
    }
}

/// Makes a volume: its units stand on these disks, or it is refused.
fn new_volume(rt: &impl Abort, admin: &mut Admin, mode: Mode, answer: Result<&[u32], AdminFault>) {
    match admin.new_volume(mode) {
        Ok((vid, homes)) => match answer {
            Ok(disks) => on_disks(rt, vid, homes.as_slice(), disks),
            Err(_) => assert!(rt; false),
        },
        Err(fault) => assert_eq!(rt; answer.err(), Some(fault)),
    }
}

/// Gives the store its disks.
fn set_disks(rt: &impl Abort, admin: &mut Admin, count: u32, answer: Result<(), AdminFault>) {
    assert_eq!(rt; admin.set_disks(count), answer);
}

/// Takes a placer into use.
fn use_placer(rt: &impl Abort, admin: &mut Admin, number: u32, answer: Result<(), AdminFault>) {
    assert_eq!(rt; admin.use_placer(number), answer);
}

/// Breaks a disk.
fn break_disk(rt: &impl Abort, admin: &mut Admin, disk: u32, answer: Result<(), AdminFault>) {
    assert_eq!(rt; admin.break_disk(disk), answer);
}

/// Asks for the state of a disk.
fn state(rt: &impl Abort, admin: &Admin, disk: u32, answer: Result<DiskState, AdminFault>) {
    assert_eq!(rt; admin.state(disk), answer);
}

/// Plans a balance of some units.
fn balance(
    rt: &impl Abort,
    admin: &mut Admin,
    vid: u32,
    indexes: &[u8],
    answer: Result<u64, AdminFault>,
) {
    assert!(rt; !indexes.is_empty());
    assert_eq!(rt; admin.plan_balance(vid, indexes), answer);
}

/// Plans a drop of a disk.
fn drop_disk(rt: &impl Abort, admin: &mut Admin, disk: u32, answer: Result<u32, AdminFault>) {
    assert_eq!(rt; admin.plan_drop(disk), answer);
}

/// Plans a repair of a disk.
fn repair(rt: &impl Abort, admin: &mut Admin, disk: u32, answer: Result<u32, AdminFault>) {
    assert_eq!(rt; admin.plan_repair(disk), answer);
}

/// Plans a repair of all broken disks.
fn repair_all(rt: &impl Abort, admin: &mut Admin, answer: Result<u32, AdminFault>) {
    assert_eq!(rt; admin.plan_repair_all(), answer);
}

/// Asks for the unfinished tasks.
fn unfinished(rt: &impl Abort, admin: &Admin, numbers: &[u64]) {
    match admin.unfinished() {
        Ok(found) => assert_eq!(rt; found.as_slice(), numbers),
        Err(_) => assert!(rt; false),
    }
}

/// Asks for a task as it stands.
fn task(rt: &impl Abort, admin: &Admin, id: u64, kind: Kind, vid: u32, targets: &[Target]) {
    assert!(rt; admin.is_unfinished(id));
    match admin.task(id) {
        Ok(task) => {
            assert!(rt; task.id == id && task.kind == kind && task.vid == vid);
            assert_eq!(rt; task.targets.as_slice(), targets);
        }
        Err(_) => assert!(rt; false),
    }
}

/// Gives the targets of a task their disks.
fn assign(rt: &impl Abort, admin: &mut Admin, id: u64, answer: Result<&[Target], AdminFault>) {
    assert!(rt; admin.is_unfinished(id));
    match admin.assign(id) {
        Ok(task) => assert_eq!(rt; Ok(task.targets.as_slice()), answer),
        Err(fault) => assert_eq!(rt; answer.err(), Some(fault)),
    }
}

/// A unit of this volume, index and epoch on a disk.
fn home(name: (u32, u8, u32), disk: u32, broken: bool) -> Result<Home, UnitFault> {
    let unit = UnitName::new(name.0, name.1, name.2)?;
    Ok(Home { unit, disk, broken })
}

/// The units of epoch 2 of a volume on these disks.
fn moved(vid: u32, targets: &[Target]) -> Result<Homes, UnitFault> {
    let mut units = Homes::empty();
    for target in targets {
        let next = home((vid, target.index, 2), target.disk, false)?;
        if units.len() < 27 {
            units.push(next);
        }
    }
    Ok(units)
}

/// Ends a task whose units are on these disks now.
fn finish(rt: &impl Abort, admin: &mut Admin, id: u64, vid: u32, targets: &[Target]) {
    match moved(vid, targets) {
        Ok(units) => admin.finish(id, &units),
        Err(_) => assert!(rt; false),
    }
}

/// Settles the states of the disks.
fn settle(rt: &impl Abort, admin: &mut Admin, changes: &[(u32, DiskState)]) {
    match admin.settle() {
        Ok(found) => assert_eq!(rt; found.as_slice(), changes),
        Err(_) => assert!(rt; false),
    }
}

/// Does a step and compares its answer.
fn run(rt: &impl Abort, admin: &mut Admin, step: Step<'_>) {
    match step {
        Step::Disks(count, answer) => set_disks(rt, admin, count, answer),
        Step::Placer(number, answer) => use_placer(rt, admin, number, answer),
        Step::Volume(mode, answer) => new_volume(rt, admin, mode, answer),
        Step::Lose(vid) => admin.lose_volume(vid),
        Step::Break(disk, answer) => break_disk(rt, admin, disk, answer),
        Step::State(disk, answer) => state(rt, admin, disk, answer),
        Step::Balance(vid, indexes, answer) => balance(rt, admin, vid, indexes, answer),
        Step::Drop(disk, answer) => drop_disk(rt, admin, disk, answer),
        Step::Repair(disk, answer) => repair(rt, admin, disk, answer),
        Step::RepairAll(answer) => repair_all(rt, admin, answer),
        Step::Unfinished(numbers) => unfinished(rt, admin, numbers),
        Step::Task(id, kind, vid, targets) => task(rt, admin, id, kind, vid, targets),
        Step::Assign(id, answer) => assign(rt, admin, id, answer),
        Step::Finish(id, vid, targets) => finish(rt, admin, id, vid, targets),
        Step::Settle(changes) => settle(rt, admin, changes),
    }
}

/// Does steps one after the other.
fn run_all(rt: &impl Abort, admin: &mut Admin, steps: &[Step<'_>]) {
    for step in steps {
        run(rt, admin, *step);
    }
}

/// A disk that is in this state is refused.
fn bad_state<T>(state: DiskState) -> Result<T, AdminFault> {
    Err(AdminFault::BadState { state })
}

/// Disks that are given once, and placers that can't be taken.
fn give_disks(rt: &impl Abort, admin: &mut Admin) {
    let steps = [
        Step::Disks(0, Err(AdminFault::LimitDisks)),
        Step::Disks(65, Err(AdminFault::LimitDisks)),
        Step::Volume(Mode::Ec6P3, Err(AdminFault::FewDisks { have: 0, need: 9 })),
        Step::Disks(10, Ok(())),
        Step::Disks(10, Err(AdminFault::DisksGiven { have: 10 })),
        Step::Placer(0, Err(AdminFault::NoPlacer)),
        Step::Placer(4, Err(AdminFault::NoPlacer)),
        Step::Placer(1, Err(AdminFault::PlacerUsed)),
    ];
    run_all(rt, admin, &steps);
}

/// Volumes by turns and then by the fewest units.
fn change_placers(rt: &impl Abort, admin: &mut Admin) {
    let steps = [
        Step::Placer(3, Ok(())),
        Step::Placer(3, Err(AdminFault::PlacerUsed)),
        Step::Placer(1, Err(AdminFault::PlacerUsed)),
        Step::Volume(Mode::Ec6P3, Ok(&[1, 3, 5, 7, 9, 2, 8, 6, 4])),
        Step::Placer(2, Ok(())),
        Step::Volume(Mode::Ec3P3, Ok(&[10, 1, 2, 3, 4, 5])),
    ];
    run_all(rt, admin, &steps);
}

/// A disk that breaks once, and is taken no more.
fn break_a_disk(rt: &impl Abort, admin: &mut Admin) {
    let steps = [
        Step::Break(11, Err(AdminFault::NoTarget)),
        Step::Break(0, Err(AdminFault::NoTarget)),
        Step::Break(10, Ok(())),
        Step::Break(10, bad_state(DiskState::Broken)),
        Step::Drop(10, bad_state(DiskState::Broken)),
        Step::Volume(Mode::Ec3P3, Ok(&[6, 7, 8, 9, 1, 2])),
    ];
    run_all(rt, admin, &steps);
}

/// The states of disks.
fn ask_for_states(rt: &impl Abort, admin: &Admin) {
    state(rt, admin, 10, Ok(DiskState::Broken));
    state(rt, admin, 9, Ok(DiskState::Normal));
    state(rt, admin, 11, Err(AdminFault::NoTarget));
    state(rt, admin, 0, Err(AdminFault::NoTarget));
}

#[test]
fn placers_and_volumes(rt: HostRuntime) -> Result<(), Fail> {
    let mut admin = three_placers(rt.alloc())?;
    give_disks(&rt, &mut admin);
    change_placers(&rt, &mut admin);
    break_a_disk(&rt, &mut admin);
    ask_for_states(&rt, &admin);
    for _volume in 3..64 {
        admin.new_volume(Mode::Ec3P3)?;
    }
    new_volume(&rt, &mut admin, Mode::Ec3P3, Err(AdminFault::LimitVolumes));
    Ok(())
}

/// Each free disk holds one unit, also where turns go round several times and no other disk is free.
fn each_free_disk_once(rt: &impl Abort, admin: &mut Admin) {
    let steps = [
        Step::Disks(7, Ok(())),
        Step::Placer(3, Ok(())),
        Step::Break(4, Ok(())),
        Step::Volume(Mode::Ec3P3, Ok(&[1, 3, 6, 2, 5, 7])),
        Step::Volume(Mode::Ec3P3, Ok(&[1, 5, 2, 3, 6, 7])),
        Step::Break(7, Ok(())),
        Step::Volume(Mode::Ec3P3, Err(AdminFault::FewDisks { have: 5, need: 6 })),
    ];
    run_all(rt, admin, &steps);
}

#[test]
fn disks_apart(rt: HostRuntime) -> Result<(), Fail> {
    let mut admin = three_placers(rt.alloc())?;
    each_free_disk_once(&rt, &mut admin);
    Ok(())
}

/// Ten disks and two volumes on the first nine.
fn two_volumes(rt: &impl Abort, admin: &mut Admin) {
    let steps = [
        Step::Disks(10, Ok(())),
        Step::Volume(Mode::Ec6P3, Ok(&[1, 2, 3, 4, 5, 6, 7, 8, 9])),
        Step::Volume(Mode::Ec6P3, Ok(&[1, 2, 3, 4, 5, 6, 7, 8, 9])),
        Step::Drop(11, Err(AdminFault::NoTarget)),
        Step::Repair(11, Err(AdminFault::NoTarget)),
        Step::Repair(1, bad_state(DiskState::Normal)),
    ];
    run_all(rt, admin, &steps);
}

/// The first disk drains, and is chosen no more.
fn drop_the_first(rt: &impl Abort, admin: &mut Admin) {
    let steps = [
        Step::Drop(1, Ok(2)),
        Step::Drop(1, Ok(0)),
        Step::State(1, Ok(DiskState::Normal)),
        Step::Balance(1, &[0], Err(AdminFault::Busy { task: 1 })),
        Step::Balance(2, &[0, 1], Err(AdminFault::Busy { task: 2 })),
        Step::Volume(
            Mode::Ec12P4,
            Err(AdminFault::FewDisks { have: 9, need: 16 }),
        ),
        Step::Unfinished(&[1, 2]),
        Step::Task(2, Kind::Drop, 2, &[Target { index: 0, disk: 0 }]),
    ];
    run_all(rt, admin, &steps);
}

/// A unit moves to the tenth disk.
fn move_to_the_tenth(rt: &impl Abort, admin: &mut Admin) {
    let steps = [
        Step::Assign(1, Ok(&[Target { index: 0, disk: 10 }])),
        Step::Assign(1, Ok(&[Target { index: 0, disk: 10 }])),
        Step::Settle(&[]),
        Step::Finish(1, 1, &[Target { index: 0, disk: 10 }]),
        Step::Settle(&[]),
        Step::Assign(2, Ok(&[Target { index: 0, disk: 10 }])),
    ];
    run_all(rt, admin, &steps);
}

/// The tenth disk breaks while another unit is to go there.
fn repair_the_tenth(rt: &impl Abort, admin: &mut Admin) {
    let steps = [
        Step::Break(10, Ok(())),
        Step::Repair(10, Ok(1)),
        Step::Assign(2, Err(AdminFault::NoDisk)),
        Step::Task(2, Kind::Drop, 2, &[Target { index: 0, disk: 0 }]),
        Step::Repair(10, Ok(0)),
        Step::Finish(3, 1, &[Target { index: 0, disk: 1 }]),
        Step::Settle(&[]),
        Step::Finish(2, 2, &[Target { index: 0, disk: 1 }]),
        Step::Settle(&[(10, DiskState::Repaired)]),
        Step::Repair(10, bad_state(DiskState::Repaired)),
    ];
    run_all(rt, admin, &steps);
}

/// The ninth disk is dropped.
fn drop_the_ninth(rt: &impl Abort, admin: &mut Admin) {
    let steps = [
        Step::Drop(9, Ok(2)),
        Step::Finish(4, 1, &[Target { index: 8, disk: 10 }]),
        Step::Finish(5, 2, &[Target { index: 8, disk: 10 }]),
        Step::Settle(&[(9, DiskState::Dropped)]),
        Step::Drop(9, bad_state(DiskState::Dropped)),
        Step::Balance(1, &[7], Ok(6)),
        Step::Assign(6, Err(AdminFault::NoDisk)),
        Step::Unfinished(&[6]),
    ];
    run_all(rt, admin, &steps);
}

#[test]
fn drops_and_repairs(rt: HostRuntime) -> Result<(), Fail> {
    let mut admin = three_placers(rt.alloc())?;
    two_volumes(&rt, &mut admin);
    drop_the_first(&rt, &mut admin);
    move_to_the_tenth(&rt, &mut admin);
    repair_the_tenth(&rt, &mut admin);
    drop_the_ninth(&rt, &mut admin);
    Ok(())
}

/// Units of a volume that are moved together.
fn balance_two(rt: &impl Abort, admin: &mut Admin) {
    let steps = [
        Step::Disks(12, Ok(())),
        Step::Volume(Mode::Ec6P3, Ok(&[1, 2, 3, 4, 5, 6, 7, 8, 9])),
        Step::Volume(Mode::Ec3P3, Ok(&[1, 2, 3, 4, 5, 6])),
        Step::Balance(3, &[0], Err(AdminFault::NoVolume)),
        Step::Balance(0, &[0], Err(AdminFault::NoVolume)),
        Step::Balance(1, &[0, 9], Err(AdminFault::NoIndex)),
        Step::Balance(1, &[0, 1, 2], Err(AdminFault::TooMany { most: 2 })),
        Step::Balance(1, &[7, 8], Ok(1)),
        Step::Balance(1, &[6, 8], Err(AdminFault::Busy { task: 1 })),
    ];
    run_all(rt, admin, &steps);
}

/// Four disks that break, and are repaired together.
fn repair_four(rt: &impl Abort, admin: &mut Admin) {
    let steps = [
        Step::Assign(
            1,
            Ok(&[Target { index: 7, disk: 10 }, Target { index: 8, disk: 11 }]),
        ),
        Step::RepairAll(Err(AdminFault::NoTarget)),
        Step::Break(1, Ok(())),
        Step::Break(2, Ok(())),
        Step::Break(3, Ok(())),
        Step::Break(12, Ok(())),
        Step::RepairAll(Ok(4)),
        Step::State(12, Ok(DiskState::Repairing)),
    ];
    run_all(rt, admin, &steps);
}

/// The tasks of the repair.
fn ask_for_tasks(rt: &impl Abort, admin: &mut Admin) {
    let first_two = [Target { index: 0, disk: 0 }, Target { index: 1, disk: 0 }];
    let third = [Target { index: 2, disk: 0 }];
    task(rt, admin, 2, Kind::Repair, 1, &first_two);
    task(rt, admin, 3, Kind::Repair, 1, &third);
    task(rt, admin, 4, Kind::Repair, 2, &first_two);
    task(rt, admin, 5, Kind::Repair, 2, &third);
}

/// Disks for them, and a volume that is lost.
fn end_repairs(rt: &impl Abort, admin: &mut Admin) {
    let steps = [
        Step::Assign(2, Err(AdminFault::NoDisk)),
        Step::Assign(
            4,
            Ok(&[Target { index: 0, disk: 7 }, Target { index: 1, disk: 8 }]),
        ),
        Step::Settle(&[(12, DiskState::Repaired)]),
        Step::Lose(1),
        Step::Unfinished(&[4, 5]),
    ];
    run_all(rt, admin, &steps);
}

#[test]
fn several_units_at_once(rt: HostRuntime) -> Result<(), Fail> {
    let mut admin = three_placers(rt.alloc())?;
    balance_two(&rt, &mut admin);
    repair_four(&rt, &mut admin);
    ask_for_tasks(&rt, &mut admin);
    end_repairs(&rt, &mut admin);
    Ok(())
}

/// The epoch and the disk of each of nine new units.
const NEW_UNITS: [(u32, u32); 9] = [
    (1, 1),
    (1, 2),
    (1, 3),
    (1, 4),
    (1, 5),
    (1, 6),
    (1, 7),
    (1, 8),
    (1, 9),
];

/// A look at a volume whose units are those, of which the disks above `whole` are broken.
fn look(locked: bool, homes: &[(u32, u32)], whole: u32) -> Result<Seen, UnitFault> {
    let mut units = Homes::empty();
    for (epoch, disk) in homes {
        let index = units.len();
        if index < 27 {
            units.push(home((1, index as u8, *epoch), *disk, *disk > whole)?);
        }
    }
    Ok(Seen { locked, units })
}

/// Looks at two volumes of mode EC6P3, of which the disks of the second above `whole` are broken.
fn looks(alloc: Global, locked: [bool; 2], whole: u32) -> Result<Vec<Seen>, Fail> {
    let mut views = Vec::new(alloc);
    views.push(look(locked[0], &NEW_UNITS, 9)?)?;
    views.push(look(locked[1], &NEW_UNITS, whole)?)?;
    Ok(views)
}

#[test]
fn picks(rt: HostRuntime) -> Result<(), Fail> {
    let mut admin = three_placers(rt.alloc())?;
    assert_eq!(rt; admin.pick_volume(&[], 1), Err(AdminFault::NoVolume));
    admin.set_disks(9)?;
    for _volume in 0..3 {
        admin.new_volume(Mode::Ec6P3)?;
    }
    admin.lose_volume(2);
    let rows = [
        ([false, false], 8, 4, Ok((1, 1))),
        ([false, false], 8, 1, Ok((3, 1))),
        ([false, false], 8, 3, Ok((3, 2))),
        ([false, false], 9, 1, Ok((1, 5))),
        ([false, false], 9, 1, Ok((3, 5))),
        ([true, false], 8, 1, Ok((3, 6))),
        ([true, false], 7, 1, Err(AdminFault::NoVolume)),
        ([true, true], 9, 1, Err(AdminFault::NoVolume)),
    ];
    for (locked, whole, blobs, answer) in rows {
        let views = looks(rt.alloc(), locked, whole)?;
        assert_eq!(rt; admin.pick_volume(&views, blobs), answer);
    }
    Ok(())
}

/// Compares the text of a name's location, or the refusal.
fn locate(
    rt: &impl Abort,
    admin: &Admin,
    name: &str,
    view: &Seen,
    answer: Result<&str, AdminFault>,
) {
    match admin.location(name, view) {
        Ok(text) => assert_eq!(rt; Ok(text.as_slice()), answer.map(|text| text.as_bytes())),
        Err(fault) => assert_eq!(rt; answer.err(), Some(fault)),
    }
}

/// A store with a volume, and with a name of one blob and a name of three.
fn two_names(alloc: Global) -> Result<Admin, Fail> {
    let mut admin = three_placers(alloc)?;
    admin.set_disks(10)?;
    admin.new_volume(Mode::Ec6P3)?;
    let (vid, bid, size) = (1, 1, 5);
    admin.add_name("a", Object { vid, bid, size })?;
    let (bid, size) = (7, 8_388_609);
    admin.add_name("large", Object { vid, bid, size })?;
    Ok(admin)
}

#[test]
fn locations(rt: HostRuntime) -> Result<(), Fail> {
    let mut admin = two_names(rt.alloc())?;
    let small =
        "{\"blobs\":[[1,5]],\"mode\":\"EC6P3\",\"size\":5,\"units\":[[0,2,10],[1,1,2],[2,1,3],[3,1,4],[4,1,5],[5,1,6],[6,1,7],[7,1,8],[8,1,9]],\"vid\":1}";
    let large =
        "{\"blobs\":[[7,4194304],[8,4194304],[9,1]],\"mode\":\"EC6P3\",\"size\":8388609,\"units\":[],\"vid\":1}";
    let moved = [
        (2, 10),
        (1, 2),
        (1, 3),
        (1, 4),
        (1, 5),
        (1, 6),
        (1, 7),
        (1, 8),
        (1, 9),
    ];
    let none = look(false, &[], 9)?;
    let seen = look(false, &moved, 10)?;
    locate(&rt, &admin, "a", &seen, Ok(small));
    locate(&rt, &admin, "large", &none, Ok(large));
    locate(&rt, &admin, "b", &none, Err(AdminFault::NoName));
    admin.lose_volume(1);
    locate(&rt, &admin, "a", &none, Err(AdminFault::NoVolume));
    Ok(())
}

/// Plans and ends as many tasks as there are numbers.
fn use_up_tasks(admin: &mut Admin) -> Result<u64, AdminFault> {
    let none = Homes::empty();
    let mut last = 0;
    for _task in 0..1_000_000u32 {
        last = admin.plan_balance(1, &[0])?;
        admin.finish(last, &none);
    }
    Ok(last)
}

#[test]
fn a_million_tasks(rt: HostRuntime) -> Result<(), Fail> {
    let mut admin = three_placers(rt.alloc())?;
    admin.set_disks(9)?;
    admin.new_volume(Mode::Ec6P3)?;
    assert_eq!(rt; use_up_tasks(&mut admin), Ok(1_000_000));
    balance(&rt, &mut admin, 1, &[0], Err(AdminFault::LimitTasks));
    drop_disk(&rt, &mut admin, 1, Err(AdminFault::LimitTasks));
    break_disk(&rt, &mut admin, 1, Ok(()));
    repair(&rt, &mut admin, 1, Err(AdminFault::LimitTasks));
    repair_all(&rt, &mut admin, Err(AdminFault::LimitTasks));
    state(&rt, &admin, 1, Ok(DiskState::Broken));
    Ok(())
}
