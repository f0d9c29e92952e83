//! What a task knows of the volume while it works.

ghost use Rattle.std.specs.Prelude.{◌≡◌, ◌<◌, IfOk, OnOk, OnErr, cond, map, length};
ghost use Rattle.volume_world.specs.Way.{Origin};
ghost use Rattle.volume_world.specs.Replying.{AreHomes, AreMoves};
ghost use Rattle.migrate_task.specs.Work.{broken_at, old_broken_at, with_broken, journey_to, journey_from, journeys_to, journeys_from, with_old_units, unbroken};
ghost use Rattle.migrate_task.specs.TaskParts.{work_of, IsWorkOn};

use code_mode::Mode;
use std::alloc::{AllocError, Global};
use unit_id::{Home, Homes, Move, Moves};

/// One unit that is moved: where it stood before the swap, and where it is to stand.
#[derive(Clone, Copy, Debug, PartialEq, Eq)]
pub(crate) struct Journey {
    pub(crate) index: u8,
    pub(crate) old: Home,
    pub(crate) dest: Home,
}

/// The volume's mode, the task and the number of its lock, the units that this call's look showed as current, with those
/// whose disks count as broken, and what is moved.
#[derive(Drop)]
pub(crate) struct Work {
    pub(crate) mode: Mode,
    pub(crate) task: u64,
    pub(crate) lock: u64,
    pub(crate) homes: Vec<Home>,
    pub(crate) journeys: Vec<Journey>,
}

/// What a move is before the swap, when it shows its destination.
fn journey_to(homes: &[Home], item: &Move) -> Journey
    requires { item.now.index < length homes.now }
    ensures { result ≡ journey_to homes.now item.now }
{
    Journey {
        index: item.index,
        old: homes[usize::from(item.index)],
        dest: Home {
            unit: item.unit,
            disk: item.disk,
            broken: item.dest_broken,
        },
    }
}

/// What a move is after the swap, when it shows its old unit.
fn journey_from(homes: &[Home], item: &Move) -> Journey
    requires { item.now.index < length homes.now }
    ensures { result ≡ journey_from homes.now item.now }
{
    Journey {
        index: item.index,
        old: Home {
            unit: item.unit,
            disk: item.disk,
            broken: false,
        },
        dest: homes[usize::from(item.index)],
    }
}

/// The moves of a lock before its swap.
fn journeys_to(alloc: Global, homes: &[Home], moves: &[Move]) -> Result<Vec<Journey>, AllocError>
    requires { (origin : Origin) × AreHomes origin homes.now × AreMoves origin moves.now }
    ensures { IfOk result (λ journeys. journeys.items ≡ journeys_to homes.now moves.now) }
{
    let mut journeys = Vec::new(alloc);
    'moves: for item in moves {
        let journey = journey_to(homes, item);
        journeys.push(journey)?;
    }
    Ok(journeys)
}

/// The moves of a lock after its swap.
fn journeys_from(alloc: Global, homes: &[Home], moves: &[Move]) -> Result<Vec<Journey>, AllocError>
    requires { (origin : Origin) × AreHomes origin homes.now × AreMoves origin moves.now }
    ensures { IfOk result (λ journeys. journeys.items ≡ journeys_from homes.now moves.now) }
{
    let mut journeys = Vec::new(alloc);
    'moves: for item in moves {
        let journey = journey_from(homes, item);
        journeys.push(journey)?;
    }
    Ok(journeys)
}

/// What a task knows by the moves of its lock, which isn't swapped.
pub(crate) fn work_to(
    alloc: Global,
    mode: Mode,
    task: u64,
    lock: u64,
    homes: &Homes,
    moves: &Moves,
) -> Result<Work, AllocError>
    requires { (origin : Origin) × AreHomes origin homes.now × AreMoves origin moves.now }
    ensures { IfOk result (λ work. work_of work ≡ record { mode = mode; task = task; lock = lock; homes = homes.now; journeys = journeys_to homes.now moves.now }) }
{
    let journeys = journeys_to(alloc, homes.as_slice(), moves.as_slice())?;
    let homes = Vec::from_slice(alloc, homes.as_slice())?;
    Ok(Work {
        mode,
        task,
        lock,
        homes,
        journeys,
    })
}

/// What a task knows by the moves of its lock, which is swapped.
pub(crate) fn work_from(
    alloc: Global,
    mode: Mode,
    task: u64,
    lock: u64,
    homes: &Homes,
    moves: &Moves,
) -> Result<Work, AllocError>
    requires { (origin : Origin) × AreHomes origin homes.now × AreMoves origin moves.now }
    ensures { IfOk result (λ work. work_of work ≡ record { mode = mode; task = task; lock = lock; homes = homes.now; journeys = journeys_from homes.now moves.now }) }
{
    let journeys = journeys_from(alloc, homes.as_slice(), moves.as_slice())?;
    let homes = Vec::from_slice(alloc, homes.as_slice())?;
    Ok(Work {
        mode,
        task,
        lock,
        homes,
        journeys,
    })
}

/// What a task knows once its lock moves units elsewhere. Where the memory is out, it knows what it knew.
pub(crate) fn move_again(alloc: Global, work: &mut Work, moves: &Moves) -> Result<(), AllocError>
    requires { (origin : Origin) × IsWorkOn origin (work_of work.old) × AreMoves origin moves.now }
    ensures ok { OnOk result (work_of work.new ≡ record (work_of work.old) { journeys = journeys_to work.old.homes.items moves.now }) }
    ensures err { OnErr result (work_of work.new ≡ work_of work.old) }
{
    let journeys = journeys_to(alloc, work.homes.as_slice(), moves.as_slice())?;
    work.journeys = journeys;
    Ok(())
}

/// A home whose disk counts as broken where it is this one.
fn broken_at(home: Home, disk: u32) -> Home
    ensures { result ≡ broken_at disk home }
{
    Home {
        unit: home.unit,
        disk: home.disk,
        broken: home.disk == disk || home.broken,
    }
}

/// Units on this disk count as units on a broken one.
fn mark_homes(homes: &mut [Home], disk: u32)
    ensures { homes.new ≡ map (broken_at disk) homes.old }
{
    for home in homes.iter_mut() {
        *home = broken_at(*home, disk);
    }
}

/// A journey whose old disk counts as broken where it is this one.
fn old_broken_at(journey: Journey, disk: u32) -> Journey
    ensures { result ≡ old_broken_at disk journey }
{
    Journey {
        index: journey.index,
        old: broken_at(journey.old, disk),
        dest: journey.dest,
    }
}

/// Old units on this disk count as units on a broken one.
fn mark_journeys(journeys: &mut [Journey], disk: u32)
    ensures { journeys.new ≡ map (old_broken_at disk) journeys.old }
{
    for journey in journeys.iter_mut() {
        *journey = old_broken_at(*journey, disk);
    }
}

/// Where a disk is broken, it counts as broken from now on.
pub(crate) fn count_broken(work: &mut Work, disk: u32, is_broken: bool)
    ensures { work_of work.new ≡ cond is_broken (with_broken disk (work_of work.old)) (work_of work.old) }
{
    if !is_broken {
        return;
    }
    mark_homes(&mut work.homes, disk);
    mark_journeys(&mut work.journeys, disk);
}

/// The journeys whose old units stand on disks that aren't broken.
pub(crate) fn with_old_units(
    alloc: Global,
    journeys: &[Journey],
) -> Result<Vec<Journey>, AllocError>
    ensures { IfOk result (λ left. left.items ≡ with_old_units journeys.now) }
{
    journeys
        .iter()
        .copied()
        .filter(|journey| !journey.old.broken)
        .collect(alloc)
}

/// The current units on disks that don't count as broken.
pub(crate) fn unbroken(alloc: Global, homes: &[Home]) -> Result<Vec<Home>, AllocError>
    ensures { IfOk result (λ left. left.items ≡ unbroken homes.now) }
{
    homes
        .iter()
        .copied()
        .filter(|home| !home.broken)
        .collect(alloc)
}
