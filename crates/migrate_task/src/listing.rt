//! What destinations and current units list.

ghost use Rattle.std.specs.Prelude.{ℕ, List, [], ◌≡◌, IfOk, OnOk};
ghost use Rattle.unit_id.specs.declared.task.Task.{Task as TaskView};
ghost use Rattle.code_mode.specs.declared.mode.Mode.{Mode as ModeView};
ghost use Rattle.volume_world.specs.Asking.{IsUnitOn};
ghost use Rattle.volume_world.specs.Replying.{RepliesSend};
ghost use Rattle.volume_world.specs.Call.{Next};
ghost use Rattle.unit_id.specs.declared.homes.Home.{Home as HomeView};
ghost use Rattle.migrate_task.specs.declared.work.Journey.{Journey as JourneyView};
ghost use Rattle.migrate_task.specs.declared.listing.Listing.{Listing as ListingView};
ghost use Rattle.migrate_task.specs.Work.{Work as WorkView, errands};
ghost use Rattle.migrate_task.specs.Copies.{next_errand};
ghost use Rattle.migrate_task.specs.AdvanceCall.{TaskStage, task_call, listing_dests, listing_units, after_dest, after_unit, copying};
ghost use Rattle.migrate_task.specs.TaskParts.{GoesOn, told, AreJourneys, AreUnits, work_of, with_heard};
ghost use Rattle.std.specs.Prelude.{None};

use crate::Why;
use crate::halt::{Halt, step};
use crate::work::{Journey, Work};
use std::alloc::{AllocError, Global};
use unit_id::{Answer, Bids, Home, Request};
use volume_world::{Event, Port, Reply};

/// What a unit of this index was heard to list.
#[derive(Drop)]
pub(crate) struct Listing {
    pub(crate) index: u8,
    pub(crate) live: Bids,
    pub(crate) marked: Bids,
}

/// Adds a listing, if it was heard.
fn add(heard: &mut Vec<Listing>, listing: Option<Listing>) -> Result<(), AllocError>
    ensures { OnOk result (heard.new.items ≡ with_heard heard.old.items listing) }
{
    match listing {
        Some(listing) => {
            heard.push(listing)?;
            Ok(())
        }
        None => Ok(()),
    }
}

/// What the answer to a listing of a destination makes of a call.
fn dest_heard(reply: Reply, lock: u64, journey: &Journey) -> Result<Option<Listing>, Halt>
    requires { RepliesSend reply }
    ensures { (work : WorkView) (dests : List ListingView) (left : List JourneyView) → work.lock ≡ lock
        → told result (λ listing. listing_dests work (with_heard dests listing) left) ≡ after_dest work dests journey.now left reply }
{
    let disk = journey.dest.disk;
    match reply {
        Reply::Heard {
            answer: Answer::Listing {
                lock: given,
                live,
                marked,
            },
        } => {
            if given != lock {
                return Err(Halt::Waits(Why::Sick { disk }));
            }
            let index = journey.index;
            Ok(Some(Listing {
                index,
                live,
                marked,
            }))
        }
        Reply::Heard {
            answer: Answer::Broken,
        } => Err(Halt::Waits(Why::DestBroken)),
        Reply::Heard { answer: _ } | Reply::Barred => Err(Halt::Waits(Why::Sick { disk })),
        Reply::Unheard => Ok(None),
        Reply::Fault => Err(Halt::Fault),
        Reply::Spoiled { place } => Err(Halt::Spoiled { place }),
        _ => unreachable!(),
    }
}

/// Asks one destination what it has.
fn list_dest<P: Port>(port: &mut P, lock: u64, journey: &Journey) -> Result<Option<Listing>, Halt>
    requires { IsUnitOn (P.seen port.old).origin journey.now.dest.unit journey.now.dest.disk }
    ensures goes { (mode : ModeView) (task : TaskView) (work : WorkView) (dests : List ListingView) (left : List JourneyView) → work.lock ≡ lock
        → GoesOn (task_call mode task) (P.seen port.old) (P.seen port.new) (Next.Go (TaskStage.ListingDest work dests journey.now left)) result
        (λ listing. listing_dests work (with_heard dests listing) left) }
    ensures origin { (P.seen port.new).origin ≡ (P.seen port.old).origin }
{
    let unit = journey.dest.unit;
    let disk = journey.dest.disk;
    let request = Request::List { unit, disk, lock };
    let reply = step(port, Event::Send { request })?;
    dest_heard(reply, lock, journey)
}

/// Asks each destination what it has, in order of index.
pub(crate) fn list_dests<P: Port>(
    alloc: Global,
    port: &mut P,
    lock: u64,
    journeys: &[Journey],
) -> Result<Vec<Listing>, Halt>
    requires { AreJourneys (P.seen port.old).origin journeys.now }
    ensures goes { (mode : ModeView) (task : TaskView) (work : WorkView) → work.lock ≡ lock
        → GoesOn (task_call mode task) (P.seen port.old) (P.seen port.new) (listing_dests work [] journeys.now) result (λ dests. listing_dests work dests.items []) }
    ensures origin { (P.seen port.new).origin ≡ (P.seen port.old).origin }
{
    let mut dests = Vec::new(alloc);
    'journeys: for journey in journeys {
        let listing = list_dest(port, lock, journey)?;
        add(&mut dests, listing)?;
    }
    Ok(dests)
}

/// What the answer to a listing of a current unit makes of a call: one that isn't heard, or is of no use, is passed over.
fn unit_heard(reply: Reply, lock: u64, home: &Home) -> Result<Option<Listing>, Halt>
    requires { RepliesSend reply }
    ensures { (work : WorkView) (dests : List ListingView) (heard : List ListingView) (left : List HomeView) → work.lock ≡ lock
        → told result (λ listing. listing_units work dests (with_heard heard listing) left) ≡ after_unit work dests heard home.now left reply }
{
    match reply {
        Reply::Heard {
            answer: Answer::Listing {
                lock: given,
                live,
                marked,
            },
        } => {
            if given != lock {
                return Ok(None);
            }
            let unit = home.unit;
            Ok(Some(Listing {
                index: unit.index,
                live,
                marked,
            }))
        }
        Reply::Heard { answer: _ } | Reply::Barred | Reply::Unheard => Ok(None),
        Reply::Fault => Err(Halt::Fault),
        Reply::Spoiled { place } => Err(Halt::Spoiled { place }),
        _ => unreachable!(),
    }
}

/// Asks one current unit what it has.
fn list_unit<P: Port>(port: &mut P, lock: u64, home: &Home) -> Result<Option<Listing>, Halt>
    requires { IsUnitOn (P.seen port.old).origin home.now.unit home.now.disk }
    ensures goes { (mode : ModeView) (task : TaskView) (work : WorkView) (dests : List ListingView) (heard : List ListingView) (left : List HomeView) → work.lock ≡ lock
        → GoesOn (task_call mode task) (P.seen port.old) (P.seen port.new) (Next.Go (TaskStage.ListingUnit work dests heard home.now left)) result
        (λ listing. listing_units work dests (with_heard heard listing) left) }
    ensures origin { (P.seen port.new).origin ≡ (P.seen port.old).origin }
{
    let unit = home.unit;
    let disk = home.disk;
    let request = Request::List { unit, disk, lock };
    let reply = step(port, Event::Send { request })?;
    unit_heard(reply, lock, home)
}

/// Asks each of these current units what it has, in order of index.
pub(crate) fn list_units<P: Port>(
    alloc: Global,
    port: &mut P,
    lock: u64,
    homes: &[Home],
) -> Result<Vec<Listing>, Halt>
    requires { AreUnits (P.seen port.old).origin homes.now }
    ensures goes { (mode : ModeView) (task : TaskView) (work : WorkView) (dests : List ListingView) → work.lock ≡ lock
        → GoesOn (task_call mode task) (P.seen port.old) (P.seen port.new) (listing_units work dests [] homes.now) result (λ heard. listing_units work dests heard.items []) }
    ensures origin { (P.seen port.new).origin ≡ (P.seen port.old).origin }
{
    let mut heard = Vec::new(alloc);
    'homes: for home in homes {
        let listing = list_unit(port, lock, home)?;
        add(&mut heard, listing)?;
    }
    Ok(heard)
}

/// Goes on only where enough current units were heard to list what they have.
#[tactic(auto, unfolding(crate::specs::AdvanceCall::listing_units))]
pub(crate) fn see(work: &Work, heard: &[Listing]) -> Result<(), Halt>
    ensures { (dests : List ListingView)
        → told result (λ _. copying (work_of work.now) (next_errand (work_of work.now) None (errands (work_of work.now) dests heard.now))) ≡ listing_units (work_of work.now) dests heard.now [] }
{
    if heard.len() < work.mode.sight() as usize {
        let listed = heard.len() as u32;
        return Err(Halt::Waits(Why::Short { listed }));
    }
    Ok(())
}
