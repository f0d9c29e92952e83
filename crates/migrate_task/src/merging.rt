//! Which blobs the destinations have still to get, by what was heard to be listed.

ghost use Rattle.std.specs.Prelude.{ℕ, List, [], ◌∷◌, ◌≡◌, ◌==◌, ◌++◌, ◌&&◌, ◌||◌, length, filter, IfOk, OnOk};
ghost use Rattle.std.specs.List.{list_any};
ghost use Rattle.unit_id.specs.Lists.{is_in};
ghost use Rattle.code_mode.specs.Mode.{data_count};
ghost use Rattle.migrate_task.specs.declared.listing.Listing.{Listing as ListingView};
ghost use Rattle.migrate_task.specs.declared.ordered.Ordered.{Ordered as OrderedView};
ghost use Rattle.migrate_task.specs.Work.{due_of, has_due, errands_of, errands_over, errands};
ghost use Rattle.migrate_task.specs.Merging.{AreOrderOf, AreShown, is_number, all_shown};
ghost use Rattle.volume_world.specs.Way.{Origin};
ghost use Rattle.migrate_task.specs.TaskParts.{IsWorkOn, work_of};
ghost use Rattle.migrate_task.specs.GatherParts.{AreErrands};

use crate::copying::{Due, Errand};
use crate::course::Heard;
use crate::listing::Listing;
use crate::ordered::{Ordered, order_all};
use crate::work::{Journey, Work};
use code_mode::Mode;
use std::alloc::{AllocError, Global};

/// The greatest number of a blob.
const LAST_BID: u64 = 1 << 62;

/// Whether any of these listings shows the blob marked.
fn is_marked(heard: &[Ordered], bid: u64) -> bool
    ensures { result ≡ list_any (λ (order : OrderedView). is_in bid order.marked) heard.now }
{
    heard.iter().any(|order| order.marked.has(bid))
}

/// How many of these listings show the blob live.
fn live_count(heard: &[Ordered], bid: u64) -> usize
    ensures { result ≡ length (filter (λ (order : OrderedView). is_in bid order.live) heard.now) }
{
    heard.iter().filter(|order| order.live.has(bid)).count()
}

/// What a blob gets at each destination.
fn due_of(mode: Mode, heard: &[Ordered], bid: u64) -> Due
    ensures { (listings : List ListingView) → AreOrderOf listings heard.now → result ≡ due_of (data_count mode) listings bid }
{
    if is_marked(heard, bid) {
        return Due::Mark;
    }
    if mode.n() as usize <= live_count(heard, bid) {
        return Due::Copy;
    }
    Due::Left
}

/// Whether a destination shows the blob marked.
fn has_mark(dests: &[Ordered], bid: u64, index: u8) -> bool
    ensures { result ≡ list_any (λ (order : OrderedView). (order.index == index) && is_in bid order.marked) dests.now }
{
    dests
        .iter()
        .any(|order| order.index == index && order.marked.has(bid))
}

/// Whether a destination shows the blob live or marked.
fn has_row(dests: &[Ordered], bid: u64, index: u8) -> bool
    ensures { result ≡ list_any (λ (order : OrderedView). (order.index == index) && (is_in bid order.live || is_in bid order.marked)) dests.now }
{
    dests.iter().any(|order| order.index == index && (order.live.has(bid) || order.marked.has(bid)))
}

/// Whether a destination has what the blob gets there.
fn has_due(dests: &[Ordered], due: Due, bid: u64, index: u8) -> bool
    ensures { (listings : List ListingView) → AreOrderOf listings dests.now → result ≡ has_due listings due bid index }
{
    match due {
        Due::Mark => has_mark(dests, bid, index),
        Due::Copy => has_row(dests, bid, index),
        Due::Left => true,
    }
}

/// Adds the errand of one journey, unless its destination has what the blob gets.
fn add_one(
    errands: &mut Vec<Errand>,
    bid: u64,
    due: Due,
    dests: &[Ordered],
    journey: &Journey,
) -> Result<(), AllocError>
    ensures { (listings : List ListingView) → AreOrderOf listings dests.now
        → OnOk result (errands.new.items ≡ errands.old.items ++ errands_of bid due listings (journey.now ∷ [])) }
{
    if has_due(dests, due, bid, journey.index) {
        return Ok(());
    }
    errands.push(Errand {
        bid,
        due,
        journey: *journey,
    })?;
    Ok(())
}

/// Adds the errands of one blob, by index.
fn add_each(
    errands: &mut Vec<Errand>,
    bid: u64,
    due: Due,
    dests: &[Ordered],
    journeys: &[Journey],
) -> Result<(), AllocError>
    ensures { (listings : List ListingView) → AreOrderOf listings dests.now
        → OnOk result (errands.new.items ≡ errands.old.items ++ errands_of bid due listings journeys.now) }
{
    'journeys: for journey in journeys {
        add_one(errands, bid, due, dests, journey)?;
    }
    Ok(())
}

/// Adds those of some numbers that blobs can have.
fn add_numbers(bids: &mut Vec<u64>, more: &[u64]) -> Result<(), AllocError>
    ensures { OnOk result (bids.new.items ≡ bids.old.items ++ filter is_number more.now) }
{
    'more: for bid in more {
        add_number(bids, *bid)?;
    }
    Ok(())
}

/// Adds a number, if a blob can have it.
fn add_number(bids: &mut Vec<u64>, bid: u64) -> Result<(), AllocError>
    ensures { OnOk result (bids.new.items ≡ bids.old.items ++ filter is_number (bid ∷ [])) }
{
    if 1 <= bid && bid <= LAST_BID {
        bids.push(bid)?;
    }
    Ok(())
}

/// All that listings show, one listing behind the other.
fn all_shown(alloc: Global, listings: &[Listing]) -> Result<Vec<u64>, AllocError>
    ensures { IfOk result (λ bids. bids.items ≡ all_shown listings.now) }
{
    let mut bids = Vec::new(alloc);
    'listings: for listing in listings {
        add_numbers(&mut bids, listing.live.as_slice())?;
        add_numbers(&mut bids, listing.marked.as_slice())?;
    }
    Ok(bids)
}

/// Each blob that listings show, once, in order.
fn shown(alloc: Global, listings: &[Listing]) -> Result<Vec<u64>, AllocError>
    ensures { IfOk result (λ bids. AreShown listings.now bids.items) }
{
    let mut bids = all_shown(alloc, listings)?;
    bids.sort_unstable();
    bids.dedup();
    Ok(bids)
}

/// Adds the errands of some blobs, in order.
fn add_all(
    errands: &mut Vec<Errand>,
    work: &Work,
    dests: &[Ordered],
    units: &[Ordered],
    bids: &[u64],
) -> Result<(), AllocError>
    ensures { (ds us : List ListingView) → AreOrderOf ds dests.now → AreOrderOf us units.now
        → OnOk result (errands.new.items ≡ errands.old.items ++ errands_over (work_of work.now) ds us bids.now) }
{
    'bids: for bid in bids {
        let due = due_of(work.mode, units, *bid);
        add_each(errands, *bid, due, dests, work.journeys.as_slice())?;
    }
    Ok(())
}

/// What the destinations have still to get: of each blob in order, by index.
pub(crate) fn errands(alloc: Global, work: &Work, heard: &Heard) -> Result<Vec<Errand>, AllocError>
    ensures all { IfOk result (λ all. all.items ≡ errands (work_of work.now) heard.now.dests.items heard.now.units.items) }
    ensures each { (origin : Origin) → IsWorkOn origin (work_of work.now) → IfOk result (λ all. AreErrands origin all.items) }
{
    let dests = order_all(alloc, heard.dests.as_slice())?;
    let units = order_all(alloc, heard.units.as_slice())?;
    let bids = shown(alloc, heard.units.as_slice())?;
    let mut errands = Vec::new(alloc);
    add_all(
        &mut errands,
        work,
        dests.as_slice(),
        units.as_slice(),
        bids.as_slice(),
    )?;
    Ok(errands)
}
