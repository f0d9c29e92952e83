//! What memory takes from an answer.

ghost use Rattle.std.specs.Prelude.{◌≡◌, ◌≤◌, ◌&&◌, ◌∷◌, ℕ, [], List, Some, cond, false, length, OnOk, OnErr, IsOk, option_copied, slice_set};
ghost use Rattle.unit_id.specs.Messages.{place_at, request_of, answer_of};
ghost use Rattle.unit_id.specs.Request.{Request as Asked};
ghost use Rattle.volume_entry.specs.Manager.{Heard as HeardNow, Transfer, has_number, is_current, is_old, is_old_there, transfers_of};
ghost use Rattle.volume_entry.specs.ManagerStep.{hear, hear_listing};
ghost use Rattle.volume_entry.specs.HeardCalls.{Follows, HaveRowRoom, Hears, HearsListing, HearsUnder, MovesHear, is_listing, with_rows, with_mark};
ghost use Rattle.volume_entry.specs.HeardMemory.{HasRoom};

use crate::destinations::{has_number, is_destination, is_old, is_old_there, transfers_of};
use crate::heard::Heard;
use crate::heard_moves::{fence, release, take_rows};
use crate::held::{HeldLock, HeldTransfer, home_at};
use crate::listing::Listing;
use crate::moving::Moving;
use crate::record::UnitHome;
use std::alloc::{AllocError, Global};
use unit_id::{Answer, Request, UnitName};

/// Notes rows of these blobs at a unit, where it is a destination. Where there is room it takes no memory.
fn hear_rows(
    moves: &mut [Moving],
    transfers: &[HeldTransfer],
    unit: UnitName,
    live: &[u64],
    marked: &[u64],
) -> Result<(), AllocError>
    ensures heard { OnOk result (MovesHear transfers.now (hear_listing transfers.now (place_at unit 0) (record { live = live.now; marked = marked.now })) moves.old moves.new) }
    ensures same { OnErr result ((others : List Transfer) → MovesHear others (λ heard. heard) moves.old moves.new) }
    ensures succeeds { HaveRowRoom moves.old → length live.now ≤ 1 → length marked.now ≤ 1 → IsOk result }
{
    if !is_destination(transfers, unit) {
        return Ok(());
    }
    take_rows(moves, unit.index, live, marked)
}

/// Notes a fence of a unit under the lock of this number, where the lock moves the unit away.
fn hear_fence(moves: &mut [Moving], lock: Option<&HeldLock>, unit: UnitName, number: u64)
    ensures { let held = option_copied lock.entry in
        MovesHear (transfers_of held) (λ heard. record heard { fenced = cond (has_number held number && is_old (transfers_of held) (place_at unit 0)) (unit.index ∷ heard.fenced) heard.fenced }) moves.old moves.new }
{
    if !has_number(lock, number) || !is_old(transfers_of(lock), unit) {
        return;
    }
    fence(moves, unit.index);
}

/// Notes that a unit is released at a disk, where the lock moves it away from there.
fn hear_release(moves: &mut [Moving], transfers: &[HeldTransfer], unit: UnitName, disk: u32)
    ensures { MovesHear transfers.now (λ heard. record heard { released = cond (is_old_there transfers.now (place_at unit disk)) (unit.index ∷ heard.released) heard.released }) moves.old moves.new }
{
    if !is_old_there(transfers, unit, disk) {
        return;
    }
    release(moves, unit.index);
}

/// Keeps a listing of an index.
fn set_listing(listings: &mut [Option<Listing>], index: usize, listing: Listing)
    ensures { listings.new ≡ slice_set listings.old index (Some listing) }
{
    if index >= listings.len() {
        return;
    }
    listings[index] = Some(listing);
}

/// Keeps a listing of a unit, where it is the current one of its index.
fn keep_listing(
    listings: &mut [Option<Listing>],
    homes: &[UnitHome],
    unit: UnitName,
    listing: Listing,
)
    ensures { listings.new ≡ cond (is_current homes.now (place_at unit 0)) (slice_set listings.old unit.index (Some listing)) listings.old }
{
    let index = usize::from(unit.index);
    if home_at(homes, index).epoch != unit.epoch {
        return;
    }
    set_listing(listings, index, listing);
}

impl Heard {
    /// Rows of these blobs were heard at a unit.
    fn note_rows(
        &mut self,
        lock: Option<&HeldLock>,
        unit: UnitName,
        live: &[u64],
        marked: &[u64],
    ) -> Result<(), AllocError>
        ensures heard { OnOk result (HearsUnder (option_copied lock.entry) (with_rows (place_at unit 0) (record { live = live.now; marked = marked.now })) self.old self.new) }
        ensures same { OnErr result (Follows (λ m. m) self.old self.new) }
        ensures succeeds { HasRoom self.old → length live.now ≤ 1 → length marked.now ≤ 1 → IsOk result }
    {
        hear_rows(&mut self.moves, transfers_of(lock), unit, live, marked)
    }

    /// A mark of a blob was heard at a unit.
    fn note_mark(
        &mut self,
        lock: Option<&HeldLock>,
        unit: UnitName,
        bid: u64,
    ) -> Result<(), AllocError>
        ensures heard { OnOk result (HearsUnder (option_copied lock.entry) (with_mark (place_at unit 0) bid) self.old self.new) }
        ensures same { OnErr result (Follows (λ m. m) self.old self.new) }
        ensures succeeds { HasRoom self.old → IsOk result }
    {
        self.marks.reserve()?;
        hear_rows(&mut self.moves, transfers_of(lock), unit, &[], &[bid])?;
        self.marks.add(bid, unit.index, unit.epoch)
    }

    /// A listing of a unit was heard.
    fn note_listing(
        &mut self,
        alloc: Global,
        homes: &[UnitHome],
        lock: Option<&HeldLock>,
        unit: UnitName,
        live: &[u64],
        marked: &[u64],
    ) -> Result<(), AllocError>
        ensures heard { OnOk result (HearsListing homes.now (option_copied lock.entry) (place_at unit 0) (record { live = live.now; marked = marked.now }) self.old self.new) }
        ensures same { OnErr result (Follows (λ m. m) self.old self.new) }
    {
        let listing = Listing::of(alloc, live, marked)?;
        hear_rows(&mut self.moves, transfers_of(lock), unit, live, marked)?;
        keep_listing(&mut self.listings, homes, unit, listing);
        Ok(())
    }

    /// The answer to a request for a listing was heard.
    fn hear_list(
        &mut self,
        alloc: Global,
        homes: &[UnitHome],
        lock: Option<&HeldLock>,
        unit: UnitName,
        number: u64,
        answer: &Answer,
    ) -> Result<(), AllocError>
        ensures heard { OnOk result ((disk : ℕ) → Hears homes.now (option_copied lock.entry) (Asked.List (place_at unit disk) number) (answer_of answer.now) self.old self.new) }
        ensures same { OnErr result (Follows (λ m. m) self.old self.new) }
        ensures succeeds { is_listing (answer_of answer.now) ≡ false → IsOk result }
    {
        if !has_number(lock, number) {
            return Ok(());
        }
        match answer {
            Answer::Listing { live, marked, .. } => {
                self.note_listing(alloc, homes, lock, unit, live.as_slice(), marked.as_slice())
            }
            _ => Ok(()),
        }
    }

    /// The answer to a copy was heard.
    fn hear_copy(
        &mut self,
        lock: Option<&HeldLock>,
        unit: UnitName,
        bid: u64,
        answer: &Answer,
    ) -> Result<(), AllocError>
        ensures heard { OnOk result ((disk : ℕ) → HearsUnder (option_copied lock.entry) (hear (Asked.Copy (place_at unit disk) bid) (answer_of answer.now)) self.old self.new) }
        ensures same { OnErr result (Follows (λ m. m) self.old self.new) }
        ensures succeeds { HasRoom self.old → IsOk result }
    {
        match answer {
            Answer::Done | Answer::Already => self.note_rows(lock, unit, &[bid], &[]),
            Answer::Deleted => self.note_rows(lock, unit, &[], &[bid]),
            _ => Ok(()),
        }
    }

    /// The answer to a mark was heard.
    fn hear_mark(
        &mut self,
        lock: Option<&HeldLock>,
        unit: UnitName,
        bid: u64,
        answer: &Answer,
    ) -> Result<(), AllocError>
        ensures heard { OnOk result ((disk : ℕ) → HearsUnder (option_copied lock.entry) (hear (Asked.Mark (place_at unit disk) bid) (answer_of answer.now)) self.old self.new) }
        ensures same { OnErr result (Follows (λ m. m) self.old self.new) }
        ensures succeeds { HasRoom self.old → IsOk result }
    {
        match answer {
            Answer::Done | Answer::Already => self.note_mark(lock, unit, bid),
            _ => Ok(()),
        }
    }

    /// The answer to a fence was heard.
    fn hear_fenced(&mut self, lock: Option<&HeldLock>, unit: UnitName, number: u64, answer: &Answer)
        ensures { (disk : ℕ) → HearsUnder (option_copied lock.entry) (hear (Asked.Fence (place_at unit disk) number) (answer_of answer.now)) self.old self.new }
    {
        match answer {
            Answer::Done => hear_fence(&mut self.moves, lock, unit, number),
            _ => {}
        }
    }

    /// The answer to a release was heard.
    fn hear_released(&mut self, lock: Option<&HeldLock>, unit: UnitName, disk: u32, answer: &Answer)
        ensures { HearsUnder (option_copied lock.entry) (hear (Asked.Release (place_at unit disk)) (answer_of answer.now)) self.old self.new }
    {
        match answer {
            Answer::Done | Answer::Stale { .. } => {
                hear_release(&mut self.moves, transfers_of(lock), unit, disk);
            }
            _ => {}
        }
    }

    /// Notes what the answer to a request tells. Where there is room, only a listing takes memory.
    ///
    /// # Errors
    ///
    /// Want of memory, which leaves what is told as it was.
    pub fn hear(
        &mut self,
        alloc: Global,
        homes: &[UnitHome],
        lock: Option<&HeldLock>,
        request: &Request,
        answer: &Answer,
    ) -> Result<(), AllocError>
        ensures heard { OnOk result (Hears homes.now (option_copied lock.entry) (request_of request.now) (answer_of answer.now) self.old self.new) }
        ensures same { OnErr result (Follows (λ m. m) self.old self.new) }
        ensures succeeds { HasRoom self.old → is_listing (answer_of answer.now) ≡ false → IsOk result }
    {
        match request {
            Request::List {
                unit,
                lock: number,
                ..
            } => { self.hear_list(alloc, homes, lock, *unit, *number, answer) }
            Request::Copy { unit, bid, .. } => self.hear_copy(lock, *unit, *bid, answer),
            Request::Mark { unit, bid, .. } => self.hear_mark(lock, *unit, *bid, answer),
            Request::Fence {
                unit,
                lock: number,
                ..
            } => {
                self.hear_fenced(lock, *unit, *number, answer);
                Ok(())
            }
            Request::Release { unit, disk } => {
                self.hear_released(lock, *unit, *disk, answer);
                Ok(())
            }
            Request::Create { .. }
            | Request::Put { .. }
            | Request::Read { .. }
            | Request::Free { .. } => Ok(()),
        }
    }
}
