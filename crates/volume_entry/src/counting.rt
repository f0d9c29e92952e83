//! What the steps of a manager ask of what was heard.

ghost use Rattle.std.specs.Prelude.{◌≡◌, ◌<◌, ◌^◌, ◌≤◌, ℕ, cond, is_some, false, option_copied};
ghost use Rattle.unit_id.specs.Lists.{any, count_below};
ghost use Rattle.volume_entry.specs.Benchmark.{listed_count};
ghost use Rattle.volume_entry.specs.Manager.{Manager, is_swapped};
ghost use Rattle.volume_entry.specs.ManagerStep.{has_unheard, mark_count};
ghost use Rattle.volume_entry.specs.HeardCounts.{is_broken, lacks, usable, marks_current};
ghost use Rattle.volume_entry.specs.HeardMemory.{Remembers, is_fenced_there, is_released_there, move_of};

use crate::heard::Heard;
use crate::heard_marks::HeardMarks;
use crate::heard_moves::place_of;
use crate::held::{HeldTransfer, home_at};
use crate::listing::Listing;
use crate::moving::Moving;
use crate::record::UnitHome;

/// Whether a disk is known to be broken, by flags for each disk.
pub fn is_broken(broken: &[bool], disk: u32) -> bool
    ensures { result ≡ is_broken broken.now disk }
{
    match broken.get(disk as usize) {
        Some(flag) => *flag,
        None => false,
    }
}

/// Whether the old unit of an index was heard to be fenced.
fn is_fenced(moves: &[Moving], index: u8) -> bool
    ensures { result ≡ is_fenced_there (move_of moves.now index) }
{
    match place_of(moves, index) {
        Some(place) => {
            let item = &moves[place];
            item.is_fenced
        }
        None => false,
    }
}

/// Whether the old unit of an index was heard to be released.
fn is_released(moves: &[Moving], index: u8) -> bool
    ensures { result ≡ is_released_there (move_of moves.now index) }
{
    match place_of(moves, index) {
        Some(place) => {
            let item = &moves[place];
            item.is_released
        }
        None => false,
    }
}

/// Whether a transfer leads from an unbroken disk, and its old unit wasn't heard to be fenced.
fn lacks_fence(moves: &[Moving], broken: &[bool], transfer: HeldTransfer) -> bool
    ensures { result ≡ lacks is_fenced_there moves.now broken.now transfer }
{
    !is_fenced(moves, transfer.index) && !is_broken(broken, transfer.old.disk)
}

/// Whether a transfer leads from an unbroken disk, and its old unit wasn't heard to be released.
fn lacks_release(moves: &[Moving], broken: &[bool], transfer: HeldTransfer) -> bool
    ensures { result ≡ lacks is_released_there moves.now broken.now transfer }
{
    !is_released(moves, transfer.index) && !is_broken(broken, transfer.old.disk)
}

/// Whether some transfer does.
fn some_lacks_fence(moves: &[Moving], broken: &[bool], transfers: &[HeldTransfer]) -> bool
    ensures { result ≡ any (lacks is_fenced_there moves.now broken.now) transfers.now }
{
    for transfer in transfers {
        if lacks_fence(moves, broken, *transfer) {
            return true;
        }
    }
    false
}

/// Whether some transfer does.
fn some_lacks_release(moves: &[Moving], broken: &[bool], transfers: &[HeldTransfer]) -> bool
    ensures { result ≡ any (lacks is_released_there moves.now broken.now) transfers.now }
{
    for transfer in transfers {
        if lacks_release(moves, broken, *transfer) {
            return true;
        }
    }
    false
}

/// The listing of the current unit of an index, where its disk isn't broken.
pub fn usable<'a>(
    listings: &'a [Option<Listing>],
    homes: &[UnitHome],
    broken: &[bool],
    index: usize,
) -> Option<&'a Listing>
    ensures { option_copied result ≡ usable listings.now homes.now broken.now index }
{
    if is_broken(broken, home_at(homes, index).disk) || index >= listings.len() {
        return None;
    }
    listings[index].as_ref()
}

/// Whether there is one.
fn is_usable(
    listings: &[Option<Listing>],
    homes: &[UnitHome],
    broken: &[bool],
    index: usize,
) -> bool
    ensures { result ≡ is_some (usable listings.now homes.now broken.now index) }
{
    usable(listings, homes, broken, index).is_some()
}

/// One where a test holds, and else none.
pub fn one_if(test: bool) -> u32
    ensures { result ≡ cond test 1 0 }
{
    if test { 1 } else { 0 }
}

/// How many of the first indexes have one.
fn usable_count(
    listings: &[Option<Listing>],
    homes: &[UnitHome],
    broken: &[bool],
    total: u32,
) -> u32
    ensures { result ≡ count_below total (λ index. is_some (usable listings.now homes.now broken.now index)) }
{
    let mut count = 0;
    for index in 0..total {
        count += one_if(is_usable(listings, homes, broken, index as usize));
    }
    count
}

/// Whether a mark of the blob was heard of the current unit of an index.
fn is_marked(marks: &HeardMarks, homes: &[UnitHome], bid: u64, index: u8) -> bool
    ensures { result ≡ marks_current marks.now.marks homes.now bid index }
{
    marks.has(bid, index, home_at(homes, usize::from(index)).epoch)
}

/// Of how many of the first indexes.
fn marked_count(marks: &HeardMarks, homes: &[UnitHome], bid: u64, total: u32) -> u32
    requires { total < 2 ^ 8 }
    ensures { result ≡ count_below total (marks_current marks.now.marks homes.now bid) }
{
    let mut count = 0;
    for index in 0..total {
        count += one_if(is_marked(marks, homes, bid, index as u8));
    }
    count
}

impl Heard {
    /// Whether an old unit on an unbroken disk wasn't heard to be fenced.
    pub fn has_unfenced(&self, transfers: &[HeldTransfer], broken: &[bool]) -> bool
        ensures { (total : ℕ) (m : Manager) → Remembers total self.now m → result ≡ has_unheard (is_broken broken.now) transfers.now m.heard.fenced }
    {
        some_lacks_fence(&self.moves, broken, transfers)
    }

    /// Whether an old unit on an unbroken disk wasn't heard to be released.
    pub fn has_unreleased(&self, transfers: &[HeldTransfer], broken: &[bool]) -> bool
        ensures { (total : ℕ) (m : Manager) → Remembers total self.now m → result ≡ has_unheard (is_broken broken.now) transfers.now m.heard.released }
    {
        some_lacks_release(&self.moves, broken, transfers)
    }

    /// How many current units of so many were listed, those on broken disks left out.
    pub fn listed_count(&self, total: u32, homes: &[UnitHome], broken: &[bool]) -> u32
        ensures { (m : Manager) → m.homes ≡ homes.now → is_swapped m.lock ≡ false → Remembers total self.now m → result ≡ listed_count total m.homes (is_broken broken.now) m.heard.listings }
    {
        usable_count(&self.listings, homes, broken, total)
    }

    /// Of how many current units of so many a mark of the blob was heard.
    pub fn mark_count(&self, total: u32, homes: &[UnitHome], bid: u64) -> u32
        requires { total < 2 ^ 8 }
        ensures { (size : ℕ) (m : Manager) → m.homes ≡ homes.now → Remembers size self.now m → result ≡ mark_count total m.homes m.marks bid }
    {
        marked_count(&self.marks, homes, bid, total)
    }
}
