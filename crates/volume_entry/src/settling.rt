//! Which blob some destination still lacks before a swap.

ghost use Rattle.std.specs.Prelude.{◌≡◌, not, false, true};
ghost use Rattle.unit_id.specs.Lists.{any, count_below, some_below};
ghost use Rattle.volume_entry.specs.HeardCounts.{due_by, is_broken, live_at, marked_at, settled_by, unsettled_by};
ghost use Rattle.volume_entry.specs.HeardMemory.{Remembers, is_live_there, is_marked_there, move_of};
ghost use Rattle.volume_entry.specs.Benchmark.{is_unsettled};
ghost use Rattle.volume_entry.specs.Manager.{Manager, is_swapped, transfers_of};
ghost use Rattle.volume_entry.specs.Shares.{due_of};
ghost use Rattle.volume_entry.specs.TableParts.{shape_of};

use crate::counting::{one_if, usable};
use crate::heard::Heard;
use crate::heard_moves::place_of;
use crate::held::HeldTransfer;
use crate::listing::{Listing, shows_live, shows_marked};
use crate::moving::Moving;
use crate::record::UnitHome;
use crate::shape::Shape;

/// What a blob gets.
#[derive(Clone, Copy)]
enum Share {
    Mark,
    Copy,
    Nothing,
}

/// Whether the listing of a current unit on an unbroken disk shows the blob marked.
fn is_marked_by(
    listings: &[Option<Listing>],
    homes: &[UnitHome],
    broken: &[bool],
    total: u32,
    bid: u64,
) -> bool
    ensures { result ≡ some_below total (marked_at listings.now homes.now broken.now bid) }
{
    for index in 0..total {
        if shows_marked(usable(listings, homes, broken, index as usize), bid) {
            return true;
        }
    }
    false
}

/// How many listings of current units on unbroken disks show the blob live.
fn live_count(
    listings: &[Option<Listing>],
    homes: &[UnitHome],
    broken: &[bool],
    total: u32,
    bid: u64,
) -> u32
    ensures { result ≡ count_below total (live_at listings.now homes.now broken.now bid) }
{
    let mut count = 0;
    for index in 0..total {
        let shown = shows_live(usable(listings, homes, broken, index as usize), bid);
        count += one_if(shown);
    }
    count
}

/// What a blob gets by the listings.
fn share_of(
    shape: Shape,
    listings: &[Option<Listing>],
    homes: &[UnitHome],
    broken: &[bool],
    bid: u64,
) -> Share
    ensures { due_of result ≡ due_by (shape_of shape) listings.now homes.now broken.now bid }
{
    let total = shape.mode.total();
    if is_marked_by(listings, homes, broken, total, bid) {
        return Share::Mark;
    }
    if shape.mode.n() <= live_count(listings, homes, broken, total, bid) {
        return Share::Copy;
    }
    Share::Nothing
}

/// Whether the live row of the blob was heard at the destination of an index.
fn is_live(moves: &[Moving], index: u8, bid: u64) -> bool
    ensures { result ≡ is_live_there (move_of moves.now index) bid }
{
    match place_of(moves, index) {
        Some(place) => {
            let item = &moves[place];
            item.live.has(bid)
        }
        None => false,
    }
}

/// Whether the marked row of the blob was heard at the destination of an index.
fn is_marked(moves: &[Moving], index: u8, bid: u64) -> bool
    ensures { result ≡ is_marked_there (move_of moves.now index) bid }
{
    match place_of(moves, index) {
        Some(place) => {
            let item = &moves[place];
            item.marked.has(bid)
        }
        None => false,
    }
}

/// Whether what the blob gets was heard at the destination of an index.
fn is_settled(moves: &[Moving], index: u8, bid: u64, share: Share) -> bool
    ensures { result ≡ settled_by moves.now bid (due_of share) index }
{
    match share {
        Share::Mark => is_marked(moves, index, bid),
        Share::Copy => is_live(moves, index, bid) || is_marked(moves, index, bid),
        Share::Nothing => true,
    }
}

/// Whether some transfer's destination lacks what the blob gets.
fn some_lacks(moves: &[Moving], transfers: &[HeldTransfer], bid: u64, share: Share) -> bool
    ensures { result ≡ any (λ t. not (settled_by moves.now bid (due_of share) t.index)) transfers.now }
{
    for transfer in transfers {
        if !is_settled(moves, transfer.index, bid, share) {
            return true;
        }
    }
    false
}

impl Heard {
    /// Whether some destination still lacks what the blob gets, before a swap.
    pub fn is_unsettled(
        &self,
        shape: Shape,
        homes: &[UnitHome],
        transfers: &[HeldTransfer],
        broken: &[bool],
        bid: u64,
    ) -> bool
        ensures told { (m : Manager) → m.homes ≡ homes.now → transfers.now ≡ transfers_of m.lock → is_swapped m.lock ≡ false → Remembers (shape_of shape).total self.now m
            → result ≡ is_unsettled (shape_of shape) m.homes (is_broken broken.now) (transfers_of m.lock) m.heard bid }
        ensures kept { result ≡ unsettled_by (shape_of shape) self.now homes.now broken.now transfers.now bid }
    {
        let share = share_of(shape, &self.listings, homes, broken, bid);
        some_lacks(&self.moves, transfers, bid, share)
    }
}
