//! A listing of a unit in memory.

ghost use Rattle.std.specs.Prelude.{◌≡◌, ◌≤◌, [], Some, IfOk, option_copied};
ghost use Rattle.volume_entry.specs.Benchmark.{shows_live, shows_marked};
ghost use Rattle.volume_entry.specs.HeardCalls.{Adds};
ghost use Rattle.volume_entry.specs.HeardMemory.{ShowsSame};

use crate::heard_bids::HeardBids;
use std::alloc::{AllocError, Global};
use std::marker::Model;

/// The live blobs of a unit, and those that are marked or gone.
#[derive(Drop)]
pub struct Listing {
    pub live: HeardBids,
    pub marked: HeardBids,
}

impl Model for Listing {
    ghost use Rattle.unit_id.specs.Shown.{Shown};

    ghost Value = { Shown };

    ghost view = { λ l. record { live = l.live.bids; marked = l.marked.bids } };
}

/// The set of these blobs.
fn set_of(alloc: Global, bids: &[u64]) -> Result<HeardBids, AllocError>
    ensures { IfOk result (λ set. Adds bids.now [] set.bids) }
{
    let mut set = HeardBids::none(alloc);
    set.reserve(bids.len())?;
    set.add_all(bids);
    Ok(set)
}

impl Listing {
    /// A listing that shows these blobs.
    pub fn of(alloc: Global, live: &[u64], marked: &[u64]) -> Result<Listing, AllocError>
        ensures { IfOk result (λ listing. ShowsSame (Some listing) (Some (record { live = live.now; marked = marked.now }))) }
    {
        let live = set_of(alloc, live)?;
        let marked = set_of(alloc, marked)?;
        Ok(Listing { live, marked })
    }
}

/// Whether a listing was heard and shows the blob live.
pub fn shows_live(listing: Option<&Listing>, bid: u64) -> bool
    ensures { result ≡ shows_live (option_copied listing.entry) bid }
{
    match listing {
        Some(listing) => listing.live.has(bid),
        None => false,
    }
}

/// Whether a listing was heard and shows the blob marked or gone.
pub fn shows_marked(listing: Option<&Listing>, bid: u64) -> bool
    ensures { result ≡ shows_marked (option_copied listing.entry) bid }
{
    match listing {
        Some(listing) => listing.marked.has(bid),
        None => false,
    }
}
