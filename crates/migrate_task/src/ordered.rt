//! Listings in order of their blobs, by which it is quickly said whether one has a blob.

ghost use Rattle.std.specs.Prelude.{ℕ, ◌≡◌, IfOk};
ghost use Rattle.unit_id.specs.Lists.{is_in};
ghost use Rattle.migrate_task.specs.Merging.{IsOrderOf, AreOrderOf};

use crate::listing::Listing;
use std::alloc::{AllocError, Global};
use std::marker::Model;
use unit_id::Bids;

/// Blobs in ascending order.
#[derive(Drop)]
pub(crate) struct InOrder {
    items: Vec<u64>,
}

impl Model for InOrder {
    ghost use Rattle.std.specs.Prelude.{List, ℕ};
    ghost use Rattle.std.specs.List.Sorted.{IsNonDecreasing};

    ghost Value = { List ℕ };

    ghost view = { λ order. order.items.items };

    ghost invariant = { λ order. IsNonDecreasing order.items.items };
}

impl InOrder {
    /// These blobs in order.
    fn of(alloc: Global, bids: &Bids) -> Result<InOrder, AllocError>
        ensures { IfOk result (λ order. (bid : ℕ) → is_in bid order ≡ is_in bid bids.now) }
    {
        let mut items = Vec::from_slice(alloc, bids.as_slice())?;
        items.sort_unstable();
        Ok(InOrder { items })
    }

    /// Whether the blob is among them.
    pub(crate) fn has(&self, bid: u64) -> bool
        ensures { result ≡ is_in bid self.now }
    {
        self.items.binary_search(&bid).is_ok()
    }
}

/// What a unit of this index was heard to list, in order.
#[derive(Drop)]
pub(crate) struct Ordered {
    pub(crate) index: u8,
    pub(crate) live: InOrder,
    pub(crate) marked: InOrder,
}

/// A listing in order.
fn order(alloc: Global, listing: &Listing) -> Result<Ordered, AllocError>
    ensures { IfOk result (IsOrderOf listing.now) }
{
    let live = InOrder::of(alloc, &listing.live)?;
    let marked = InOrder::of(alloc, &listing.marked)?;
    Ok(Ordered {
        index: listing.index,
        live,
        marked,
    })
}

/// Each of these listings in order.
pub(crate) fn order_all(alloc: Global, listings: &[Listing]) -> Result<Vec<Ordered>, AllocError>
    ensures { IfOk result (λ orders. AreOrderOf listings.now orders.items) }
{
    let mut orders = Vec::new(alloc);
    'listings: for listing in listings {
        let ordered = order(alloc, listing)?;
        orders.push(ordered)?;
    }
    Ok(orders)
}
