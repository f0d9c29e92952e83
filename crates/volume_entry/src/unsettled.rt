//! The least blob that some destination still lacks before a swap.

ghost use Rattle.std.specs.Prelude.{◌∷◌, [], option_copied};
ghost use Rattle.volume_entry.specs.HeardCounts.{unsettled_by};
ghost use Rattle.volume_entry.specs.TableParts.{Tells, shape_of};
ghost use Rattle.volume_entry.specs.Unsettled.{IsBefore, IsLeast, Lowers, blobs_of};

use crate::counting::usable;
use crate::heard::Heard;
use crate::held::HeldTransfer;
use crate::listing::Listing;
use crate::record::UnitHome;
use crate::shape::Shape;

/// Whether this blob is less than what was found, if anything was.
fn is_before(found: Option<u64>, bid: u64) -> bool
    ensures { Tells result (IsBefore found bid) }
{
    match found {
        Some(least) => bid < least,
        None => true,
    }
}

impl Heard {
    /// The least blob that is lacked, of what was found and this one.
    fn lower(
        &self,
        shape: Shape,
        homes: &[UnitHome],
        transfers: &[HeldTransfer],
        broken: &[bool],
        found: Option<u64>,
        bid: u64,
    ) -> Option<u64>
        ensures { Lowers (unsettled_by (shape_of shape) self.now homes.now broken.now transfers.now) (bid ∷ []) found result }
    {
        if is_before(found, bid) && self.is_unsettled(shape, homes, transfers, broken, bid) {
            return Some(bid);
        }
        found
    }

    /// The least blob that is lacked, of what was found and these.
    fn lower_all(
        &self,
        shape: Shape,
        homes: &[UnitHome],
        transfers: &[HeldTransfer],
        broken: &[bool],
        found: Option<u64>,
        bids: &[u64],
    ) -> Option<u64>
        ensures { Lowers (unsettled_by (shape_of shape) self.now homes.now broken.now transfers.now) bids.now found result }
    {
        let mut least = found;
        for bid in bids {
            least = self.lower(shape, homes, transfers, broken, least, *bid);
        }
        least
    }

    /// The least blob that is lacked, of what was found and what a listing shows.
    fn lower_by(
        &self,
        shape: Shape,
        homes: &[UnitHome],
        transfers: &[HeldTransfer],
        broken: &[bool],
        found: Option<u64>,
        listing: Option<&Listing>,
    ) -> Option<u64>
        ensures { Lowers (unsettled_by (shape_of shape) self.now homes.now broken.now transfers.now) (blobs_of (option_copied listing.entry)) found result }
    {
        let Some(listing) = listing else {
            return found;
        };
        let live = listing.live.as_slice();
        let marked = listing.marked.as_slice();
        let least = self.lower_all(shape, homes, transfers, broken, found, live);
        self.lower_all(shape, homes, transfers, broken, least, marked)
    }

    /// The least blob that some destination still lacks, if any. Only blobs that a usable listing shows are tried, since
    /// others get nothing.
    pub fn least_lacked(
        &self,
        shape: Shape,
        homes: &[UnitHome],
        transfers: &[HeldTransfer],
        broken: &[bool],
    ) -> Option<u64>
        ensures { IsLeast (unsettled_by (shape_of shape) self.now homes.now broken.now transfers.now) result }
    {
        let mut least = None;
        for index in 0..shape.mode.total() {
            let listing = usable(&self.listings, homes, broken, index as usize);
            least = self.lower_by(shape, homes, transfers, broken, least, listing);
        }
        least
    }
}
