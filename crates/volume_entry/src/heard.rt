//! What was heard, in memory. A restart forgets it.

ghost use Rattle.std.specs.Prelude.{◌≡◌, ℕ, [], List, map, IfOk, OnOk, None, replicate, length};
ghost use Rattle.volume_entry.specs.Manager.{Grant, Transfer, Manager, ManagerRecord, nothing_heard, transfers_of, written};
ghost use Rattle.volume_entry.specs.HeardCalls.{AreFresh, Follows, StillTell, HaveRowRoom};
ghost use Rattle.volume_entry.specs.HeardMemory.{HasRoom, Remembers};

use crate::heard_marks::HeardMarks;
use crate::heard_moves::lose_rows;
use crate::held::HeldTransfer;
use crate::listing::Listing;
use crate::moving::Moving;
use crate::record::NewHome;
use std::alloc::{AllocError, Global};
use std::marker::Model;

/// By index the listing of the current unit, where one was heard; what was heard of each unit that the lock moves; and
/// the marks that were heard.
#[derive(Drop)]
pub struct Heard {
    pub listings: Vec<Option<Listing>>,
    pub moves: Vec<Moving>,
    pub marks: HeardMarks,
}

impl Model for Heard {
    ghost use Rattle.volume_entry.specs.HeardMemory.{HeardMemory};

    ghost Value = { HeardMemory };

    ghost view = { λ h. record { listings = h.listings.items; moves = h.moves.items; marks = h.marks } };
}

/// For each of so many indexes, no listing.
fn no_listings(alloc: Global, total: u32) -> Result<Vec<Option<Listing>>, AllocError>
    ensures { IfOk result (λ listings. listings.items ≡ replicate total None) }
{
    let mut listings = Vec::new(alloc);
    for _index in 0..total {
        listings.push(None)?;
    }
    Ok(listings)
}

/// Forgets all listings.
fn forget_listings(listings: &mut [Option<Listing>])
    ensures { listings.new ≡ replicate (length listings.old) None }
{
    for index in 0..listings.len() {
        listings[index] = None;
    }
}

/// Moves for these transfers, of which nothing was heard.
fn moves_of(alloc: Global, transfers: &[HeldTransfer]) -> Result<Vec<Moving>, AllocError>
    ensures { IfOk result (λ moves. AreFresh (map (λ (t : Transfer). t.index) transfers.now) moves.items) }
{
    let mut moves = Vec::new(alloc);
    for transfer in transfers {
        moves.push(Moving::of(alloc, transfer.index))?;
    }
    Ok(moves)
}

/// Moves for a lock of these grants, of which nothing was heard.
pub fn moves_for(alloc: Global, grants: &[NewHome]) -> Result<Vec<Moving>, AllocError>
    ensures { IfOk result (λ moves. AreFresh (map (λ (t : Grant). t.index) grants.now) moves.items) }
{
    let mut moves = Vec::new(alloc);
    for grant in grants {
        moves.push(Moving::of(alloc, grant.index))?;
    }
    Ok(moves)
}

/// Makes room for one live and one marked row more at each destination.
fn reserve_rows(moves: &mut [Moving]) -> Result<(), AllocError>
    ensures same { StillTell moves.old moves.new }
    ensures room { OnOk result (HaveRowRoom moves.new) }
{
    for place in 0..moves.len() {
        moves[place].reserve()?;
    }
    Ok(())
}

impl Heard {
    /// Nothing heard, of a volume of so many units and a lock of these transfers.
    pub fn of(alloc: Global, total: u32, transfers: &[HeldTransfer]) -> Result<Heard, AllocError>
        ensures { IfOk result (λ heard. (m : Manager) → m.heard ≡ nothing_heard → m.marks ≡ [] → transfers_of m.lock ≡ transfers.now → Remembers total heard m) }
    {
        let listings = no_listings(alloc, total)?;
        let moves = moves_of(alloc, transfers)?;
        let marks = HeardMarks::none(alloc);
        Ok(Heard {
            listings,
            moves,
            marks,
        })
    }

    /// A lock of these moves is granted: listings and rows are forgotten.
    pub fn lock(&mut self, moves: Vec<Moving>)
        ensures { (grants : List Grant) → AreFresh (map (λ (t : Grant). t.index) grants) moves.items → (task number : ℕ) → Follows (written (ManagerRecord.Locked task number grants)) self.old self.new }
    {
        forget_listings(&mut self.listings);
        self.moves = moves;
    }

    /// The move of an index gets a new destination: rows that were heard at the old one are forgotten.
    pub fn retarget(&mut self, index: u8)
        ensures { (grant : Grant) → grant.index ≡ index → Follows (written (ManagerRecord.Retargeted grant)) self.old self.new }
    {
        lose_rows(&mut self.moves, index);
    }

    /// The lock is given back: listings, rows, fences and releases are forgotten.
    pub fn unlock(&mut self)
        ensures { Follows (written ManagerRecord.Unlocked) self.old self.new }
    {
        forget_listings(&mut self.listings);
        self.moves.clear();
    }

    /// Makes room for what one answer but a listing adds.
    pub fn reserve(&mut self) -> Result<(), AllocError>
        ensures same { Follows (λ m. m) self.old self.new }
        ensures room { OnOk result (HasRoom self.new) }
    {
        self.marks.reserve()?;
        reserve_rows(&mut self.moves)
    }
}
