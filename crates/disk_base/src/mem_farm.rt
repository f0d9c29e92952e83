//! A farm in memory.

ghost use Rattle.std.specs.Prelude.{◌≡◌, ◌↔◌, ◌≤◌, ◌^◌, ◌&&◌, true, false, not, is_some, None, Some, IsTrue, IfOk, IfErr, OnOk, OnErr, IsErrOf, ℕ};
ghost use Rattle.std.specs.Map.{keys_of};
ghost use Rattle.std.specs.List.Sorted.{IsStrictlySortedBy};
ghost use Rattle.disk_base.specs.Faults.{one_more, part_of, added};
ghost use Rattle.disk_base.specs.Places.{is_lent};
ghost use Rattle.disk_base.specs.Racks.{Becomes, IsShelfCrash, IsShelfFlip};
ghost use Rattle.disk_base.specs.FarmRacks.{shelf_at, SetsShelf, is_filled, has_file, admin_in, place_cmp, empty_farm, farm_view, is_farm, IsLentAnew, IsFarmCrash, IsFarmFlip, RootCounts, ShelfCounts};
ghost use Rattle.disk_base.specs.declared.fault.FarmFault.TheVariants.{NotEmpty, Memory};

use crate::{Farm, FarmFault, FaultPlan, MemShelf};
use std::alloc::Global;
use std::collections::BTreeMap;
use std::marker::Model;

/// The numbers of failing calls of each shelf that a farm hands out begin at a multiple of this.
const SHELF: u64 = 0x1_0000_0000_0000;

/// The admin's file on the shelf of disk 0 and volume 0.
const ADMIN: u64 = 1;

/// The shelves of a farm by disk and volume, each where it isn't out.
type Slots = BTreeMap<(u32, u32), Option<MemShelf>>;

/// A farm of shelves in memory.
#[derive(Drop)]
pub struct MemFarm {
    alloc: Global,
    slots: Slots,
    handed_out: u64,
    plan: FaultPlan,
}

impl Model for MemFarm {
    ghost use Rattle.disk_base.specs.FarmRacks.{FarmState};

    ghost Value = { FarmState };

    ghost view = { λ farm. record { plan = farm.plan; handed_out = farm.handed_out; slots = farm.slots.entries } };
}

impl MemFarm {
    /// An empty farm. A number below 2^32 is a call on the farm that fails, counted from 1; the number
    /// k * 2^48 + j * 2^32 + c is call c of the j-th file that the k-th shelf handed out hands out, or,
    /// where j is 0, of that shelf itself. `hold` isn't counted. Takes no memory.
    pub fn new(alloc: Global, fails: Vec<u64>) -> MemFarm
        ensures { result ≡ empty_farm fails.items }
    {
        MemFarm {
            alloc,
            slots: BTreeMap::new(alloc),
            handed_out: 0,
            plan: FaultPlan::shared(fails),
        }
    }

    /// Whether the shelf of that disk and volume is handed out now.
    pub fn is_out(&self, disk: u32, vid: u32) -> bool
        ensures { result ≡ is_lent (shelf_at self.now.slots disk vid) }
    {
        match self.slots.get(&(disk, vid)) {
            Some(slot) => slot.is_none(),
            None => false,
        }
    }

    /// The farm that a crash leaves: in each file that isn't out the bytes that aren't settled are, in order of
    /// disk, volume, name and place, those of the choice, and zero where it is used up. A file or a shelf that
    /// is out stays so. Takes no memory.
    pub fn crash(self, choice: &[u8]) -> MemFarm
        ensures { IsFarmCrash self result }
    {
        let mut farm = self;
        crash_shelves(&mut farm.slots, choice);
        farm
    }

    /// Flips one bit of a file, counted from the lowest bit of its first byte, if the file is there, isn't out
    /// and has that bit. All of the file is settled then. It is no call on the device and takes no memory.
    pub fn flip(&mut self, disk: u32, vid: u32, name: u64, bit: u64)
        ensures { IsFarmFlip disk vid name bit self.old self.new }
    {
        flip_in(&mut self.slots, (disk, vid), name, bit);
    }
}

// Flips one bit of a file of one shelf, if both are there and aren't out.
fn flip_in(slots: &mut Slots, place: (u32, u32), name: u64, bit: u64)
    ensures here { Becomes (Becomes (IsShelfFlip name bit)) (shelf_at slots.old.entries place.0 place.1) (shelf_at slots.new.entries place.0 place.1) }
    ensures others { (d v : ℕ) → (d ≡ place.0 → v ≡ place.1 → ⊥) → shelf_at slots.new.entries d v ≡ shelf_at slots.old.entries d v }
{
    if let Some(slot) = slots.get_mut(&place) {
        flip_slot(slot, name, bit);
    }
}

// Flips one bit of a file of the shelf that isn't out.
fn flip_slot(slot: &mut Option<MemShelf>, name: u64, bit: u64)
    ensures { Becomes (IsShelfFlip name bit) slot.old slot.new }
{
    if let Some(shelf) = slot {
        shelf.flip(name, bit);
    }
}

// Crashes the shelves in order of disk and volume.
fn crash_shelves(slots: &mut Slots, choice: &[u8])
    ensures { (disk vid : ℕ) → Becomes (Becomes IsShelfCrash) (shelf_at slots.old.entries disk vid) (shelf_at slots.new.entries disk vid) }
{
    let mut used = 0;
    slots.retain(|_, slot| {
        used = crash_slot(slot, choice, used);
        true
    });
}

// Crashes the shelf that isn't out, and says how many bytes of the choice were used up to its end.
fn crash_slot(slot: &mut Option<MemShelf>, choice: &[u8], used: usize) -> usize
    ensures { Becomes IsShelfCrash slot.old slot.new }
{
    let Some(shelf) = slot.take() else {
        return used;
    };
    let (left, used) = shelf.left_after(choice, used);
    *slot = Some(left);
    used
}

// Whether some shelf that isn't out has a file.
fn some_file(slots: &Slots) -> bool
    ensures any { result ≡ has_file slots.now.entries }
    ensures ordered { IsStrictlySortedBy place_cmp (keys_of slots.now.entries) }
{
    slots.values().any(|slot| is_filled(slot))
}

// Whether a shelf is there, with a file.
fn is_filled(slot: &Option<MemShelf>) -> bool
    ensures { result ≡ is_filled slot.now }
{
    match slot {
        Some(shelf) => !shelf.is_empty(),
        None => false,
    }
}

// Whether the admin's file is on its shelf.
fn has_admin(slots: &Slots) -> bool
    ensures { result ≡ admin_in (shelf_at slots.now.entries 0 0) }
{
    match slots.get(&(0, 0)) {
        Some(Some(shelf)) => shelf.has(ADMIN),
        _ => false,
    }
}

// Puts a shelf into the slot of its disk and volume, which is out.
fn put(slots: &mut Slots, disk: u32, vid: u32, shelf: MemShelf)
    requires { is_lent (shelf_at slots.old.entries disk vid) ≡ true }
    ensures { SetsShelf disk vid (Some (Some shelf)) slots.old.entries slots.new.entries }
{
    match slots.get_mut(&(disk, vid)) {
        Some(slot) => *slot = Some(shelf),
        None => unreachable!(),
    }
}

// Takes the shelf out of the slot of its disk and volume.
fn take(slots: &mut Slots, disk: u32, vid: u32) -> Option<MemShelf>
    requires { is_some (shelf_at slots.old.entries disk vid) ≡ true }
    ensures taken { shelf_at slots.old.entries disk vid ≡ Some result }
    ensures out { SetsShelf disk vid (Some None) slots.old.entries slots.new.entries }
{
    match slots.get_mut(&(disk, vid)) {
        Some(slot) => slot.take(),
        None => unreachable!(),
    }
}

// Lends the shelf of a disk and a volume, which isn't out: the one that is there, or an empty one.
fn lend(
    slots: &mut Slots,
    alloc: Global,
    disk: u32,
    vid: u32,
    fails: Vec<u64>,
) -> Result<MemShelf, FarmFault>
    requires { is_lent (shelf_at slots.old.entries disk vid) ≡ false }
    ensures shelf { IfOk result (IsLentAnew fails.items (shelf_at slots.old.entries disk vid)) }
    ensures lent { OnOk result (SetsShelf disk vid (Some None) slots.old.entries slots.new.entries) }
    ensures err { OnErr result (slots.new.entries ≡ slots.old.entries) }
    ensures only { IfErr result (λ fault. fault ≡ Memory) }
{
    if !slots.contains_key(&(disk, vid)) {
        slots.insert((disk, vid), None)?;
        return Ok(MemShelf::new(alloc, fails));
    }
    match take(slots, disk, vid) {
        Some(shelf) => Ok(shelf.handed_out_again(fails)),
        None => unreachable!(),
    }
}

impl Farm for MemFarm {
    type Disk = MemShelf;

    ghost seen = { farm_view };

    /// Fails exactly at the chosen calls, but answers `NotEmpty` first. A shelf that is out isn't looked at.
    fn root(&mut self, _name: &str) -> Result<bool, FarmFault>
        ensures counts { RootCounts result self.old self.new }
        ensures admin { IfOk result (λ there. there ≡ admin_in (shelf_at self.old.slots 0 0)) }
        ensures not_empty { IsErrOf result NotEmpty ↔ ((has_file self.old.slots && not (admin_in (shelf_at self.old.slots 0 0))) ≡ true) }
        ensures ordered { IsStrictlySortedBy place_cmp (keys_of self.old.slots) }
        ensures same { self.new.slots ≡ self.old.slots }
        ensures never_falls { self.old.plan.faults ≤ self.new.plan.faults }
    {
        let admin = has_admin(&self.slots);
        let filled = some_file(&self.slots);
        if filled && !admin {
            self.plan.count_refusal();
            return Err(FarmFault::NotEmpty);
        }
        if self.plan.count_call(false) {
            return Err(FarmFault::Failed);
        }
        Ok(admin)
    }

    /// Fails exactly at the chosen calls. A refusal for memory isn't counted.
    fn shelf(&mut self, disk: u32, vid: u32) -> Result<MemShelf, FarmFault>
        requires { is_lent (shelf_at self.old.slots disk vid) ≡ false }
        ensures counts { ShelfCounts result self.old self.new }
        ensures shelf { IfOk result (IsLentAnew (part_of (2 ^ 48) (one_more self.old.handed_out) self.old.plan.fails) (shelf_at self.old.slots disk vid)) }
        ensures handed_out { OnOk result (SetsShelf disk vid (Some None) self.old.slots self.new.slots) }
        ensures err { OnErr result (self.new.slots ≡ self.old.slots) }
        ensures never_falls { self.old.plan.faults ≤ self.new.plan.faults }
    {
        let number = self.handed_out.saturating_add(1);
        let fails = self.plan.part(self.alloc, SHELF, number)?;
        if self.plan.fails_next() {
            let _ = self.plan.count_call(false);
            return Err(FarmFault::Failed);
        }
        let shelf = lend(&mut self.slots, self.alloc, disk, vid, fails)?;
        let _ = self.plan.count_call(false);
        self.handed_out = number;
        Ok(shelf)
    }

    /// It isn't counted, and the next shelf that is handed out takes the next number.
    fn hold(&mut self, disk: u32, vid: u32, shelf: MemShelf)
        requires { is_lent (shelf_at self.old.slots disk vid) ≡ true }
        ensures kept { SetsShelf disk vid (Some (Some shelf)) self.old.slots self.new.slots }
        ensures plan { self.new.plan ≡ record self.old.plan { faults = added self.old.plan.faults shelf.plan.faults } }
        ensures numbers { self.new.handed_out ≡ self.old.handed_out }
        ensures never_falls { self.old.plan.faults ≤ self.new.plan.faults }
    {
        self.plan.add_faults(shelf.faults());
        put(&mut self.slots, disk, vid, shelf);
    }

    ghost is_farm = { is_farm };
}
