//! A shelf in memory.

ghost use Rattle.std.specs.Prelude.{◌≡◌, ◌≢◌, ◌↔◌, ◌^◌, ◌≤◌, ◌==◌, length, [], true, false, is_some, None, Some, IsOk, IfOk, OnOk, OnErr, IfSome, IsErrOf, IsTrue, ℕ};
ghost use Rattle.std.specs.Map.{keys_of};
ghost use Rattle.std.specs.List.Sorted.{IsStrictlyIncreasing};
ghost use Rattle.disk_base.specs.Faults.{one_more, part_of, added, unused_shared};
ghost use Rattle.disk_base.specs.Images.{empty_file, view_of};
ghost use Rattle.disk_base.specs.Places.{is_lent};
ghost use Rattle.disk_base.specs.Racks.{slot_at, is_shelf, IsReopened, shelf_view, NamesCounts, OpenCounts, MakeCounts, RemoveCounts, Sets, Becomes, IsFileCrash, IsShelfCrash, IsFlipped, IsShelfFlip, empty_shelf};
ghost use Rattle.disk_base.specs.declared.fault.ShelfFault.TheVariants.{Exists, Absent};

use crate::{FaultPlan, MemFile, Shelf, ShelfFault};
use std::alloc::Global;
use std::collections::BTreeMap;
use std::marker::Model;

/// The numbers of failing calls of each file that a shelf hands out begin at a multiple of this.
const FILE: u64 = 0x1_0000_0000;

/// The names of a shelf, each with its file where that isn't out.
type Slots = BTreeMap<u64, Option<MemFile>>;

/// A shelf of files in memory.
#[derive(Drop)]
pub struct MemShelf {
    slots: Slots,
    handed_out: u64,
    plan: FaultPlan,
}

impl Model for MemShelf {
    ghost use Rattle.disk_base.specs.Places.{is_lent};
    ghost use Rattle.disk_base.specs.Racks.{ShelfState};

    ghost Value = { ShelfState };

    ghost view = { λ shelf. record { plan = shelf.plan; handed_out = shelf.handed_out; slots = shelf.slots.entries } };
}

impl MemShelf {
    /// An empty shelf. A number below 2^32 is a call on the shelf that fails, counted from 1; the number
    /// j * 2^32 + c is call c of the j-th file that it hands out. `hold` isn't counted. Takes no memory.
    pub fn new(alloc: Global, fails: Vec<u64>) -> MemShelf
        ensures { result ≡ empty_shelf fails.items }
    {
        MemShelf {
            slots: BTreeMap::new(alloc),
            handed_out: 0,
            plan: FaultPlan::shared(fails),
        }
    }

    /// Whether the file of that name is handed out now.
    pub fn is_out(&self, name: u64) -> bool
        ensures { result ≡ is_lent (slot_at self.now.slots name) }
    {
        match self.slots.get(&name) {
            Some(slot) => slot.is_none(),
            None => false,
        }
    }

    // The shelf as it is handed out once more: its calls, files and faults are counted anew.
    pub(crate) fn handed_out_again(self, fails: Vec<u64>) -> MemShelf
        ensures { result ≡ record self { plan = unused_shared fails.items; handed_out = 0 } }
    {
        MemShelf {
            slots: self.slots,
            handed_out: 0,
            plan: FaultPlan::shared(fails),
        }
    }

    // The shelf that a crash leaves, and how many bytes of the choice were used up to the end of its files.
    pub(crate) fn left_after(self, choice: &[u8], used: usize) -> (MemShelf, usize)
        ensures { IsShelfCrash self result.0 }
    {
        let mut shelf = self;
        let used = crash_files(&mut shelf.slots, choice, used);
        (shelf, used)
    }

    // Flips one bit of the file of that name, if it is there and isn't out.
    pub(crate) fn flip(&mut self, name: u64, bit: u64)
        ensures { IsShelfFlip name bit self.old self.new }
    {
        flip_in(&mut self.slots, name, bit);
    }

    // Whether there is a file of that name, also where it is out.
    pub(crate) fn has(&self, name: u64) -> bool
        ensures { result ≡ is_some (slot_at self.now.slots name) }
    {
        self.slots.contains_key(&name)
    }

    // Whether there is no file.
    pub(crate) fn is_empty(&self) -> bool
        ensures { result ≡ (length self.now.slots == 0) }
    {
        self.slots.is_empty()
    }

    pub(crate) fn faults(&self) -> u64
        ensures { result ≡ self.now.plan.faults }
    {
        self.plan.faults()
    }
}

// Puts a file into the slot of its name, which is out.
fn put(slots: &mut Slots, name: u64, file: MemFile)
    requires { is_lent (slot_at slots.old.entries name) ≡ true }
    ensures { Sets name (Some (Some file)) slots.old.entries slots.new.entries }
{
    match slots.get_mut(&name) {
        Some(slot) => *slot = Some(file),
        None => unreachable!(),
    }
}

// Takes the file out of the slot of its name.
fn take(slots: &mut Slots, name: u64) -> Option<MemFile>
    requires { is_some (slot_at slots.old.entries name) ≡ true }
    ensures taken { slot_at slots.old.entries name ≡ Some result }
    ensures out { Sets name (Some None) slots.old.entries slots.new.entries }
{
    match slots.get_mut(&name) {
        Some(slot) => slot.take(),
        None => unreachable!(),
    }
}

// Crashes the files in order of name, and says how many bytes of the choice were used up.
fn crash_files(slots: &mut Slots, choice: &[u8], used: usize) -> usize
    ensures { (name : ℕ) → Becomes (Becomes IsFileCrash) (slot_at slots.old.entries name) (slot_at slots.new.entries name) }
{
    let mut used = used;
    slots.retain(|_, slot| {
        used = crash_slot(slot, choice, used);
        true
    });
    used
}

// Crashes the file that isn't out.
fn crash_slot(slot: &mut Option<MemFile>, choice: &[u8], used: usize) -> usize
    ensures { Becomes IsFileCrash slot.old slot.new }
{
    let Some(file) = slot.take() else {
        return used;
    };
    let count = file.loose_count();
    let rest = &choice[used.min(choice.len())..];
    *slot = Some(file.crash(rest));
    used.saturating_add(count)
}

// Flips one bit of the file of that name, if it is there and isn't out.
fn flip_in(slots: &mut Slots, name: u64, bit: u64)
    ensures here { Becomes (Becomes (IsFlipped bit)) (slot_at slots.old.entries name) (slot_at slots.new.entries name) }
    ensures others { (n : ℕ) → n ≢ name → slot_at slots.new.entries n ≡ slot_at slots.old.entries n }
{
    if let Some(slot) = slots.get_mut(&name) {
        flip_slot(slot, bit);
    }
}

// Flips one bit of the file that isn't out.
fn flip_slot(slot: &mut Option<MemFile>, bit: u64)
    ensures { Becomes (IsFlipped bit) slot.old slot.new }
{
    if let Some(file) = slot {
        file.flip(bit);
    }
}

impl Shelf for MemShelf {
    type File = MemFile;

    ghost seen = { shelf_view view_of };

    /// Fails exactly at the chosen calls. A refusal for memory isn't counted.
    fn names(&mut self, alloc: Global) -> Result<Vec<u64>, ShelfFault>
        ensures counts { NamesCounts result self.old self.new }
        ensures names { IfOk result (λ names. names.items ≡ keys_of self.old.slots) }
        ensures ascend { IfOk result (λ names. IsStrictlyIncreasing names.items) }
        ensures same { self.new.slots ≡ self.old.slots }
        ensures never_falls { self.old.plan.faults ≤ self.new.plan.faults }
    {
        let names = self.slots.keys().copied().collect(alloc)?;
        if self.plan.count_call(false) {
            return Err(ShelfFault::Failed);
        }
        Ok(names)
    }

    /// Fails exactly at the chosen calls, but answers `Absent` first. A refusal for memory isn't counted.
    fn open(&mut self, alloc: Global, name: u64) -> Result<MemFile, ShelfFault>
        requires { is_lent (slot_at self.old.slots name) ≡ false }
        ensures counts { OpenCounts result self.old self.new }
        ensures absent { IsErrOf result Absent ↔ (slot_at self.old.slots name ≡ None) }
        ensures file { IfOk result (λ file. IsReopened (part_of (2 ^ 32) (one_more self.old.handed_out) self.old.plan.fails) (slot_at self.old.slots name) file) }
        ensures handed_out { OnOk result (Sets name (Some None) self.old.slots self.new.slots) }
        ensures err { OnErr result (self.new.slots ≡ self.old.slots) }
        ensures never_falls { self.old.plan.faults ≤ self.new.plan.faults }
    {
        if !self.slots.contains_key(&name) {
            self.plan.count_refusal();
            return Err(ShelfFault::Absent);
        }
        let number = self.handed_out.saturating_add(1);
        let fails = self.plan.part(alloc, FILE, number)?;
        if self.plan.count_call(false) {
            return Err(ShelfFault::Failed);
        }
        self.handed_out = number;
        match take(&mut self.slots, name) {
            Some(file) => Ok(file.handed_out_again(fails)),
            None => unreachable!(),
        }
    }

    /// Fails exactly at the chosen calls, and then makes nothing, but answers `Exists` first. A refusal for
    /// memory isn't counted.
    fn make(&mut self, alloc: Global, name: u64) -> Result<MemFile, ShelfFault>
        ensures counts { MakeCounts result self.old self.new }
        ensures exists { IsErrOf result Exists ↔ (is_some (slot_at self.old.slots name) ≡ true) }
        ensures file { IfOk result (λ file. file ≡ empty_file (part_of (2 ^ 32) (one_more self.old.handed_out) self.old.plan.fails) None) }
        ensures handed_out { OnOk result (Sets name (Some None) self.old.slots self.new.slots) }
        ensures err { OnErr result (self.new.slots ≡ self.old.slots) }
        ensures never_falls { self.old.plan.faults ≤ self.new.plan.faults }
    {
        if self.slots.contains_key(&name) {
            self.plan.count_refusal();
            return Err(ShelfFault::Exists);
        }
        let number = self.handed_out.saturating_add(1);
        let fails = self.plan.part(alloc, FILE, number)?;
        if self.plan.fails_next() {
            let _ = self.plan.count_call(false);
            return Err(ShelfFault::Failed);
        }
        self.slots.insert(name, None)?;
        let _ = self.plan.count_call(false);
        self.handed_out = number;
        Ok(MemFile::new(alloc, fails))
    }

    /// Fails exactly at the chosen calls, and then removes nothing, but answers `Absent` first.
    fn remove(&mut self, name: u64) -> Result<(), ShelfFault>
        requires { is_lent (slot_at self.old.slots name) ≡ false }
        ensures counts { RemoveCounts result self.old self.new }
        ensures absent { IsErrOf result Absent ↔ (slot_at self.old.slots name ≡ None) }
        ensures gone { OnOk result (Sets name None self.old.slots self.new.slots) }
        ensures err { OnErr result (self.new.slots ≡ self.old.slots) }
        ensures never_falls { self.old.plan.faults ≤ self.new.plan.faults }
    {
        if !self.slots.contains_key(&name) {
            self.plan.count_refusal();
            return Err(ShelfFault::Absent);
        }
        if self.plan.count_call(false) {
            return Err(ShelfFault::Failed);
        }
        let _ = self.slots.remove(&name);
        Ok(())
    }

    /// It isn't counted, and the next file that is handed out takes the next number.
    fn hold(&mut self, name: u64, file: MemFile)
        requires { is_lent (slot_at self.old.slots name) ≡ true }
        ensures kept { Sets name (Some (Some file)) self.old.slots self.new.slots }
        ensures plan { self.new.plan ≡ record self.old.plan { faults = added self.old.plan.faults file.plan.faults } }
        ensures numbers { self.new.handed_out ≡ self.old.handed_out }
        ensures never_falls { self.old.plan.faults ≤ self.new.plan.faults }
    {
        self.plan.add_faults(file.faults());
        put(&mut self.slots, name, file);
    }

    ghost is_shelf = { is_shelf view_of };
}
