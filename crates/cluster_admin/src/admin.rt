//! The tables of the cluster, and the calls on disks, placers and names.

ghost use Rattle.std.specs.Prelude.{◌≡◌, ◌<◌, ◌≤◌, ◌-◌, ◌+◌, ◌∷◌, ◌++◌, [], ℕ, length, map, remove, replicate, true, false, slice_get, slice_set, Some, None, OnOk, OnErr, IfOk, IfErr, vec_len, option_map};
ghost use Rattle.std.specs.Map.{lookup, remove_entry};
ghost use Rattle.std.specs.Str.{bytes_eq};
ghost use Rattle.cluster_admin.specs.Placing.{IsAfter};
ghost use Rattle.cluster_admin.specs.Disks.{new_disk, disk_at};
ghost use Rattle.cluster_admin.specs.Cluster.{fresh};
ghost use Rattle.cluster_admin.specs.Inside.{state_of, placer_of, waiting_of};
ghost use Rattle.cluster_admin.specs.Refusals.{IsRefused, IsRefusedExactly, set_disks_fault, use_placer_fault, break_fault, add_name_fault};

use crate::disks::{Disk, DiskState, Disks, disk_at};
use crate::fault::AdminFault;
use crate::names::{Names, Object};
use crate::placer::{Place, Placer};
use crate::plans::Planned;
use crate::volumes::Volumes;
use std::alloc::{AllocError, Global};
use unit_id::Bytes;

/// The most disks that a store has.
const MOST_DISKS: u32 = 64;

/// The most names that are held at once.
const MOST_NAMES: usize = 100_000;

/// The tables of a store's cluster, and the placers that choose its disks.
#[derive(Drop)]
pub struct Admin {
    pub(crate) alloc: Global,
    pub(crate) in_use: Box<dyn Placer>,
    pub(crate) waiting: Vec<Option<Box<dyn Placer>>>,
    pub(crate) disks: Disks,
    pub(crate) volumes: Volumes,
    pub(crate) planned: u32,
    pub(crate) tasks: Vec<Planned>,
    pub(crate) names: Names,
}

/// The placers that wait behind the one in use, whose own place is empty.
fn waiting_behind(
    alloc: Global,
    placers: Vec<Box<dyn Placer>>,
) -> Result<Vec<Option<Box<dyn Placer>>>, AllocError>
    ensures { IfOk result (λ waiting. waiting.items ≡ None ∷ map Some placers.items) }
{
    let mut waiting = Vec::with_capacity(alloc, placers.len())?;
    waiting.push(None)?;
    for placer in placers {
        waiting.push(Some(placer))?;
    }
    Ok(waiting)
}

impl Admin {
    /// The tables of a store without disks. The first placer is in use. Fails only for want of memory.
    pub fn make(alloc: Global, placers: Vec<Box<dyn Placer>>) -> Result<Admin, AdminFault>
        requires { 0 < length placers.items }
        ensures fresh { IfOk result (λ admin. state_of admin ≡ fresh (length placers.items)) }
        ensures in_use { IfOk result (λ admin. slice_get placers.items 0 ≡ Some (placer_of admin)) }
        ensures waiting { IfOk result (λ admin. waiting_of admin ≡ None ∷ map Some (remove placers.items 0)) }
        ensures err { IfErr result (λ fault. fault ≡ AdminFault.Memory) }
    {
        let volumes = Volumes::none(alloc)?;
        let mut placers = placers;
        let in_use = placers.remove(0);
        let waiting = waiting_behind(alloc, placers)?;
        Ok(Admin {
            alloc,
            in_use,
            waiting,
            disks: Disks::none(alloc),
            volumes,
            planned: 0,
            tasks: Vec::new(alloc),
            names: Names::none(alloc),
        })
    }

    /// Why this many disks aren't taken.
    fn set_disks_fault(&self, count: u32) -> Option<AdminFault>
        ensures { result ≡ set_disks_fault (state_of self.now) count }
    {
        let have = self.disks.as_slice().len() as u32;
        if have != 0 {
            Some(AdminFault::DisksGiven { have })
        } else if count == 0 || count > MOST_DISKS {
            Some(AdminFault::LimitDisks)
        } else {
            None
        }
    }

    /// Gives the store its disks, which are new: the numbers 1 to `count`.
    ///
    /// # Errors
    /// `DisksGiven` where it has disks already, `LimitDisks` where the count is 0 or above 64.
    pub fn set_disks(&mut self, count: u32) -> Result<(), AdminFault>
        ensures fault { IsRefused (set_disks_fault (state_of self.old) count) result }
        ensures ok { OnOk result (state_of self.new ≡ record (state_of self.old) { disks = replicate count new_disk }) }
        ensures err { OnErr result (state_of self.new ≡ state_of self.old) }
        ensures placer { placer_of self.new ≡ placer_of self.old }
    {
        if let Some(fault) = self.set_disks_fault(count) {
            return Err(fault);
        }
        self.disks = Disks::fresh(self.alloc, count)?;
        Ok(())
    }

    /// Takes another placer into use, counted from 1, and drops the one that was in use.
    ///
    /// # Errors
    /// `NoPlacer` where there is none of that number, `PlacerUsed` where it is or was in use.
    pub fn use_placer(&mut self, number: u32) -> Result<(), AdminFault>
        ensures fault { IsRefusedExactly (use_placer_fault (state_of self.old) number) result }
        ensures taken { OnOk result (slice_get (waiting_of self.old) (number - 1) ≡ Some (Some (placer_of self.new))) }
        ensures others { OnOk result (waiting_of self.new ≡ slice_set (waiting_of self.old) (number - 1) None) }
        ensures ok { OnOk result (state_of self.new ≡ record (state_of self.old) { waiting = slice_set (state_of self.old).waiting (number - 1) false }) }
        ensures err { OnErr result ((waiting_of self.new ≡ waiting_of self.old) × (placer_of self.new ≡ placer_of self.old) × (state_of self.new ≡ state_of self.old)) }
    {
        if number == 0 || number as usize > self.waiting.len() {
            return Err(AdminFault::NoPlacer);
        }
        match self.waiting[number as usize - 1].take() {
            Some(placer) => {
                self.in_use = placer;
                Ok(())
            }
            None => Err(AdminFault::PlacerUsed),
        }
    }

    /// How many disks there are, 0 before they are given.
    pub fn disk_count(&self) -> u32
        ensures count { result ≡ length (state_of self.now).disks }
        ensures most { result ≤ 64 }
    {
        self.disks.as_slice().len() as u32
    }

    /// The state of a disk. Takes no memory.
    ///
    /// # Errors
    /// `NoTarget` where there is no such disk.
    pub fn state(&self, disk: u32) -> Result<DiskState, AdminFault>
        ensures ok { IfOk result (λ state. option_map (λ disk. disk.state) (disk_at (state_of self.now).disks disk) ≡ Some state) }
        ensures err { IfErr result (λ fault. (fault ≡ AdminFault.NoTarget) × (disk_at (state_of self.now).disks disk ≡ None)) }
    {
        match disk_at(self.disks.as_slice(), disk) {
            Some(disk) => Ok(disk.state),
            None => Err(AdminFault::NoTarget),
        }
    }

    /// Notes that a disk is broken. It drains no longer.
    ///
    /// # Errors
    /// `NoTarget` where there is no such disk, `BadState` where it isn't normal.
    pub fn break_disk(&mut self, disk: u32) -> Result<(), AdminFault>
        ensures fault { IsRefusedExactly (break_fault (state_of self.old) disk) result }
        ensures ok { OnOk result (state_of self.new ≡ record (state_of self.old) {
          disks = slice_set (state_of self.old).disks (disk - 1) (record { state = DiskState.Broken; drains = false });
        }) }
        ensures err { OnErr result (state_of self.new ≡ state_of self.old) }
        ensures placer { placer_of self.new ≡ placer_of self.old }
    {
        let Some(found) = disk_at(self.disks.as_slice(), disk) else {
            return Err(AdminFault::NoTarget);
        };
        if !matches!(found.state, DiskState::Normal) {
            return Err(AdminFault::BadState { state: found.state });
        }
        let broken = Disk {
            state: DiskState::Broken,
            drains: false,
        };
        self.disks.set(disk as usize - 1, broken);
        Ok(())
    }

    /// Why a name isn't added.
    fn add_name_fault(&self, name: &str) -> Option<AdminFault>
        ensures { result ≡ add_name_fault (state_of self.now) name.now }
    {
        if self.names.get(name.as_bytes()).is_some() {
            Some(AdminFault::NameTaken)
        } else if self.names.len() >= MOST_NAMES {
            Some(AdminFault::LimitNames)
        } else {
            None
        }
    }

    /// Whether a name can be added now. Takes no memory.
    ///
    /// # Errors
    /// `NameTaken` where it is held, `LimitNames` where 100,000 names are.
    pub fn may_add_name(&self, name: &str) -> Result<(), AdminFault>
        ensures { IsRefusedExactly (add_name_fault (state_of self.now) name.now) result }
    {
        match self.add_name_fault(name) {
            Some(fault) => Err(fault),
            None => Ok(()),
        }
    }

    /// Enters a name, of 1 to 64 bytes, behind all others. Names are packed anew once after at least
    /// 160,000 puts, so that on average a put takes as much time among many names as among few.
    ///
    /// # Errors
    /// As `may_add_name`.
    pub fn add_name(&mut self, name: &str, at: Object) -> Result<(), AdminFault>
        ensures fault { IsRefused (add_name_fault (state_of self.old) name.now) result }
        ensures ok { OnOk result (state_of self.new ≡ record (state_of self.old) { names = (state_of self.old).names ++ (name.now, at) ∷ [] }) }
        ensures err { OnErr result (state_of self.new ≡ state_of self.old) }
        ensures placer { placer_of self.new ≡ placer_of self.old }
    {
        if let Some(fault) = self.add_name_fault(name) {
            return Err(fault);
        }
        self.names.add(name.as_bytes(), at)?;
        Ok(())
    }

    /// The object of a name. Takes no memory.
    ///
    /// # Errors
    /// `NoName` where the name isn't held.
    pub fn name(&self, name: &str) -> Result<Object, AdminFault>
        ensures ok { IfOk result (λ at. lookup (bytes_eq name.now) (state_of self.now).names ≡ Some at) }
        ensures err { IfErr result (λ fault. (fault ≡ AdminFault.NoName) × (lookup (bytes_eq name.now) (state_of self.now).names ≡ None)) }
    {
        match self.names.get(name.as_bytes()) {
            Some(at) => Ok(at),
            None => Err(AdminFault::NoName),
        }
    }

    /// Takes a name out, and answers its object. Takes no memory, and as much time among many names as
    /// among few: at most 255 names move.
    ///
    /// # Errors
    /// `NoName` where the name isn't held.
    pub fn remove_name(&mut self, name: &str) -> Result<Object, AdminFault>
        ensures ok { IfOk result (λ at. lookup (bytes_eq name.now) (state_of self.old).names ≡ Some at) }
        ensures gone { OnOk result (state_of self.new ≡ record (state_of self.old) { names = remove_entry (bytes_eq name.now) (state_of self.old).names }) }
        ensures err { IfErr result (λ fault. (fault ≡ AdminFault.NoName) × (lookup (bytes_eq name.now) (state_of self.old).names ≡ None)) }
        ensures same { OnErr result (state_of self.new ≡ state_of self.old) }
        ensures placer { placer_of self.new ≡ placer_of self.old }
    {
        if self.names.get(name.as_bytes()).is_none() {
            return Err(AdminFault::NoName);
        }
        match self.names.remove(name.as_bytes()) {
            Some(at) => Ok(at),
            None => Err(AdminFault::NoName),
        }
    }

    /// The name at a place in order of put, counted from 0, and its object; none where no more names
    /// are held. It passes at most 1,024 blocks of names on its way. Fails only for want of memory.
    pub fn name_at(&self, place: u64) -> Result<Option<(Bytes, Object)>, AdminFault>
        ensures ok { IfOk result (λ found. found ≡ slice_get (state_of self.now).names place) }
        ensures err { IfErr result (λ fault. fault ≡ AdminFault.Memory) }
    {
        match self.names.at(place as usize) {
            Some((name, at)) => {
                let copy = Vec::from_slice(self.alloc, name)?;
                Ok(Some((Bytes::from_vec(copy), at)))
            }
            None => Ok(None),
        }
    }
}
