//! A root folder with the shelves of all disks and volumes.

ghost use Rattle.std.specs.Prelude.{[], ◌≡◌, false, true, None, Some, OnOk, OnErr, is_some, IsErrOf};
ghost use Rattle.disk_base.specs.Faults.{added};
ghost use Rattle.disk_base.specs.Places.{is_lent};
ghost use Rattle.disk_base.specs.declared.fault.FarmFault.TheVariants.{NotEmpty};
ghost use Rattle.dir_farm.specs.DirFarm.{shelf_at, is_farm, farm_view, SetsShelf, CountsFarm, IsFarmRefusal, LendsNotes};

use crate::dir_shelf::DirShelf;
use crate::folder::Folder;
use crate::root::{Found, look_at};
use disk_base::{Farm, FarmFault};
use std::alloc::AllocError;
use std::collections::BTreeMap;
use std::io::{self, ErrorKind};
use std::marker::Model;
use std::os::unix::fs::FileExt;
use std::rt::Files;

/// The shelves by disk and volume, each where it isn't out.
type Shelves<R> = BTreeMap<(u32, u32), Option<DirShelf<R>>>;

/// The shelves of a root folder: that of disk D and volume V is the folder `disk-D/vol-V` of it.
///
/// It tells nothing of what they hold, but remembers what its shelves knew when they were taken back.
#[derive(Drop)]
pub struct DirFarm<R> {
    rt: R,
    root: Option<String>,
    shelves: Shelves<R>,
    found_item: bool,
    faults: u64,
}

impl<R> Model for DirFarm<R> {
    ghost use Rattle.dir_farm.specs.DirFarm.{FarmNotes};

    ghost Value = { FarmNotes };

    ghost view = { λ farm. record { shelves = farm.shelves.entries; found_item = farm.found_item; faults = farm.faults } };
}

/// Notes that a shelf is handed out, of which nothing was known.
fn add<R: Drop>(shelves: &mut Shelves<R>, disk: u32, vid: u32) -> Result<(), AllocError>
    requires { shelf_at shelves.old.entries disk vid ≡ None }
    ensures out { OnOk result (SetsShelf disk vid (Some None) shelves.old.entries shelves.new.entries) }
    ensures same { OnErr result (shelves.new.entries ≡ shelves.old.entries) }
{
    shelves.insert((disk, vid), None)?;
    Ok(())
}

/// Takes the shelf out that is kept.
fn take<R>(shelves: &mut Shelves<R>, disk: u32, vid: u32) -> Option<DirShelf<R>>
    requires { is_some (shelf_at shelves.old.entries disk vid) ≡ true }
    ensures taken { shelf_at shelves.old.entries disk vid ≡ Some result }
    ensures out { SetsShelf disk vid (Some None) shelves.old.entries shelves.new.entries }
{
    match shelves.get_mut(&(disk, vid)) {
        Some(shelf) => shelf.take(),
        None => unreachable!(),
    }
}

/// Keeps a shelf that was out.
fn keep<R: Drop>(shelves: &mut Shelves<R>, disk: u32, vid: u32, shelf: DirShelf<R>)
    requires { is_lent (shelf_at shelves.old.entries disk vid) ≡ true }
    ensures { SetsShelf disk vid (Some (Some shelf)) shelves.old.entries shelves.new.entries }
{
    match shelves.get_mut(&(disk, vid)) {
        Some(place) => *place = Some(shelf),
        None => unreachable!(),
    }
}

impl<R: Files + AllocGlobal + Clone + Drop> DirFarm<R>
where
    R::File: FileExt,
{
    /// A farm whose root isn't named yet. It takes no memory.
    pub fn new(rt: R) -> DirFarm<R>
        ensures { result ≡ record { shelves = []; found_item = false; faults = 0 } }
    {
        let shelves = Shelves::new(rt.alloc());
        DirFarm {
            rt,
            root: None,
            shelves,
            found_item: false,
            faults: 0,
        }
    }

    /// Counts a call that failed, and says why: memory that was out isn't counted.
    fn refuse(&mut self, error: &io::Error) -> FarmFault
        ensures shelves { self.new.shelves ≡ self.old.shelves }
        ensures item { self.new.found_item ≡ self.old.found_item }
        ensures counts { IsFarmRefusal result self.old.faults self.new.faults }
    {
        if error.kind() == ErrorKind::OutOfMemory {
            return FarmFault::Memory;
        }
        self.faults = self.faults.saturating_add(1);
        FarmFault::Failed
    }

    /// The folder of a shelf. The root has to be named before.
    fn folder(&self, disk: u32, vid: u32) -> io::Result<Folder<R>> {
        match &self.root {
            Some(root) => Folder::at(self.rt.clone()?, root.as_str(), disk, vid),
            None => Err(io::Error::from(ErrorKind::NotFound)),
        }
    }

    /// Hands out a shelf of which nothing was known.
    fn lend_new(&mut self, disk: u32, vid: u32) -> Result<DirShelf<R>, FarmFault>
        requires { shelf_at self.old.shelves disk vid ≡ None }
        ensures counts { CountsFarm result self.old.faults self.new.faults }
        ensures item { self.new.found_item ≡ self.old.found_item }
        ensures answer { LendsNotes disk vid self.old.shelves self.new.shelves result }
    {
        let folder = match self.folder(disk, vid) {
            Ok(folder) => folder,
            Err(error) => return Err(self.refuse(&error)),
        };
        add(&mut self.shelves, disk, vid)?;
        Ok(DirShelf::new(self.rt.alloc(), folder))
    }
}

impl<R: Files + AllocGlobal + Clone + Drop> Farm for DirFarm<R>
where
    R::File: FileExt,
{
    type Disk = DirShelf<R>;

    ghost seen = { λ farm. farm_view farm };

    /// The root is made where it isn't there. It has the admin's file where that has its name, and an item where a listing
    /// gives one.
    fn root(&mut self, name: &str) -> Result<bool, FarmFault>
        ensures counts { CountsFarm result self.old.faults self.new.faults }
        ensures shelves { self.new.shelves ≡ self.old.shelves }
        ensures item { IsErrOf result NotEmpty → self.new.found_item ≡ true }
    {
        let found = match look_at(&self.rt, name) {
            Ok(found) => found,
            Err(error) => return Err(self.refuse(&error)),
        };
        self.root = Some(String::from_str(self.rt.alloc(), name)?);
        match found {
            Found::Nothing => Ok(false),
            Found::Admin => Ok(true),
            Found::Other => {
                self.found_item = true;
                Err(FarmFault::NotEmpty)
            }
        }
    }

    fn shelf(&mut self, disk: u32, vid: u32) -> Result<DirShelf<R>, FarmFault>
        requires { is_lent (shelf_at self.old.shelves disk vid) ≡ false }
        ensures counts { CountsFarm result self.old.faults self.new.faults }
        ensures item { self.new.found_item ≡ self.old.found_item }
        ensures answer { LendsNotes disk vid self.old.shelves self.new.shelves result }
    {
        if !self.shelves.contains_key(&(disk, vid)) {
            return self.lend_new(disk, vid);
        }
        match take(&mut self.shelves, disk, vid) {
            Some(shelf) => Ok(shelf.lent_again()),
            None => unreachable!(),
        }
    }

    fn hold(&mut self, disk: u32, vid: u32, shelf: DirShelf<R>)
        requires { is_lent (shelf_at self.old.shelves disk vid) ≡ true }
        ensures kept { SetsShelf disk vid (Some (Some shelf)) self.old.shelves self.new.shelves }
        ensures count { self.new.faults ≡ added self.old.faults shelf.faults }
    {
        self.faults = self.faults.saturating_add(shelf.faults());
        keep(&mut self.shelves, disk, vid, shelf);
    }

    ghost is_farm = { is_farm };
}
