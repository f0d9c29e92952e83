//! A shelf in a folder.

ghost use Rattle.std.specs.Prelude.{[], ◌≡◌, false, true, Some, None};
ghost use Rattle.disk_base.specs.Faults.{added};
ghost use Rattle.dir_farm.specs.declared.names.Known.TheVariants.{Back};
ghost use Rattle.dir_farm.specs.DirShelf.{IsRefusal, known_at, is_out, is_shelf, shelf_view, Sets, CountsShelf, ListsNames, OpensName, MakesName, RemovesName};

use crate::dir_file::DirFile;
use crate::folder::Folder;
use crate::names::{Known, Names, add, forget, is_known, note_all, set, set_out};
use disk_base::{Shelf, ShelfFault};
use std::alloc::Global;
use std::io::{self, ErrorKind};
use std::marker::Model;
use std::os::unix::fs::FileExt;
use std::rt::Files;

/// The files of one disk and volume, in a folder.
///
/// It tells nothing of them, but remembers the names that it has listed, handed out, taken back or refused to make.
#[derive(Drop)]
pub struct DirShelf<R> {
    folder: Folder<R>,
    names: Names,
    faults: u64,
}

impl<R> Model for DirShelf<R> {
    ghost use Rattle.dir_farm.specs.DirShelf.{ShelfNotes};

    ghost Value = { ShelfNotes };

    ghost view = { λ shelf. record { names = shelf.names.entries; faults = shelf.faults } };
}

impl<R: Files + AllocGlobal + Clone + Drop> DirShelf<R>
where
    R::File: FileExt,
{
    /// The shelf in this folder, of which nothing is known yet.
    pub(crate) fn new(alloc: Global, folder: Folder<R>) -> DirShelf<R>
        ensures { result ≡ record { names = []; faults = 0 } }
    {
        DirShelf {
            folder,
            names: Names::new(alloc),
            faults: 0,
        }
    }

    /// How often a call on the shelf, or on a file that it took back, has failed.
    pub fn faults(&self) -> u64
        ensures { result ≡ self.now.faults }
    {
        self.faults
    }

    /// The shelf as it is handed out once more: its faults are counted anew.
    pub(crate) fn lent_again(self) -> DirShelf<R>
        ensures { result ≡ record self { faults = 0 } }
    {
        let mut shelf = self;
        shelf.faults = 0;
        shelf
    }

    /// Whether the system says that there is no such file, and none is known.
    fn is_absent(&self, error: &io::Error, name: u64) -> bool
        ensures { result ≡ true → known_at self.now.names name ≡ None }
    {
        error.kind() == ErrorKind::NotFound && !is_known(&self.names, name)
    }

    /// Hands out a file that was made. Where there is no memory for its name, it is removed again.
    fn keep_made(&mut self, name: u64, file: R::File) -> Result<DirFile<R::File>, ShelfFault>
        requires { known_at self.old.names name ≡ None }
        ensures counts { CountsShelf result self.old.faults self.new.faults }
        ensures answer { MakesName name self.old.names self.new.names result }
    {
        match add(&mut self.names, name, Known::Out) {
            Ok(()) => Ok(DirFile::new(file)),
            Err(_) => {
                let _ = self.folder.remove(name);
                Err(ShelfFault::Memory)
            }
        }
    }

    /// Counts a call that failed, and says why: memory that was out isn't counted.
    fn refuse(&mut self, error: &io::Error) -> ShelfFault
        ensures names { self.new.names ≡ self.old.names }
        ensures counts { IsRefusal result self.old.faults self.new.faults }
    {
        if error.kind() == ErrorKind::OutOfMemory {
            return ShelfFault::Memory;
        }
        self.faults = self.faults.saturating_add(1);
        ShelfFault::Failed
    }
}

impl<R: Files + AllocGlobal + Clone + Drop> Shelf for DirShelf<R>
where
    R::File: FileExt,
{
    type File = DirFile<R::File>;

    ghost seen = { λ shelf. shelf_view shelf };

    /// The folder is listed. A name that spells no number fails the call, and so does one that was known and is gone.
    fn names(&mut self, alloc: Global) -> Result<Vec<u64>, ShelfFault>
        ensures counts { CountsShelf result self.old.faults self.new.faults }
        ensures answer { ListsNames self.old.names self.new.names result }
    {
        let listing = match self.folder.names(alloc) {
            Ok(listing) => listing,
            Err(error) => return Err(self.refuse(&error)),
        };
        note_all(&mut self.names, &listing)?;
        if listing.len() != self.names.len() {
            return Err(self.refuse(&io::Error::from(ErrorKind::NotFound)));
        }
        Ok(self.names.keys().copied().collect(alloc)?)
    }

    fn open(&mut self, _alloc: Global, name: u64) -> Result<DirFile<R::File>, ShelfFault>
        requires { is_out (known_at self.old.names name) ≡ false }
        ensures counts { CountsShelf result self.old.faults self.new.faults }
        ensures answer { OpensName name self.old.names self.new.names result }
    {
        match self.folder.open(name) {
            Ok(file) => {
                set_out(&mut self.names, name)?;
                Ok(DirFile::new(file))
            }
            Err(error) if self.is_absent(&error, name) => Err(ShelfFault::Absent),
            Err(error) => Err(self.refuse(&error)),
        }
    }

    fn make(&mut self, _alloc: Global, name: u64) -> Result<DirFile<R::File>, ShelfFault>
        ensures counts { CountsShelf result self.old.faults self.new.faults }
        ensures answer { MakesName name self.old.names self.new.names result }
    {
        if is_known(&self.names, name) {
            return Err(ShelfFault::Exists);
        }
        match self.folder.make(name) {
            Ok(file) => self.keep_made(name, file),
            Err(error) if error.kind() == ErrorKind::AlreadyExists => {
                add(&mut self.names, name, Known::There)?;
                Err(ShelfFault::Exists)
            }
            Err(error) => Err(self.refuse(&error)),
        }
    }

    fn remove(&mut self, name: u64) -> Result<(), ShelfFault>
        requires { is_out (known_at self.old.names name) ≡ false }
        ensures counts { CountsShelf result self.old.faults self.new.faults }
        ensures answer { RemovesName name self.old.names self.new.names result }
    {
        match self.folder.remove(name) {
            Ok(()) => {
                forget(&mut self.names, name);
                Ok(())
            }
            Err(error) if self.is_absent(&error, name) => Err(ShelfFault::Absent),
            Err(_) => {
                forget(&mut self.names, name);
                self.faults = self.faults.saturating_add(1);
                Err(ShelfFault::Failed)
            }
        }
    }

    fn hold(&mut self, name: u64, file: DirFile<R::File>)
        requires { is_out (known_at self.old.names name) ≡ true }
        ensures kept { Sets name (Some (Back file)) self.old.names self.new.names }
        ensures count { self.new.faults ≡ added self.old.faults file.faults }
    {
        let counts = file.counts();
        self.faults = self.faults.saturating_add(counts.faults);
        set(&mut self.names, name, Known::Back(counts));
    }

    ghost is_shelf = { is_shelf };
}
