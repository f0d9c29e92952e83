//! A folder of numbered files, as the system has it. Nothing is promised of what a system answers.

use std::alloc::{AllocError, Global};
use std::fmt::Write;
use std::fs::{self, OpenFile, OpenOptions};
use std::io::{self, ErrorKind};
use std::rt::Files;

/// How many bytes a number has in decimal at most, with a slash before it.
const NUMBER: usize = 21;

/// The path of a folder, and room for the path of a file of it.
#[derive(Drop)]
struct FolderPath {
    folder: String,
    file: String,
}

impl FolderPath {
    fn new(alloc: Global, folder: String) -> Result<FolderPath, AllocError> {
        let file = String::with_capacity(alloc, folder.len().saturating_add(NUMBER))?;
        Ok(FolderPath { folder, file })
    }

    /// The path of a file. There is room for it, so it takes no memory.
    fn of_file(&mut self, name: u64) -> io::Result<&str> {
        self.file.clear();
        self.file.push_str(self.folder.as_str())?;
        match write!(self.file, "/{name}") {
            Ok(()) => Ok(self.file.as_str()),
            Err(_) => Err(io::Error::from(ErrorKind::OutOfMemory)),
        }
    }
}

/// The folder of a disk and a volume below a root. It is made when its first file is.
#[derive(Drop)]
pub(crate) struct Folder<R> {
    rt: R,
    root: String,
    disk: String,
    path: FolderPath,
}

impl<R: Files + AllocGlobal + Clone + Drop> Folder<R> {
    /// The folder of this disk and volume, below a root that is there.
    pub(crate) fn at(rt: R, root: &str, disk: u32, vid: u32) -> io::Result<Folder<R>> {
        let root = String::from_str(rt.alloc(), root)?;
        let disk = format!(in rt.alloc(); "{root}/disk-{disk}")?;
        let path = FolderPath::new(rt.alloc(), format!(in rt.alloc(); "{disk}/vol-{vid}")?)?;
        Ok(Folder {
            rt,
            root,
            disk,
            path,
        })
    }

    /// Opens a file that is there.
    pub(crate) fn open(&mut self, name: u64) -> io::Result<R::File> {
        let path = self.path.of_file(name)?;
        let mut how = OpenOptions::new();
        let _ = how.read(true).write(true);
        self.rt.open_file(&how, path)
    }

    /// Makes an empty file, and has the system settle its name.
    pub(crate) fn make(&mut self, name: u64) -> io::Result<R::File> {
        make_folder(&self.rt, &self.root, &self.disk)?;
        make_folder(&self.rt, &self.disk, self.path.folder.as_str())?;
        let path = self.path.of_file(name)?;
        let mut how = OpenOptions::new();
        let _ = how.read(true).write(true).create_new(true);
        let file = self.rt.open_file(&how, path)?;
        settle(&self.rt, self.path.folder.as_str())?;
        Ok(file)
    }

    /// Removes a file, and has the system settle that.
    pub(crate) fn remove(&mut self, name: u64) -> io::Result<()> {
        let path = self.path.of_file(name)?;
        self.rt.remove_file(path)?;
        settle(&self.rt, self.path.folder.as_str())
    }

    /// The names of the files, in no order; none where there is no folder.
    pub(crate) fn names(&mut self, alloc: Global) -> io::Result<Vec<u64>> {
        let mut names = Vec::new(alloc);
        let listing = match fs::read_dir(&self.rt, self.path.folder.as_str()) {
            Ok(listing) => listing,
            Err(error) if error.kind() == ErrorKind::NotFound => return Ok(names),
            Err(error) => return Err(error),
        };
        for entry in listing {
            let entry = entry?;
            names.push(number_of(entry.file_name())?)?;
        }
        Ok(names)
    }
}

/// The number that a file's name spells: a decimal one without a leading zero.
fn number_of(name: &str) -> io::Result<u64> {
    let is_plain = name == "0" || !name.starts_with('0');
    match name.parse::<u64>() {
        Ok(number) if is_plain && !name.starts_with('+') => Ok(number),
        _ => Err(io::Error::from(ErrorKind::InvalidData)),
    }
}

/// Has the system settle which names a folder has.
pub(crate) fn settle<R: Files>(rt: &R, path: &str) -> io::Result<()> {
    fs::open(rt, path)?.sync_all()
}

/// Makes a folder where it isn't there, and has the system settle its name in the folder above.
pub(crate) fn make_folder<R: Files>(rt: &R, above: &str, path: &str) -> io::Result<()> {
    match fs::create_dir(rt, path) {
        Ok(()) => settle(rt, above),
        Err(error) if error.kind() == ErrorKind::AlreadyExists => Ok(()),
        Err(error) => Err(error),
    }
}
