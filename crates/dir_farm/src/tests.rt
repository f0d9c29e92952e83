//! Real folders, and a file whose calls fail.

use crate::{DirFarm, DirFile};
use disk_base::{Extent, Failed, Farm, FarmFault, Shelf, ShelfFault};
use std::fs::{self, Metadata, OpenFile};
use std::io::{self, ErrorKind};
use std::os::unix::fs::FileExt;
use std::test::Fail;
use std::{env, process};

/// A root of this process, below the system's folder for such files.
fn root_of(rt: &HostRuntime, name: &str) -> io::Result<String> {
    let folder = env::temp_dir(rt)?;
    let id = process::id(rt.process());
    let path = folder.as_str();
    Ok(format!(in rt.alloc(); "{path}/blobstore-{name}-{id}")?)
}

/// Writes these bytes as a file, and has the system settle them.
fn write<F: FileExt + OpenFile + Drop>(file: &mut DirFile<F>, bytes: &[u8]) -> Result<(), Failed> {
    file.write_at(0, bytes)?;
    file.sync()
}

#[test]
fn a_file_comes_back_by_its_name(rt: HostRuntime) -> Result<(), Fail> {
    let root = root_of(&rt, "names")?;
    let mut farm = DirFarm::new(rt.clone()?);
    assert!(rt; matches!(farm.root(root.as_str()), Ok(false)));
    let Ok(mut shelf) = farm.shelf(1, 7) else {
        panic!(rt; "no shelf");
    };
    let Ok(mut file) = shelf.make(rt.alloc(), 5) else {
        panic!(rt; "no file");
    };
    assert!(rt; write(&mut file, b"abc").is_ok());
    shelf.hold(5, file);
    assert!(rt; matches!(shelf.make(rt.alloc(), 5), Err(ShelfFault::Exists)));
    let path = format!(in rt.alloc(); "{root}/disk-1/vol-7/5")?;
    assert_eq!(rt; fs::read_to_string(&rt, path.as_str())?.as_str(), "abc");
    fs::remove_dir_all(&rt, root.as_str())?;
    Ok(())
}

#[test]
fn a_root_with_items_is_not_empty(rt: HostRuntime) -> Result<(), Fail> {
    let root = root_of(&rt, "items")?;
    fs::create_dir(&rt, root.as_str())?;
    let item = format!(in rt.alloc(); "{root}/item")?;
    fs::write(&rt, item.as_str(), "")?;
    let mut farm = DirFarm::new(rt.clone()?);
    assert!(rt; matches!(farm.root(root.as_str()), Err(FarmFault::NotEmpty)));
    fs::remove_dir_all(&rt, root.as_str())?;
    Ok(())
}

#[test]
fn a_root_with_the_admins_file_is_kept(rt: HostRuntime) -> Result<(), Fail> {
    let root = root_of(&rt, "kept")?;
    let mut farm = DirFarm::new(rt.clone()?);
    assert!(rt; matches!(farm.root(root.as_str()), Ok(false)));
    let Ok(mut shelf) = farm.shelf(0, 0) else {
        panic!(rt; "no shelf");
    };
    assert!(rt; shelf.make(rt.alloc(), 1).is_ok());
    let mut again = DirFarm::new(rt.clone()?);
    assert!(rt; matches!(again.root(root.as_str()), Ok(true)));
    fs::remove_dir_all(&rt, root.as_str())?;
    Ok(())
}

#[test]
fn names_are_listed_and_removed(rt: HostRuntime) -> Result<(), Fail> {
    let root = root_of(&rt, "lists")?;
    fs::create_dir_all(&rt, format!(in rt.alloc(); "{root}/disk-2/vol-3")?.as_str())?;
    for name in ["10", "9"] {
        fs::write(
            &rt,
            format!(in rt.alloc(); "{root}/disk-2/vol-3/{name}")?.as_str(),
            "x",
        )?;
    }
    let mut farm = DirFarm::new(rt.clone()?);
    assert!(rt; matches!(farm.root(root.as_str()), Err(FarmFault::NotEmpty)));
    let Ok(mut shelf) = farm.shelf(2, 3) else {
        panic!(rt; "no shelf");
    };
    let Ok(names) = shelf.names(rt.alloc()) else {
        panic!(rt; "no names");
    };
    assert_eq!(rt; names.as_slice(), [9u64, 10].as_slice());
    fs::remove_dir_all(&rt, root.as_str())?;
    Ok(())
}

/// A file whose syncs fail.
#[derive(Drop)]
struct Unsettled;

impl FileExt for Unsettled {
    fn read_at(&self, _out: &mut [u8], _at: u64) -> io::Result<usize> {
        Ok(0)
    }

    fn write_at(&self, bytes: &[u8], _at: u64) -> io::Result<usize> {
        Ok(bytes.len())
    }
}

impl OpenFile for Unsettled {
    fn metadata(&self) -> io::Result<Metadata> {
        Ok(Metadata::of_file(0))
    }

    fn set_len(&self, _size: u64) -> io::Result<()> {
        Ok(())
    }

    fn sync_all(&self) -> io::Result<()> {
        Err(io::Error::from(ErrorKind::StorageFull))
    }

    fn sync_data(&self) -> io::Result<()> {
        Err(io::Error::from(ErrorKind::StorageFull))
    }
}

#[test]
fn a_failed_sync_loses_the_file(rt: HostRuntime) -> Result<(), Fail> {
    let mut file = DirFile::new(Unsettled);
    assert!(rt; file.write_at(0, b"ab").is_ok());
    assert!(rt; file.len().is_ok());
    assert!(rt; file.sync().is_err());
    assert!(rt; file.write_at(0, b"ab").is_err());
    assert!(rt; file.len().is_err());
    assert_eq!(rt; file.counts().faults, 3);
    assert_eq!(rt; file.counts().calls, 5);
    Ok(())
}
