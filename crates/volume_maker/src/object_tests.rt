//! An object goes through a volume that was made over a farm, in memory and in real folders.

ghost use Rattle.std.specs.Prelude.{◌≡◌, ℕ, IfOk, false};
ghost use Rattle.rs_code.specs.Shape.{shape};
ghost use Rattle.blob_access.specs.Coding.{coder_shape};
ghost use Rattle.farm_volume.specs.Making.{IsFresh};

use crate::make_volume;
use crate::tests::tables;
use code_mode::Mode;
use dir_farm::DirFarm;
use disk_base::{Farm, MemFarm};
use object_access::{get_object, put_object};
use rs_code::{CodeFault, Coder};
use std::alloc::{AllocError, Global};
use std::test::Fail;
use std::{env, fs, io, process};
use volume_world::Port;

/// A coder of the mode's shape.
fn coder_of(alloc: Global, mode: Mode) -> Result<Coder, AllocError>
    ensures { IfOk result (λ coder. shape coder ≡ coder_shape mode) }
{
    match Coder::new(alloc, mode.n() as usize, mode.m() as usize, 4) {
        Ok(coder) => Ok(coder),
        Err(CodeFault::Memory) => Err(AllocError),
        Err(CodeFault::BadShape) => unreachable!(),
        Err(CodeFault::TooFew { have: _ }) => unreachable!(),
    }
}

/// Puts an object of five bytes.
fn put_five<P: Port>(alloc: Global, port: &mut P) -> Option<()> {
    let mut coder = coder_of(alloc, port.mode()).ok()?;
    put_object(alloc, port, &mut coder, 1, b"hello").ok()
}

/// Gets it.
fn get_five<P: Port>(alloc: Global, port: &mut P) -> Option<bool> {
    let mut coder = coder_of(alloc, port.mode()).ok()?;
    let bytes = get_object(alloc, port, &mut coder, 1, 5).ok()?;
    Some(bytes.as_slice() == b"hello".as_slice())
}

/// Makes a volume of six units over a farm without files, puts an object and gets it. Whether the bytes were those of the put.
fn goes_through<F: Farm>(alloc: Global, farm: &mut F) -> Option<bool>
    requires back { (disk vid : ℕ) → (F.seen farm.old).is_out disk vid ≡ false }
    requires fresh { (disk vid : ℕ) → IsFresh F.Disk.seen ((F.seen farm.old).place disk vid) }
{
    let mut admin = tables(alloc, 8).ok()?;
    let mut volume = make_volume(alloc, &mut admin, farm, Mode::Ec3P3).ok()?;
    put_five(alloc, &mut volume)?;
    get_five(alloc, &mut volume)
}

#[test]
fn an_object_goes_through_memory(rt: HostRuntime) -> Result<(), Fail> {
    let alloc = rt.alloc();
    let mut farm = MemFarm::new(alloc, Vec::new(alloc));
    assert_eq!(rt; goes_through(alloc, &mut farm), Some(true));
    Ok(())
}

/// A root of this process, below the system's folder for such files.
fn root_of(rt: &HostRuntime) -> io::Result<String> {
    let folder = env::temp_dir(rt)?;
    let id = process::id(rt.process());
    let path = folder.as_str();
    Ok(format!(in rt.alloc(); "{path}/blobstore-volume-{id}")?)
}

/// The first of a volume's files that isn't a root's, or is empty: the log's on disk 0, and the unit of each index on the
/// disk of the next number.
fn first_missing(rt: &HostRuntime, root: &str) -> io::Result<Option<u64>> {
    let names = [
        (0u32, 1u64),
        (1, 0x1_0000_0001),
        (2, 0x1_0100_0001),
        (3, 0x1_0200_0001),
        (4, 0x1_0300_0001),
        (5, 0x1_0400_0001),
        (6, 0x1_0500_0001),
    ];
    for (disk, name) in names {
        let path = format!(in rt.alloc(); "{root}/disk-{disk}/vol-1/{name}")?;
        if fs::metadata(rt, path.as_str())?.len() == 0 {
            return Ok(Some(name));
        }
    }
    Ok(None)
}

#[test]
fn an_object_goes_through_folders(rt: HostRuntime) -> Result<(), Fail> {
    let root = root_of(&rt)?;
    let mut farm = DirFarm::new(rt.clone()?);
    assert!(rt; matches!(farm.root(root.as_str()), Ok(false)));
    assert_eq!(rt; goes_through(rt.alloc(), &mut farm), Some(true));
    assert_eq!(rt; first_missing(&rt, root.as_str())?, None);
    fs::remove_dir_all(&rt, root.as_str())?;
    Ok(())
}
