//! Runs over roots that are empty, that fail, and that have files.

use crate::runs::{Numbers, run_over};
use disk_base::{Farm, MemFarm, MemShelf, MemSink, MemSource, Shelf, Source};
use std::alloc::{AllocError, Global};
use std::test::Fail;

/// The script of these runs.
const SCRIPT: &[u8] = b"disks 9\n";

/// The numbers of a run over a farm, with the word `root`.
fn numbers_over(
    alloc: Global,
    source: &mut MemSource,
    sink: &mut MemSink,
    farm: &mut MemFarm,
) -> Result<Numbers, AllocError> {
    let words = vec![in alloc; String::from_str(alloc, "root")?]?;
    Ok(run_over(alloc, &words, source, sink, farm))
}

/// How many bytes a source still has, up to 8.
fn left_in(source: &mut MemSource) -> usize {
    source.pull(&mut [0; 8]).unwrap_or(99)
}

/// Whether a run of the script over this farm comes to this status and so many lines, writes so many bytes, and
/// leaves so many of the script.
fn comes_to(
    alloc: Global,
    farm: &mut MemFarm,
    want: (u8, u64, usize, usize),
) -> Result<bool, AllocError> {
    let bytes = SCRIPT.to_vec(alloc)?;
    let mut source = MemSource::new(alloc, bytes, Vec::new(alloc));
    let Ok(mut sink) = MemSink::new(alloc, 8, Vec::new(alloc)) else {
        return Err(AllocError);
    };
    let came = numbers_over(alloc, &mut source, &mut sink, farm)?;
    Ok((came.0, came.1, sink.as_slice().len(), left_in(&mut source)) == want)
}

/// Makes a file of this name on a shelf.
fn add_file(shelf: &mut MemShelf, alloc: Global, name: u64) {
    if let Ok(file) = shelf.make(alloc, name) {
        shelf.hold(name, file);
    }
}

/// Makes a file of this name on the shelf of this disk and volume.
fn add_to_farm(farm: &mut MemFarm, alloc: Global, disk: u32, vid: u32, name: u64) {
    if farm.is_out(disk, vid) {
        return;
    }
    if let Ok(mut shelf) = farm.shelf(disk, vid) {
        add_file(&mut shelf, alloc, name);
        farm.hold(disk, vid, shelf);
    }
}

/// Whether a run whose farm fails at calls of these numbers comes to this.
fn fails_so(
    alloc: Global,
    fails: &[u64],
    want: (u8, u64, usize, usize),
) -> Result<bool, AllocError> {
    let fails = fails.to_vec(alloc)?;
    comes_to(alloc, &mut MemFarm::new(alloc, fails), want)
}

#[test]
fn a_root_is_asked_for_first(rt: HostRuntime) -> Result<(), Fail> {
    assert!(rt; fails_so(rt.alloc(), &[0], (0, 1, 8, 0))?);
    assert!(rt; fails_so(rt.alloc(), &[1], (6, 0, 0, 8))?);
    assert!(rt; fails_so(rt.alloc(), &[2], (0, 1, 8, 0))?);
    Ok(())
}

/// Whether a run over a farm with one file is refused, with nothing read or written.
fn is_refused(alloc: Global, disk: u32, vid: u32, name: u64) -> Result<bool, AllocError> {
    let mut farm = MemFarm::new(alloc, Vec::new(alloc));
    add_to_farm(&mut farm, alloc, disk, vid, name);
    comes_to(alloc, &mut farm, (7, 0, 0, 8))
}

#[test]
fn a_root_with_a_file_is_not_empty(rt: HostRuntime) -> Result<(), Fail> {
    assert!(rt; is_refused(rt.alloc(), 2, 3, 5)?);
    assert!(rt; is_refused(rt.alloc(), 0, 0, 1)?);
    Ok(())
}
