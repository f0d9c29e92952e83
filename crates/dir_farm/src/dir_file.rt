//! A file of a folder.

ghost use Rattle.std.specs.Prelude.{◌≡◌, ◌≤◌, ◌^◌, ◌-◌, length, false, Ok, IfOk};
ghost use Rattle.dir_farm.specs.DirFile.{Counts, CountsSync, file_view, is_file};

use disk_base::{Extent, Failed, NoMemory};
use std::fs::OpenFile;
use std::io::{self, ErrorKind};
use std::marker::Model;
use std::os::unix::fs::FileExt;

/// How often a file was called, and how often a call failed. Once a sync has failed the file is lost, and every later call
/// fails.
#[derive(Clone, Copy, Debug, PartialEq, Eq)]
pub struct FileCounts {
    pub calls: u64,
    pub faults: u64,
    pub is_lost: bool,
}

/// An open file of a folder. It tells nothing of its content, and is seen as what was counted of it.
///
/// Each call is one on the system, or a few where the system does a part of what it was asked. Systems are known that
/// drop what was written when a sync fails, so once a sync has failed every later call does.
#[derive(Drop)]
pub struct DirFile<F> {
    file: F,
    counts: FileCounts,
}

impl<F> Model for DirFile<F> {
    ghost use Rattle.dir_farm.specs.declared.dir_file.FileCounts.{FileCounts};

    ghost Value = { FileCounts };

    ghost view = { λ file. file.counts };
}

impl<F> DirFile<F> {
    /// A file that was just opened.
    pub fn new(file: F) -> DirFile<F>
        ensures { result ≡ record { calls = 0; faults = 0; is_lost = false } }
    {
        let counts = FileCounts {
            calls: 0,
            faults: 0,
            is_lost: false,
        };
        DirFile { file, counts }
    }

    /// What was counted of the file.
    pub fn counts(&self) -> FileCounts
        ensures { result ≡ self.now }
    {
        self.counts
    }
}

impl<F: FileExt + OpenFile + Drop> DirFile<F> {
    // Counts a call, with what came of it.
    fn count<T: Drop>(&mut self, outcome: io::Result<T>) -> Result<T, Failed>
        ensures counts { Counts self.old self.new result }
        ensures given { IfOk result (λ answer. outcome ≡ Ok answer) }
    {
        self.counts.calls = self.counts.calls.saturating_add(1);
        match outcome {
            Ok(answer) if !self.counts.is_lost => Ok(answer),
            _ => {
                self.counts.faults = self.counts.faults.saturating_add(1);
                Err(Failed)
            }
        }
    }
}

impl<F: FileExt + OpenFile + Drop> Extent for DirFile<F> {
    ghost seen = { λ file. file_view file };

    fn len(&mut self) -> Result<u64, Failed>
        ensures counts { Counts self.old self.new result }
    {
        let outcome = self.file.metadata();
        let metadata = self.count(outcome)?;
        Ok(metadata.len())
    }

    fn read_at(&mut self, at: u64, out: &mut [u8]) -> Result<usize, Failed>
        ensures counts { Counts self.old self.new result }
        ensures count { IfOk result (λ n. n ≤ length out.new) }
    {
        let outcome = read_full(&self.file, at, out);
        self.count(outcome)
    }

    fn grow(&mut self, end: u64) -> Result<(), NoMemory>
        ensures same { self.new ≡ self.old }
        ensures room { end ≤ 2 ^ 64 - 1 }
    {
        Ok(())
    }

    fn write_at(&mut self, at: u64, bytes: &[u8]) -> Result<(), Failed>
        ensures counts { Counts self.old self.new result }
    {
        let outcome = self.file.write_all_at(bytes, at);
        self.count(outcome)
    }

    fn sync(&mut self) -> Result<(), Failed>
        ensures counts { CountsSync self.old self.new result }
    {
        let outcome = self.file.sync_all();
        let result = self.count(outcome);
        if result.is_err() {
            self.counts.is_lost = true;
        }
        result
    }

    ghost is_file = { is_file };
}

// Reads until `out` is full or the file ends, and says how many bytes it read.
fn read_full<F: FileExt>(file: &F, at: u64, out: &mut [u8]) -> io::Result<usize>
    ensures { IfOk result (λ n. n ≤ length out.new) }
{
    let mut done = 0;
    for _ in 0..u64::MAX {
        if done >= out.len() {
            break;
        }
        match file.read_at(&mut out[done..], at.wrapping_add(done as u64)) {
            Ok(0) => break,
            Ok(count) => done += count,
            Err(error) if error.kind() == ErrorKind::Interrupted => {}
            Err(error) => return Err(error),
        }
    }
    Ok(done)
}
