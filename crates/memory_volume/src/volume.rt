//! A volume over files in memory.

ghost use Rattle.std.specs.Prelude.{◌≡◌, IfOk};
ghost use Rattle.rs_code.specs.Shape.{shape};
ghost use Rattle.blob_access.specs.Coding.{coder_shape};
ghost use Rattle.volume_entry.specs.TableParts.{Tells};
ghost use Rattle.volume_world.specs.WorldWay.{IsSameWorld, Reserves};
ghost use Rattle.memory_volume.specs.Calls.{MayBeAsked, Asks, PutsBlob, GetsBlob, AdvancesTask, SweepsBlob};
ghost use Rattle.memory_volume.specs.Making.{Checks, Makes};

use crate::first_homes::homes;
use crate::fitting::{carries_shard, fits_event, fits_task, is_bid, is_blob, size_of};
use crate::setup::{VID, log_file, stations};
use crate::{MakeFault, Setup};
use blob_access::{Acked, GetFault, PutFault, get, put};
use blob_delete::{DeleteFault, Swept, sweep};
use blob_node::Station;
use code_mode::{Mode, Payload};
use disk_base::{MemFile, MemShelf};
use migrate_task::{Stage, TaskFault, advance};
use rs_code::{CodeFault, Coder};
use std::alloc::{AllocError, Global};
use std::marker::Model;
use unit_id::{Bytes, Task};
use volume_entry::Shape;
use volume_world::{Event, Reply, StepFault, Trace, World};

/// No epoch is greater.
const LAST_EPOCH: u32 = 16_777_215;

/// No volume has more disks.
const MOST_DISKS: u32 = 64;

/// How many rows the coder keeps.
const CACHED: usize = 16;

/// A volume over files in memory.
#[derive(Drop)]
pub struct MemoryVolume {
    alloc: Global,
    world: World<MemShelf>,
    coder: Coder,
    disks: u32,
    tells: bool,
}

impl Model for MemoryVolume {
    ghost use Rattle.std.specs.Coded.{codes};
    ghost use Rattle.disk_base.specs.Images.{FileState};
    ghost use Rattle.disk_base.specs.Racks.{ShelfState};
    ghost use Rattle.blob_node.specs.Station.{coded_station};
    ghost use Rattle.memory_volume.specs.MemoryVolume.{MemoryState, IsTied};

    ghost Value = { MemoryState };

    ghost coded = { Prim.hlevel (codes, coded_station {H = ShelfState} {F = FileState} (Prim.hlevel codes) (Prim.hlevel codes)) };

    ghost view = { λ volume. record { world = volume.world; coder = volume.coder; tells = volume.tells } };

    ghost invariant = { λ volume. IsTied volume.world volume.coder volume.disks volume.tells };
}

/// Refuses too few and too many disks, and an epoch that no unit has.
fn check(mode: Mode, disks: u32, first: u32) -> Result<(), MakeFault>
    ensures { Checks mode disks first result }
{
    let need = mode.total();
    if disks < need || disks > MOST_DISKS {
        return Err(MakeFault::Disks { have: disks, need });
    }
    if first < 1 || first > LAST_EPOCH {
        return Err(MakeFault::Epoch { epoch: first });
    }
    Ok(())
}

/// A coder of the mode's shape.
fn coder_of(alloc: Global, mode: Mode) -> Result<Coder, AllocError>
    ensures { IfOk result (λ coder. shape coder ≡ coder_shape mode) }
{
    match Coder::new(alloc, mode.n() as usize, mode.m() as usize, CACHED) {
        Ok(coder) => Ok(coder),
        Err(CodeFault::Memory) => Err(AllocError),
        Err(CodeFault::BadShape) => unreachable!(),
        Err(CodeFault::TooFew { have: _ }) => unreachable!(),
    }
}

impl MemoryVolume {
    /// Makes volume 1 of a mode on so many disks, with the unit of each index on the disk of the next number.
    ///
    /// # Errors
    ///
    /// `Disks` exactly where there are fewer disks than the mode has units, or more than 64; then `Epoch` exactly where the
    /// first unit's isn't 1 to 16,777,215.
    pub fn make(
        alloc: Global,
        mode: Mode,
        disks: u32,
        setup: Setup,
    ) -> Result<MemoryVolume, MakeFault>
        ensures { Makes mode disks setup.first_epoch setup.tells result }
    {
        check(mode, disks, setup.first_epoch)?;
        let coder = coder_of(alloc, mode)?;
        let stations = stations(alloc, &setup, disks)?;
        let homes = homes(mode.total() as u8, setup.first_epoch);
        let Setup {
            tells,
            log_fails,
            ..
        } = setup;
        let file = log_file(alloc, tells, log_fails);
        match World::make(alloc, VID, mode, stations, file, homes.as_slice()) {
            Ok(world) => Ok(MemoryVolume {
                alloc,
                world,
                coder,
                disks,
                tells,
            }),
            Err(refused) => Err(MakeFault::World(refused.fault)),
        }
    }

    /// The volume's mode.
    pub fn mode(&self) -> Mode
        ensures { result ≡ self.now.world.shape.mode }
    {
        self.world.mode()
    }

    /// On how many disks the volume stands.
    pub fn disks(&self) -> u32
        ensures { result ≡ self.now.world.shape.disks }
    {
        self.disks
    }

    /// The history so far.
    pub fn history(&self) -> &[Trace]
        ensures { result.now ≡ self.now.world.history.entries }
    {
        self.world.history()
    }

    /// The stations by disk, the file of the manager's log, and the history.
    pub fn into_parts(self) -> (Vec<Station<MemShelf>>, MemFile, Vec<Trace>)
        ensures stations { result.0.items ≡ self.world.stations }
        ensures file { result.1 ≡ self.world.entry.book.log.file }
        ensures history { result.2.items ≡ self.world.history.entries }
    {
        self.world.into_parts()
    }

    /// Makes room for so many entries of the history, as `World::reserve` does.
    ///
    /// # Errors
    ///
    /// `HistoryFull` exactly where there would be more entries than 2^32 - 3. An error changes nothing that a way sees.
    pub fn reserve(&mut self, entries: usize) -> Result<(), StepFault>
        ensures same { IsSameWorld self.old.world self.new.world }
        ensures room { Reserves entries self.old.world self.new.world result }
    {
        self.world.reserve(entries)
    }

    /// The mode and the number of disks.
    fn shape(&self) -> Shape
        ensures shape { result ≡ self.now.world.shape }
        ensures number { self.now.world.vid ≡ 1 }
    {
        Shape {
            mode: self.world.mode(),
            disks: self.disks,
        }
    }

    /// Whether an event fits the volume, and carries no shard where the files tell.
    fn may_ask(&self, event: &Event) -> bool
        ensures { Tells result (MayBeAsked self.now event.now) }
    {
        if self.tells && carries_shard(event) {
            return false;
        }
        fits_event(self.shape(), event)
    }

    /// Has one event happen, and gives its reply. None of an event that doesn't fit the volume, and of a put or a copy by
    /// hand where the files tell; nothing changes then.
    pub fn ask(&mut self, event: Event) -> Option<Result<Reply, StepFault>>
        ensures { Asks self.old self.new event result }
    {
        if !self.may_ask(&event) {
            return None;
        }
        Some(self.world.step(event))
    }

    /// Puts a blob under a number. None where the number isn't 1 to 2^62 or the blob hasn't 1 to `BLOB_LIMIT` bytes; nothing
    /// changes then.
    pub fn put(&mut self, bid: u64, payload: Payload) -> Option<Result<Acked, PutFault>>
        ensures { PutsBlob self.old self.new bid payload result }
    {
        if !is_blob(bid, size_of(&payload)) {
            return None;
        }
        Some(put(self.alloc, &mut self.world, &mut self.coder, bid, payload))
    }

    /// Gets a blob of so many bytes. None where the number isn't 1 to 2^62 or the size 1 to `BLOB_LIMIT`; nothing changes
    /// then.
    pub fn get(&mut self, bid: u64, size: u32) -> Option<Result<Bytes, GetFault>>
        ensures { GetsBlob self.old self.new bid size result }
    {
        if !is_blob(bid, size as usize) {
            return None;
        }
        Some(get(self.alloc, &mut self.world, &mut self.coder, bid, size))
    }

    /// Takes a task as far as it goes in one call. None where the task isn't one of this volume; nothing changes then.
    pub fn advance(&mut self, task: &Task) -> Option<Result<Stage, TaskFault>>
        ensures { AdvancesTask self.old self.new task.now result }
    {
        if !fits_task(self.shape(), task) {
            return None;
        }
        Some(advance(self.alloc, &mut self.world, &mut self.coder, task))
    }

    /// Sweeps a blob. None where the number isn't 1 to 2^62; nothing changes then.
    pub fn sweep(&mut self, bid: u64) -> Option<Result<Swept, DeleteFault>>
        ensures { SweepsBlob self.old self.new bid result }
    {
        if !is_bid(bid) {
            return None;
        }
        Some(sweep(self.alloc, &mut self.world, bid))
    }
}
