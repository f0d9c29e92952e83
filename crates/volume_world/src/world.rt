//! One volume whole.

ghost use Rattle.std.specs.Prelude.{◌≡◌};
ghost use Rattle.volume_world.specs.Asking.{MayAsk};
ghost use Rattle.volume_world.specs.Course.{StepsBy};
ghost use Rattle.volume_world.specs.Way.{IsWay};
ghost use Rattle.volume_world.specs.WorldMaking.{CanMake, MakesWorld};
ghost use Rattle.volume_world.specs.WorldWay.{way_of, IsSameWorld, IsSure, IsWorld, Reserves};

use crate::parts::Parts;
use crate::{Event, MakeRefused, Port, Reply, StepFault, Trace};
use blob_node::Station;
use code_mode::Mode;
use disk_base::Shelf;
use std::alloc::Global;
use std::marker::Model;
use unit_id::Home;

/// No history has more entries than this before a step.
const LONGEST: usize = (1 << 32) - 3;

/// How many settles a step adds at most before its event.
const SLACK: usize = 2;

/// One volume: its units on stations, the manager's part over its log, its puts, what is planned for its messages and which of
/// them come late, its clock and its history.
///
/// It is seen as these. It is the first way to its volume: where its files tell what they hold, they stand for a state of the
/// protocol to which the history leads from the volume as it was made.
#[derive(Drop)]
pub struct World<H: Shelf> {
    parts: Parts<H>,
}

impl<H: Shelf> Model for World<H> {
    ghost use Rattle.volume_world.specs.World.{WorldOver};
    ghost use Rattle.blob_node.specs.Station.{coded_station};
    ghost use Rattle.std.specs.Coded.{codes};
    ghost use Rattle.volume_world.specs.WorldWay.{IsWorld};

    ghost Value = { WorldOver H H.File };

    ghost coded = { Prim.hlevel (codes, coded_station H.code H.File.code) };

    ghost view = { λ world. world.parts };

    ghost invariant = { λ world. IsWorld H.seen H.File.seen world.parts };
}

impl<H: Shelf> World<H> {
    /// Makes a volume of this number and mode on new stations of disks 1, 2 and so on, with a unit at each of these homes, and
    /// with its log in a new file.
    ///
    /// # Errors
    ///
    /// Each hands back the stations, with the units that were made until then, and the file. `Fault` comes only where a call
    /// on one of these failed. Where the shelves and the file tell what they hold, only `Fault` and `Memory` come; then the
    /// stations stand for the units of the first homes, and the file for a log with no record or with that of the making.
    pub fn make(
        alloc: Global,
        vid: u32,
        mode: Mode,
        stations: Vec<Station<H>>,
        file: H::File,
        homes: &[Home],
    ) -> Result<World<H>, MakeRefused<H>>
        requires { CanMake H.seen H.File.seen vid mode stations.items file homes.now }
        ensures { MakesWorld H.seen H.File.seen vid mode stations.items file homes.now result }
    {
        match Parts::make(alloc, vid, mode, stations, file, homes) {
            Ok(parts) => Ok(World { parts }),
            Err(refused) => Err(refused),
        }
    }

    /// The volume's mode.
    pub fn mode(&self) -> Mode
        ensures { result ≡ self.now.shape.mode }
    {
        self.parts.mode()
    }

    /// The volume's number.
    pub fn vid(&self) -> u32
        ensures { result ≡ self.now.vid }
    {
        self.parts.vid()
    }

    /// The history so far.
    pub fn history(&self) -> &[Trace]
        ensures { result.now ≡ self.now.history.entries }
    {
        self.parts.entries()
    }

    /// The stations by disk, the file of the manager's log, and the history. What always held of the world holds of these.
    pub fn into_parts(self) -> (Vec<Station<H>>, H::File, Vec<Trace>)
        ensures stations { result.0.items ≡ self.stations }
        ensures file { result.1 ≡ self.entry.book.log.file }
        ensures history { result.2.items ≡ self.history.entries }
        ensures world { IsWorld H.seen H.File.seen self }
    {
        self.parts.into_parts()
    }

    /// Makes room for so many entries of the history, besides those of the settles before the last of them. While fewer were
    /// added, a tick, a disk that breaks and a look at a volume whose log is started take no memory, and succeed.
    ///
    /// # Errors
    ///
    /// `HistoryFull` exactly where there would be more entries than 2^32 - 3. An error changes nothing that a way sees.
    pub fn reserve(&mut self, entries: usize) -> Result<(), StepFault>
        ensures same { IsSameWorld self.old self.new }
        ensures room { Reserves entries self.old self.new result }
    {
        if entries > LONGEST || self.parts.entry_count() > LONGEST - entries {
            return Err(StepFault::HistoryFull);
        }
        if self.parts.make_room(entries + SLACK).is_err() {
            return Err(StepFault::Memory);
        }
        Ok(())
    }

    /// Has one event happen. Before an event that needs the manager's log this is started where it was shut, and so is a shut
    /// chunk before its unit answers.
    ///
    /// # Errors
    ///
    /// `HistoryFull` exactly where the history has 2^32 - 3 entries or more; nothing is done then. After `Memory` the event
    /// isn't done, though logs may be started. Where there is room in the history for three entries, a tick, a disk that
    /// breaks and a look at a volume whose log is started take no memory.
    pub fn step(&mut self, event: Event) -> Result<Reply, StepFault>
        requires { MayAsk (way_of H.seen H.File.seen self.old) event }
        ensures steps { StepsBy (way_of H.seen H.File.seen self.old) (way_of H.seen H.File.seen self.new) event result }
        ensures sure { IsSure self.old event result }
    {
        if self.parts.entry_count() >= LONGEST {
            return Err(StepFault::HistoryFull);
        }
        self.parts.step(event)
    }
}

/// A world is the way to its own volume, by which nobody else steps it. Where its files tell what they hold, it stands for a
/// state of the protocol to which its history leads.
impl<H: Shelf> Port for World<H> {
    ghost seen = { way_of H.seen H.File.seen };

    fn step(&mut self, event: Event) -> Result<Reply, StepFault> {
        World::step(self, event)
    }

    fn mode(&self) -> Mode {
        World::mode(self)
    }

    fn vid(&self) -> u32 {
        World::vid(self)
    }

    fn is_way(&self) {
        let _ = &self.parts;
    }
}
