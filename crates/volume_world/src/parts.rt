//! The parts of one volume in memory and files.

ghost use Rattle.std.specs.Prelude.{◌≡◌, ◌≤◌, length, OnOk, IsOk};
ghost use Rattle.volume_world.specs.History.{IsNoted};

use crate::history::History;
use crate::late::LateQueue;
use crate::puts::PutBook;
use crate::stations::Stations;
use crate::{Trace, TraceEvent, TraceReply};
use blob_node::{Link, Station};
use code_mode::Mode;
use disk_base::{NoMemory, Shelf};
use std::marker::Model;
use volume_entry::{Entry, Shape, UnitHome};

/// One volume: its stations by disk, the manager's part, its puts, what is planned for its messages and which of them come
/// late, the clock, and the history.
///
/// It is seen as these. `IsSound` says what always holds of them, and `IsAt` in which states the volume may be.
#[derive(Drop)]
pub(crate) struct Parts<H: Shelf> {
    pub(crate) shape: Shape,
    pub(crate) first: Vec<UnitHome>,
    pub(crate) stations: Stations<H>,
    pub(crate) entry: Entry<H::File>,
    pub(crate) puts: PutBook,
    pub(crate) link: Link,
    pub(crate) late: LateQueue,
    pub(crate) time: u64,
    pub(crate) history: History,
}

impl<H: Shelf> Model for Parts<H> {
    ghost use Rattle.volume_world.specs.World.{WorldOver};
    ghost use Rattle.blob_node.specs.Station.{coded_station};
    ghost use Rattle.std.specs.Coded.{codes};
    ghost use Rattle.std.specs.Coded.{codes};
    ghost use Rattle.blob_node.specs.Station.{coded_station};
    ghost use Rattle.std.specs.Coded.{codes};
    ghost use Rattle.blob_node.specs.Station.{coded_station};

    ghost Value = { WorldOver H H.File };

    ghost coded = { Prim.hlevel (codes, coded_station H.code H.File.code) };

    ghost view = { λ parts. record {
      vid = parts.stations.vid;
      shape = parts.shape;
      first = parts.first.items;
      stations = parts.stations.stations;
      entry = parts.entry;
      puts = parts.puts;
      planned = parts.link;
      late = parts.late;
      time = parts.time;
      history = parts.history;
    } };
}

impl<H: Shelf> Parts<H> {
    /// Adds an entry to the history, for which there is room. Takes no memory.
    pub(crate) fn note(&mut self, event: TraceEvent, reply: TraceReply)
        requires { 1 ≤ self.old.history.spare }
        ensures noted { IsNoted (record { event = event; reply = reply }) self.old.history self.new.history }
        ensures rest { self.new ≡ record self.old { history = self.new.history } }
    {
        self.history.note(event, reply);
    }

    /// Makes room in the history for so many entries more. Where there is room already it takes no memory.
    pub(crate) fn make_room(&mut self, count: usize) -> Result<(), NoMemory>
        ensures rest { self.new ≡ record self.old { history = self.new.history } }
        ensures same { self.new.history.entries ≡ self.old.history.entries }
        ensures kept { self.old.history.spare ≤ self.new.history.spare }
        ensures room { OnOk result (count ≤ self.new.history.spare) }
        ensures succeeds { count ≤ self.old.history.spare → IsOk result }
    {
        self.history.reserve(count)
    }

    /// The volume's mode.
    pub(crate) fn mode(&self) -> Mode
        ensures { result ≡ self.now.shape.mode }
    {
        self.shape.mode
    }

    /// The volume's number.
    pub(crate) fn vid(&self) -> u32
        ensures { result ≡ self.now.vid }
    {
        self.stations.vid()
    }

    /// The entries of the history.
    pub(crate) fn entries(&self) -> &[Trace]
        ensures { result.now ≡ self.now.history.entries }
    {
        self.history.as_slice()
    }

    /// The stations by disk, the file of the manager's log, and the history.
    pub(crate) fn into_parts(self) -> (Vec<Station<H>>, H::File, Vec<Trace>)
        ensures stations { result.0.items ≡ self.stations }
        ensures file { result.1 ≡ self.entry.book.log.file }
        ensures history { result.2.items ≡ self.history.entries }
    {
        let (_, stations) = self.stations.into_parts();
        (
            stations,
            self.entry.into_file(),
            self.history.into_entries(),
        )
    }

    /// How many entries the history has.
    pub(crate) fn entry_count(&self) -> usize
        ensures { result ≡ length self.now.history.entries }
    {
        self.history.len()
    }
}
