//! All units of one volume that one disk keeps.

ghost use Rattle.std.specs.Prelude.{◌≡◌, [], true, false, Option};
ghost use Rattle.std.specs.Option.{option_copied};
ghost use Rattle.unit_id.specs.UnitName.{IsName};
ghost use Rattle.unit_id.specs.Messages.{vid_of};
ghost use Rattle.blob_node.specs.Units.{Units};
ghost use Rattle.unit_id.specs.Place.{Place};
ghost use Rattle.blob_node.specs.Holding.{Written};
ghost use Rattle.blob_node.specs.HeldUnit.{name_of, is_create, disk_of, CarriesShard};
ghost use Rattle.blob_node.specs.UnitTable.{unit_at};
ghost use Rattle.blob_node.specs.Station.{IsWhole, IsUnused, StaysUnused, IsClear, HasNone, Stands, StationCall, Handled, Restarted, IsHandedBack, Created, CountsFault, faults_of, IsQuiet, Outlasts};

use crate::HeldUnit;
use crate::hand_back::hand_back;
use crate::held_unit::{refusal, unit_answer};
use crate::new_chunk::new_chunk;
use crate::settled::Settled;
use crate::starting::start_all;
use crate::unit_table::UnitTable;
use disk_base::{NoMemory, Shelf};
use std::alloc::Global;
use std::marker::Model;
use unit_id::{Answer, Request, UnitName};

/// The station of a volume on one disk: the units that were made there, each over a file of the disk's shelf.
///
/// It is seen as its shelf, the numbers of volume and disk, whether the disk is broken, and the units by the words
/// of their names. The file of a name is handed out exactly while a unit of that name stands here.
#[derive(Drop)]
pub struct Station<H: Shelf> {
    alloc: Global,
    shelf: H,
    disk: u32,
    is_broken: bool,
    units: UnitTable<H::File>,
}

impl<H: Shelf> Model for Station<H> {
    ghost use Rattle.blob_node.specs.Station.{StationOver, coded_station, AreOut};

    ghost Value = { StationOver H H.File };

    ghost coded = { coded_station H.code H.File.code };

    ghost view = { λ station. record {
      shelf = station.shelf;
      vid = station.units.vid;
      disk = station.disk;
      is_broken = station.is_broken;
      units = station.units.units;
    } };

    ghost invariant = { λ station. AreOut (H.seen station.shelf) station.units.units };
}

impl<H: Shelf> Station<H> {
    /// The station of a volume on a disk, with no unit, over a shelf with no file handed out. It takes no memory and
    /// makes no call on the shelf. Over a shelf that tells, on which no name of the volume has a file with records,
    /// it stands for nothing; where a crash leaves no records there, it leaves none under a name without a unit.
    pub fn make(alloc: Global, shelf: H, vid: u32, disk: u32) -> Station<H>
        requires { IsWhole (H.seen shelf) }
        ensures parts { result ≡ record { shelf = shelf; vid = vid; disk = disk; is_broken = false; units = [] } }
        ensures quiet { (H.seen shelf).is_quiet ≡ true → IsQuiet H.seen H.File.seen result }
        ensures clear { StaysUnused vid (H.seen shelf) → IsClear H.seen H.File.seen result }
        ensures told { (H.seen shelf).is_told ≡ true → IsUnused H.File.seen vid (H.seen shelf) → (written : Place → Written) (units : Units) → HasNone disk units → Stands H.seen H.File.seen result written units }
    {
        Station {
            alloc,
            shelf,
            disk,
            is_broken: false,
            units: UnitTable::new(alloc, vid),
        }
    }

    /// The unit of this name, if it was made here.
    pub fn unit(&self, name: UnitName) -> Option<&HeldUnit<H::File>>
        ensures { option_copied result ≡ unit_at self.now.units name }
    {
        self.units.get(name)
    }

    /// Whether the disk is broken.
    pub fn is_broken(&self) -> bool
        ensures { result ≡ self.now.is_broken }
    {
        self.is_broken
    }

    /// The number of the disk.
    pub fn disk(&self) -> u32
        ensures { result ≡ self.now.disk }
    {
        self.disk
    }

    /// The number of the volume.
    pub fn vid(&self) -> u32
        ensures { result ≡ self.now.vid }
    {
        self.units.vid()
    }

    /// Breaks the disk: from now on each request is answered `Broken`.
    pub fn break_down(&mut self)
        ensures { self.new ≡ record self.old { is_broken = true } }
    {
        self.is_broken = true;
    }

    /// Answers a request to a unit of this volume on this disk. A broken station answers `Broken`. A unit that was
    /// released here, or followed by one with a greater epoch, is stale. A shut chunk is started first, and then the
    /// first part of the result says whether its record in doubt was found; it is None where no chunk was started. A
    /// crash at any moment leaves each unit its records, and at most the unit that is asked one record more; a unit
    /// that is to be made has no file then, or one without records.
    ///
    /// # Errors
    ///
    /// For want of memory nothing more was done than that start.
    pub fn handle(&mut self, request: &Request) -> (Option<bool>, Result<Answer, NoMemory>)
        requires vid { vid_of request.now ≡ self.old.vid }
        requires disk { disk_of request.now ≡ self.old.disk }
        requires sizes { CarriesShard request.now }
        ensures call { StationCall H.seen H.File.seen self.old self.new result.1 }
        ensures told { Handled H.seen H.File.seen request.now result.0 result.1 self.old self.new }
        ensures lasts { Outlasts H.seen H.File.seen self.old self.new }
    {
        if self.is_broken {
            return (None, Ok(Answer::Broken));
        }
        let unit = unit_of(request);
        let have = self.units.greatest(unit.index);
        if self.units.is_stale(unit) {
            return (None, Ok(Answer::Stale { have }));
        }
        if is_create(request) {
            return (None, self.create(unit));
        }
        if !self.units.has(unit) {
            return (None, Ok(Answer::NoUnit));
        }
        self.units.serve(unit, request, have)
    }

    /// Starts the chunk of each unit, open or shut, in the order of the words of their names, and settles every record
    /// in doubt. The first part of the result tells of each whether it was found. The second is `Done` where all
    /// chunks started, and else names why the first that didn't gave up: the restart ends at it, and the chunks behind
    /// it stay as they were. A crash at any moment leaves each file its records, without the one in doubt or with it. A
    /// broken station starts nothing and answers `Done`.
    ///
    /// # Errors
    ///
    /// For want of memory the restart ends too: what is told until then is settled, and every other record that was
    /// in doubt stays so.
    pub fn restart(&mut self) -> (Vec<Settled>, Result<Answer, NoMemory>)
        ensures call { StationCall H.seen H.File.seen self.old self.new result.1 }
        ensures told { Restarted H.seen H.File.seen result.0.items result.1 self.old self.new }
        ensures lasts { Outlasts H.seen H.File.seen self.old self.new }
    {
        let mut settled = Vec::new(self.alloc);
        if self.is_broken {
            return (settled, Ok(Answer::Done));
        }
        let answer = unit_answer(start_all(self.alloc, &mut self.units, &mut settled));
        (settled, answer)
    }

    /// The shelf, with the file of each unit back on it. It takes no memory and is no call on the shelf.
    pub fn into_shelf(self) -> H
        ensures { IsHandedBack H.seen H.File.seen self result }
    {
        hand_back(self.shelf, self.units.into_units())
    }

    // Makes a unit that isn't stale.
    fn create(&mut self, unit: UnitName) -> Result<Answer, NoMemory>
        requires name { IsName unit }
        requires vid { unit.vid ≡ self.old.vid }
        ensures call { StationCall H.seen H.File.seen self.old self.new result }
        ensures told { Created H.seen H.File.seen unit result self.old self.new }
        ensures lasts { Outlasts H.seen H.File.seen self.old self.new }
    {
        if self.units.has(unit) {
            return Ok(Answer::Already);
        }
        self.units.reserve()?;
        match new_chunk(self.alloc, &mut self.shelf, unit) {
            Ok(chunk) => {
                self.units.add(HeldUnit::over(chunk));
                Ok(Answer::Done)
            }
            Err(fault) => refusal(fault),
        }
    }
}

// The unit that is asked.
fn unit_of(request: &Request) -> UnitName
    ensures { result ≡ name_of request.now }
{
    match request {
        Request::Create { unit, .. }
        | Request::Fence { unit, .. }
        | Request::Put { unit, .. }
        | Request::Read { unit, .. }
        | Request::List { unit, .. }
        | Request::Copy { unit, .. }
        | Request::Mark { unit, .. }
        | Request::Free { unit, .. }
        | Request::Release { unit, .. } => *unit,
    }
}

fn is_create(request: &Request) -> bool
    ensures { result ≡ is_create request.now }
{
    matches!(request, Request::Create { .. })
}
