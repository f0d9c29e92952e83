//! The stations of a volume, one for each of its disks.

ghost use Rattle.std.specs.Prelude.{◌≡◌, ◌≤◌, length};
ghost use Rattle.unit_id.specs.Messages.{vid_of};
ghost use Rattle.blob_node.specs.HeldUnit.{name_of, disk_of, CarriesShard};
ghost use Rattle.volume_world.specs.Stations.{AreStations, HasDisk, is_broken_on, StationsCall, Handled, TellsDoubt, BreaksDown, Restarted, AllOutlast};

use blob_node::{Settled, Station};
use disk_base::{NoMemory, Shelf};
use std::marker::Model;
use unit_id::{Answer, Request, UnitName};

/// The stations of a volume on its disks, which are numbered from 1.
///
/// It is seen as the volume's number and the list of its stations.
#[derive(Drop)]
pub(crate) struct Stations<H: Shelf> {
    vid: u32,
    kept: Vec<Station<H>>,
}

impl<H: Shelf> Model for Stations<H> {
    ghost use Rattle.volume_world.specs.Stations.{StationsOver, coded_stations, AreStations};

    ghost Value = { StationsOver H H.File };

    ghost coded = { coded_stations H.code H.File.code };

    ghost view = { λ all. record { vid = all.vid; stations = all.kept.items } };

    ghost invariant = { λ all. AreStations all.vid all.kept.items };
}

impl<H: Shelf> Stations<H> {
    /// These stations, each on the disk that its place says.
    pub(crate) fn over(vid: u32, kept: Vec<Station<H>>) -> Stations<H>
        requires { AreStations vid kept.items }
        ensures { result ≡ record { vid = vid; stations = kept.items } }
    {
        Stations { vid, kept }
    }

    /// The number of the volume, and its stations by disk.
    pub(crate) fn into_parts(self) -> (u32, Vec<Station<H>>)
        ensures vid { result.0 ≡ self.vid }
        ensures stations { result.1.items ≡ self.stations }
        ensures are { AreStations self.vid self.stations }
    {
        (self.vid, self.kept)
    }

    /// The number of the volume.
    pub(crate) fn vid(&self) -> u32
        ensures { result ≡ self.now.vid }
    {
        self.vid
    }

    /// How many there are.
    pub(crate) fn count(&self) -> u32
        ensures { result ≡ length self.now.stations }
    {
        self.kept.len() as u32
    }

    /// Whether this disk is broken.
    pub(crate) fn is_broken(&self, disk: u32) -> bool
        requires { HasDisk self.now.stations disk }
        ensures { result ≡ is_broken_on self.now.stations disk }
    {
        self.kept[disk as usize - 1].is_broken()
    }

    /// Whether the unit that is asked stands on its disk with a record in doubt. A broken disk keeps its doubts.
    pub(crate) fn is_in_doubt(&self, request: &Request) -> bool
        requires vid { vid_of request.now ≡ self.now.vid }
        requires disk { HasDisk self.now.stations (disk_of request.now) }
        ensures { TellsDoubt H.seen H.File.seen request.now self.now.stations result }
    {
        let place = disk_of(request) as usize - 1;
        let name = unit_of(request);
        prove!(name.vid == self.vid);
        match self.kept[place].unit(name) {
            Some(unit) => unit.is_in_doubt(),
            None => false,
        }
    }

    /// Answers a request by the station of its disk, as `Station::handle` does. The other stations stand for what they
    /// stood for. A broken disk starts nothing.
    ///
    /// # Errors
    ///
    /// For want of memory nothing more was done than that a shut chunk may be started.
    pub(crate) fn handle(&mut self, request: &Request) -> (Option<bool>, Result<Answer, NoMemory>)
        requires vid { vid_of request.now ≡ self.old.vid }
        requires disk { HasDisk self.old.stations (disk_of request.now) }
        requires sizes { CarriesShard request.now }
        ensures call { StationsCall H.seen H.File.seen self.old self.new result.1 }
        ensures told { Handled H.seen H.File.seen request.now result.0 result.1 self.old.stations self.new.stations }
        ensures lasts { AllOutlast H.seen H.File.seen self.old.stations self.new.stations }
    {
        let place = disk_of(request) as usize - 1;
        if self.kept[place].is_broken() {
            return (None, Ok(Answer::Broken));
        }
        let station = &mut self.kept[place];
        station.handle(request)
    }

    /// Breaks a disk: from now on each request to it is answered `Broken`.
    pub(crate) fn break_down(&mut self, disk: u32)
        requires { HasDisk self.old.stations disk }
        ensures { BreaksDown H.seen H.File.seen disk self.old self.new }
    {
        let station = &mut self.kept[disk as usize - 1];
        station.break_down();
    }

    /// Restarts the station of a disk, as `Station::restart` does, and tells of each record in doubt there whether it
    /// was found. The other stations stand for what they stood for.
    ///
    /// # Errors
    ///
    /// As for `Station::restart`.
    pub(crate) fn restart(&mut self, disk: u32) -> (Vec<Settled>, Result<Answer, NoMemory>)
        requires { HasDisk self.old.stations disk }
        ensures call { StationsCall H.seen H.File.seen self.old self.new result.1 }
        ensures told { Restarted H.seen H.File.seen self.old.vid disk result.0.items result.1 self.old.stations self.new.stations }
        ensures lasts { AllOutlast H.seen H.File.seen self.old.stations self.new.stations }
    {
        let station = &mut self.kept[disk as usize - 1];
        station.restart()
    }
}

// The unit that is asked.
fn unit_of(request: &Request) -> UnitName
    ensures { result ≡ name_of request.now }
{
    match request {
        Request::Create { unit, .. }
        | Request::Fence { unit, .. }
        | Request::Put { unit, .. }
        | Request::Read { unit, .. }
        | Request::List { unit, .. }
        | Request::Copy { unit, .. }
        | Request::Mark { unit, .. }
        | Request::Free { unit, .. }
        | Request::Release { unit, .. } => *unit,
    }
}

/// The disk that is asked.
pub(crate) fn disk_of(request: &Request) -> u32
    ensures { result ≡ disk_of request.now }
{
    match request {
        Request::Create { disk, .. }
        | Request::Fence { disk, .. }
        | Request::Put { disk, .. }
        | Request::Read { disk, .. }
        | Request::List { disk, .. }
        | Request::Copy { disk, .. }
        | Request::Mark { disk, .. }
        | Request::Free { disk, .. }
        | Request::Release { disk, .. } => *disk,
    }
}
