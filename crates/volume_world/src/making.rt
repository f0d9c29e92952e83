//! How a volume is made.

ghost use Rattle.std.specs.Prelude.{◌≡◌, [], replicate, IfOk};
ghost use Rattle.volume_world.specs.Stations.{HasDisk};
ghost use Rattle.volume_world.specs.WorldMaking.{CanMake, FitsHomes, MakesUnit, MakesUnits, MakesWorld, entry_fault, locations, unit_made};

use crate::history::History;
use crate::late::LateQueue;
use crate::parts::Parts;
use crate::puts::PutBook;
use crate::stations::Stations;
use crate::world_fault::{MakeRefused, WorldFault};
use blob_node::{Link, Station};
use code_mode::Mode;
use disk_base::{NoMemory, Shelf};
use std::alloc::Global;
use unit_id::{Answer, Home, Request};
use volume_entry::{Entry, EntryFault, Shape, UnitHome};

/// Where the units of these homes stand.
fn places_of(alloc: Global, homes: &[Home]) -> Result<Vec<UnitHome>, NoMemory>
    ensures { IfOk result (λ places. places.items ≡ locations homes.now) }
{
    let mut places = Vec::new(alloc);
    for home in homes {
        places.push(UnitHome {
            epoch: home.unit.epoch,
            disk: home.disk,
        })?;
    }
    Ok(places)
}

/// What the answer to a create of a new volume's unit says. One that no new station gives counts as that of a chunk that
/// isn't one.
fn unit_made(answer: Result<Answer, NoMemory>) -> Result<(), WorldFault>
    ensures { result ≡ unit_made answer }
{
    match answer {
        Ok(Answer::Done) => Ok(()),
        Ok(Answer::Fault) => Err(WorldFault::Fault),
        Ok(Answer::Damaged { kept, computed }) => Err(WorldFault::Damaged { kept, computed }),
        Ok(Answer::Spoiled { place }) => Err(WorldFault::Spoiled { place }),
        Ok(_) => Err(WorldFault::Spoiled { place: 0 }),
        Err(_) => Err(WorldFault::Memory),
    }
}

/// Why a volume isn't made whose log isn't. A log that is made is never shut.
fn entry_fault(fault: EntryFault) -> WorldFault
    ensures { result ≡ entry_fault fault }
{
    match fault {
        EntryFault::Fault => WorldFault::Fault,
        EntryFault::Spoiled { place } => WorldFault::Spoiled { place },
        EntryFault::Shut => WorldFault::Spoiled { place: 0 },
        EntryFault::Memory => WorldFault::Memory,
    }
}

/// Makes the unit of a home.
fn make_unit<H: Shelf>(stations: &mut Stations<H>, home: Home) -> Result<(), WorldFault>
    requires own { home.unit.vid ≡ stations.old.vid }
    requires disk { HasDisk stations.old.stations home.disk }
    ensures { MakesUnit H.seen H.File.seen home stations.old stations.new result }
{
    let request = Request::Create {
        unit: home.unit,
        disk: home.disk,
    };
    let (_found, answer) = stations.handle(&request);
    unit_made(answer)
}

/// Makes the units of these homes in turn, up to the first that can't be made.
fn make_units<H: Shelf>(stations: &mut Stations<H>, homes: &[Home]) -> Result<(), WorldFault>
    requires { FitsHomes homes.now stations.old }
    ensures { MakesUnits H.seen H.File.seen homes.now stations.old stations.new result }
{
    for home in homes {
        make_unit(stations, *home)?;
    }
    Ok(())
}

/// What is put into memory before a file is touched: where the units stand, and a link on which nothing is planned.
fn prepare(alloc: Global, shape: Shape, homes: &[Home]) -> Result<(Vec<UnitHome>, Link), NoMemory>
    ensures { IfOk result (λ ready. (ready.0.items ≡ locations homes.now) × (ready.1 ≡ replicate shape.disks [])) }
{
    let first = places_of(alloc, homes)?;
    let link = Link::make(alloc, shape.disks)?;
    Ok((first, link))
}

/// The refusal to make a volume, with what was handed in.
fn refused<H: Shelf>(fault: WorldFault, stations: Stations<H>, file: H::File) -> MakeRefused<H>
    ensures { result ≡ record { fault = fault; stations = stations.stations; file = file } }
{
    let (_vid, stations) = stations.into_parts();
    MakeRefused {
        fault,
        stations,
        file,
    }
}

impl<H: Shelf> Parts<H> {
    /// A volume on these new stations, with a unit at each of these homes, and with its log in this new file.
    ///
    /// # Errors
    ///
    /// Each hands back the stations, with the units that were made until then, and the file.
    pub(crate) fn make(
        alloc: Global,
        vid: u32,
        mode: Mode,
        stations: Vec<Station<H>>,
        file: H::File,
        homes: &[Home],
    ) -> Result<Parts<H>, MakeRefused<H>>
        requires { CanMake H.seen H.File.seen vid mode stations.items file homes.now }
        ensures { MakesWorld H.seen H.File.seen vid mode stations.items file homes.now result }
    {
        let shape = Shape {
            mode,
            disks: stations.len() as u32,
        };
        let mut stations = Stations::over(vid, stations);
        let Ok((first, link)) = prepare(alloc, shape, homes) else {
            return Err(refused(WorldFault::Memory, stations, file));
        };
        if let Err(fault) = make_units(&mut stations, homes) {
            return Err(refused(fault, stations, file));
        }
        match Entry::make(alloc, file, vid, shape, first.as_slice()) {
            Ok(entry) => Ok(Parts {
                shape,
                first,
                stations,
                entry,
                puts: PutBook::none(alloc),
                link,
                late: LateQueue::none(alloc),
                time: 0,
                history: History::none(alloc),
            }),
            Err((fault, file)) => Err(refused(entry_fault(fault), stations, file)),
        }
    }
}
