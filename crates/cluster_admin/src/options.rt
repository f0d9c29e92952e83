//! The disks that may be chosen for a unit.

ghost use Rattle.std.specs.Prelude.{◌≡◌, ◌<◌, ◌≤◌, ◌∷◌, ◌++◌, [], ℕ, length, Some, None};
ghost use Rattle.cluster_admin.specs.Choosing.{is_taken, options_of};

use crate::disks::Disk;
use crate::placer::Place;
use crate::plans::{Planned, is_aimed};
use crate::volumes::{Volume, units_on};
use std::marker::Model;

/// The options for a unit: a list of at most 64, which takes no memory.
#[derive(Drop)]
pub struct Options {
    places: [Place; 64],
    count: usize,
}

impl Model for Options {
    ghost use Rattle.std.specs.Prelude.{List, take, ◌≤◌};
    ghost use Rattle.cluster_admin.specs.declared.placer.Place.{Place};

    ghost Value = { List Place };

    ghost view = { λ row. take row.count row.places };

    ghost invariant = { λ row. row.count ≤ 64 };
}

impl Options {
    /// No option.
    fn empty() -> Options
        ensures { result ≡ [] }
    {
        Options {
            places: [Place { disk: 0, units: 0 }; 64],
            count: 0,
        }
    }

    /// Adds an option at the end.
    fn push(&mut self, option: Place)
        requires { length self.old < 64 }
        ensures { self.new ≡ self.old ++ option ∷ [] }
    {
        self.places[self.count] = option;
        self.count += 1;
    }

    /// The options, in order.
    pub fn as_slice(&self) -> &[Place]
        ensures { result.now ≡ self.now }
    {
        &self.places[..self.count]
    }
}

/// Whether a disk can't be chosen for a unit of a volume with these homes, since a unit of the volume
/// stands there or is to go there.
fn is_taken(homes: &[u32], tasks: &[Planned], vid: u32, disk: u32) -> bool
    ensures { result ≡ is_taken homes.now tasks.now vid disk }
{
    homes.contains(&disk) || is_aimed(tasks, vid, disk)
}

/// The disks that may be chosen for a unit of a volume with these homes, ascending.
pub fn options_of(
    disks: &[Disk],
    volumes: &[Option<Volume>],
    homes: &[u32],
    tasks: &[Planned],
    vid: u32,
) -> Options
    requires disks { length disks.now ≤ 64 }
    requires volumes { length volumes.now ≤ 64 }
    ensures { result ≡ options_of disks.now volumes.now homes.now tasks.now vid }
{
    let mut options = Options::empty();
    for (place, disk) in disks.iter().enumerate() {
        let number = place as u32 + 1;
        if disk.is_free() && !is_taken(homes, tasks, vid, number) {
            options.push(Place {
                disk: number,
                units: units_on(volumes, number),
            });
        }
    }
    options
}
