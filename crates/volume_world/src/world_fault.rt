//! Why a volume isn't made.

use blob_node::Station;
use disk_base::Shelf;
use std::marker::Model;
use thiserror::Error;

/// Why a volume isn't made.
#[derive(Clone, Copy, Debug, PartialEq, Eq, Error)]
pub enum WorldFault {
    /// A call on a shelf or a file failed.
    #[error("a call on a file of the volume failed")]
    Fault,
    /// A new chunk has a record with another sum than was kept.
    #[error("a new chunk has a record of sum {computed} where {kept} was kept")]
    Damaged { kept: u32, computed: u32 },
    /// A new log isn't one at this place.
    #[error("a new log of the volume isn't one at place {place}")]
    Spoiled { place: u64 },
    /// The allocator had no memory left.
    #[error("out of memory")]
    Memory,
}

/// A volume that isn't made, with what was handed in for it: the stations, with the units that were made, and the file.
#[derive(Drop)]
pub struct MakeRefused<H: Shelf> {
    pub fault: WorldFault,
    pub stations: Vec<Station<H>>,
    pub file: H::File,
}

impl<H: Shelf> Model for MakeRefused<H> {
    ghost use Rattle.blob_node.specs.Station.{coded_station};
    ghost use Rattle.std.specs.Coded.{codes};
    ghost use Rattle.volume_world.specs.WorldMaking.{RefusedOver};

    ghost Value = { RefusedOver H H.File };

    ghost coded = { Prim.hlevel (codes, coded_station H.code H.File.code) };

    ghost view = { λ refused. record { fault = refused.fault; stations = refused.stations.items; file = refused.file } };
}
