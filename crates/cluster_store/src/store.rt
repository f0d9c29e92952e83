//! A store over a farm, and its commands.

ghost use Rattle.std.specs.Prelude.{◌≡◌, ◌<◌, [], length, IfOk, IfErr};
ghost use Rattle.cluster_admin.specs.Cluster.{fresh};
ghost use Rattle.cluster_admin.specs.Inside.{state_of};
ghost use Rattle.cluster_store.specs.Store.{IsStore, over};

use cluster_admin::{Admin, Placer};
use disk_base::{Farm, NoMemory};
use farm_volume::FarmVolume;
use rs_code::Coder;
use std::alloc::Global;
use std::marker::Model;

/// A volume, and the coder of its blobs.
#[derive(Drop)]
pub struct Opened<F: Farm> {
    pub(crate) volume: FarmVolume<F>,
    pub(crate) coder: Coder,
}

impl<F: Farm> Model for Opened<F> {
    ghost use Rattle.std.specs.Coded.{codes};
    ghost use Rattle.blob_node.specs.Station.{coded_station};
    ghost use Rattle.rs_code.specs.Shape.{shape};
    ghost use Rattle.cluster_store.specs.Store.{OpenedOver};

    ghost Value = { OpenedOver F.Disk F.Disk.File };

    ghost coded = { Prim.hlevel (codes, coded_station F.Disk.code F.Disk.File.code) };

    ghost view = { λ opened. record { volume = opened.volume; shape = shape opened.coder } };
}

/// The tables of a cluster, and its volumes by their numbers, over the shelves of a farm. A lost volume leaves its place
/// empty.
#[derive(Drop)]
pub struct Store<F: Farm> {
    pub(crate) alloc: Global,
    pub(crate) admin: Admin,
    pub(crate) volumes: Vec<Option<Opened<F>>>,
}

impl<F: Farm> Store<F> {
    /// A store without disks. The first placer is in use.
    ///
    /// # Errors
    ///
    /// Only for want of memory.
    pub fn make(alloc: Global, placers: Vec<Box<dyn Placer>>) -> Result<Store<F>, NoMemory>
        requires { 0 < length placers.items }
        ensures tables { IfOk result (λ store. state_of store.admin ≡ fresh (length placers.items)) }
        ensures volumes { IfOk result (λ store. store.volumes.items ≡ []) }
        ensures sound { IfOk result (λ store. IsStore (over (state_of store.admin) store.volumes.items)) }
    {
        match Admin::make(alloc, placers) {
            Ok(admin) => Ok(Store {
                alloc,
                admin,
                volumes: Vec::new(alloc),
            }),
            Err(_) => Err(NoMemory),
        }
    }
}
