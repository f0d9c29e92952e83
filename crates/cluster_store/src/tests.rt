//! Commands to a store without objects.

ghost use Rattle.std.specs.Prelude.{◌≡◌, ℕ, [], IfSome, false};
ghost use Rattle.farm_volume.specs.Making.{IsFresh};
ghost use Rattle.cluster_admin.specs.Inside.{state_of};
ghost use Rattle.cluster_store.specs.Store.{IsStore, over};

use crate::{Refusal, Reply, Store};
use blob_node::Fate;
use cluster_admin::{DiskState, First, Placer};
use code_mode::Mode;
use disk_base::{Farm, MemFarm};
use std::alloc::Global;
use volume_turns::VolumeRefusal;
use volume_world::StepFault;

/// What a reply says, where it shows nothing else.
#[derive(Clone, Copy, Debug, PartialEq, Eq)]
enum Outcome {
    Disks,
    Volume(u32),
    Flushed(u64, u64),
    Ticked,
    Broken,
    Planned,
    Restarted,
    RestartedManager,
    Refused(Refusal),
    Other,
}

fn said(reply: Result<Reply, StepFault>) -> Outcome {
    match reply {
        Ok(Reply::Disks) => Outcome::Disks,
        Ok(Reply::Volume { vid }) => Outcome::Volume(vid),
        Ok(Reply::Flushed { requests, answers }) => Outcome::Flushed(requests, answers),
        Ok(Reply::Ticked) => Outcome::Ticked,
        Ok(Reply::Broken) => Outcome::Broken,
        Ok(Reply::Planned) => Outcome::Planned,
        Ok(Reply::Restarted) => Outcome::Restarted,
        Ok(Reply::RestartedManager) => Outcome::RestartedManager,
        Ok(Reply::Refused { cause }) => Outcome::Refused(cause),
        _ => Outcome::Other,
    }
}

/// What nine disks are given to, and then what else is asked of disks.
fn of_disks<F: Farm>(store: &mut Store<F>) -> [Outcome; 8]
    requires { IsStore (over (state_of store.old.admin) store.old.volumes.items) }
{
    [
        said(store.set_disks(9)),
        said(store.set_disks(9)),
        said(store.tick(3)),
        said(store.break_disk(9)),
        said(store.break_disk(9)),
        said(store.break_disk(10)),
        said(store.restart(9)),
        said(store.restart(10)),
    ]
}

/// What is asked of managers, volumes and names that there aren't.
fn of_volumes<F: Farm>(store: &mut Store<F>) -> [Outcome; 5]
    requires { IsStore (over (state_of store.old.admin) store.old.volumes.items) }
{
    [
        said(store.restart_manager()),
        said(store.plan(1, 1, Fate::Lose, 1)),
        said(store.flush(1)),
        said(store.fetch(1, 1, 5)),
        said(store.get("a")),
    ]
}

fn store<F: Farm>(alloc: Global) -> Option<Store<F>>
    ensures sound { IfSome result (λ store. IsStore (over (state_of store.admin) store.volumes.items)) }
    ensures empty { IfSome result (λ store. store.volumes.items ≡ []) }
{
    let first: Box<dyn Placer> = Box::new(alloc, First::new()).ok()?;
    let mut placers = Vec::new(alloc);
    placers.push(first).ok()?;
    match Store::make(alloc, placers) {
        Ok(store) => Some(store),
        Err(_) => None,
    }
}

/// What is asked of a store with one volume.
fn of_the_volume<F: Farm>(store: &mut Store<F>) -> [Outcome; 6]
    requires { IsStore (over (state_of store.old.admin) store.old.volumes.items) }
{
    [
        said(store.tick(3)),
        said(store.break_disk(1)),
        said(store.plan(1, 2, Fate::Lose, 1)),
        said(store.flush(1)),
        said(store.fetch(1, 1, 5)),
        said(store.restart(2)),
    ]
}

/// How a volume of nine units on so many disks is made over a farm without files, and what is asked of the store then.
fn with_volume<F: Farm>(alloc: Global, farm: &mut F, disks: u32) -> Option<(Outcome, [Outcome; 6])>
    requires { (disk vid : ℕ) → ((F.seen farm.old).is_out disk vid ≡ false) × IsFresh F.Disk.seen ((F.seen farm.old).place disk vid) }
{
    let mut store = store(alloc)?;
    let _given = store.set_disks(disks);
    let made = said(store.make_volume(farm, Mode::Ec6P3));
    Some((made, of_the_volume(&mut store)))
}

fn volume_said(alloc: Global, disks: u32) -> Option<(Outcome, [Outcome; 6])> {
    let mut farm = MemFarm::new(alloc, Vec::new(alloc));
    with_volume(alloc, &mut farm, disks)
}

fn disks_said(alloc: Global) -> Option<[Outcome; 8]> {
    let mut store = store::<MemFarm>(alloc)?;
    Some(of_disks(&mut store))
}

fn volumes_said(alloc: Global) -> Option<[Outcome; 5]> {
    let mut store = store::<MemFarm>(alloc)?;
    Some(of_volumes(&mut store))
}

#[test]
fn disks_are_given_once(rt: HostRuntime) {
    let broken = Refusal::BadState {
        state: DiskState::Broken,
    };
    let wanted = [
        Outcome::Disks,
        Outcome::Refused(Refusal::Given { have: 9 }),
        Outcome::Ticked,
        Outcome::Broken,
        Outcome::Refused(broken),
        Outcome::Refused(Refusal::NoDisk),
        Outcome::Restarted,
        Outcome::Refused(Refusal::NoDisk),
    ];
    assert_eq!(rt; disks_said(rt.alloc()), Some(wanted));
}

#[test]
fn what_there_is_not(rt: HostRuntime) {
    let wanted = [
        Outcome::RestartedManager,
        Outcome::Refused(Refusal::NoVolume),
        Outcome::Refused(Refusal::NoVolume),
        Outcome::Refused(Refusal::NoVolume),
        Outcome::Refused(Refusal::NoName),
    ];
    assert_eq!(rt; volumes_said(rt.alloc()), Some(wanted));
}

#[test]
fn a_volume_is_made(rt: HostRuntime) {
    let short = VolumeRefusal::Short { live: 0 };
    let wanted = [
        Outcome::Ticked,
        Outcome::Broken,
        Outcome::Planned,
        Outcome::Flushed(0, 0),
        Outcome::Refused(Refusal::OfVolume { refusal: short }),
        Outcome::Restarted,
    ];
    assert_eq!(rt;
        volume_said(rt.alloc(), 9),
        Some((Outcome::Volume(1), wanted))
    );
}

#[test]
fn a_volume_wants_disks(rt: HostRuntime) {
    let few = Outcome::Refused(Refusal::FewDisks { have: 8, need: 9 });
    let none = Outcome::Refused(Refusal::NoVolume);
    let wanted = [
        Outcome::Ticked,
        Outcome::Broken,
        none,
        none,
        none,
        Outcome::Restarted,
    ];
    assert_eq!(rt; volume_said(rt.alloc(), 8), Some((few, wanted)));
}
