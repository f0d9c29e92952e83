//! A volume more.

ghost use Rattle.std.specs.Prelude.{◌≡◌, ◌-◌, ◌≤◌, is_some, true, IfOk};
ghost use Rattle.rs_code.specs.Shape.{shape};
ghost use Rattle.blob_access.specs.Coding.{coder_shape};
ghost use Rattle.cluster_admin.specs.Disks.{disk_at, is_bad};
ghost use Rattle.cluster_admin.specs.Inside.{state_of};
ghost use Rattle.cluster_store.specs.Store.{StandsOver, IsStore, over};
ghost use Rattle.cluster_admin.specs.Volumes.{volume_at};
ghost use Rattle.cluster_store.specs.Answers.{MakesOne, breaks_in, bad_disks, is_bad_at, lost_reply, volume_refusal};
ghost use Rattle.cluster_store.specs.Asking.{Played};
ghost use Rattle.cluster_store.specs.declared.reply.Reply.TheVariants as replies;

use crate::reply::{Refusal, Reply};
use crate::store::{Opened, Store};
use cluster_admin::{AdminFault, DiskState};
use code_mode::Mode;
use disk_base::{Farm, NoMemory};
use rs_code::{CodeFault, Coder};
use std::alloc::Global;
use volume_maker::{NoVolume, make_volume};
use volume_turns::{VolumeCommand, VolumeReply};
use volume_world::{Port, StepFault, WorldFault};

/// How many rows a coder keeps between calls.
const KEPT_ROWS: usize = 16;

/// A coder of a mode.
fn coder_of(alloc: Global, mode: Mode) -> Result<Coder, NoMemory>
    ensures { IfOk result (λ coder. shape coder ≡ coder_shape mode) }
{
    match Coder::new(alloc, mode.n() as usize, mode.m() as usize, KEPT_ROWS) {
        Ok(coder) => Ok(coder),
        Err(CodeFault::Memory) => Err(NoMemory),
        Err(CodeFault::BadShape) => unreachable!(),
        Err(CodeFault::TooFew { have: _ }) => unreachable!(),
    }
}

/// Why the tables give no volume.
fn volume_refusal(fault: AdminFault) -> Refusal
    ensures { result ≡ volume_refusal fault }
{
    match fault {
        AdminFault::FewDisks { have, need } => Refusal::FewDisks { have, need },
        _ => Refusal::Limit,
    }
}

/// What becomes of a volume that isn't made.
fn lost_reply(cause: WorldFault) -> Result<Reply, StepFault>
    ensures { result ≡ lost_reply cause }
{
    let cause = match cause {
        WorldFault::Fault => Refusal::Fault,
        WorldFault::Damaged {
            kept: _,
            computed: _,
        } => Refusal::Damaged,
        WorldFault::Spoiled { place } => Refusal::Spoiled { place },
        WorldFault::Memory => return Err(StepFault::Memory),
    };
    Ok(Reply::Refused { cause })
}

/// Drops a reply that isn't looked at.
fn forget(_reply: VolumeReply) {}

impl<F: Farm> Store<F> {
    /// Whether a disk is broken, with a repair or without.
    fn is_bad(&self, disk: u32) -> bool
        ensures { result ≡ is_bad_at (disk_at (state_of self.now.admin).disks disk) }
    {
        match self.admin.state(disk) {
            Ok(DiskState::Normal | DiskState::Dropped) | Err(_) => false,
            Ok(DiskState::Broken | DiskState::Repairing | DiskState::Repaired) => true,
        }
    }

    /// Each broken disk breaks in the volume of this number, which is new.
    fn break_in(&mut self, vid: u32) -> Result<Reply, StepFault>
        requires first { 1 ≤ vid }
        requires there { is_some (volume_at (state_of self.old.admin).volumes vid) ≡ true }
        requires sound { IsStore (over (state_of self.old.admin) self.old.volumes.items) }
        ensures played { Played F.Disk.seen F.Disk.File.seen (breaks_in (state_of self.old.admin) (vid - 1) (bad_disks 1 (state_of self.old.admin).disks) (replies.Volume vid)) (over (state_of self.old.admin) self.old.volumes.items) (over (state_of self.new.admin) self.new.volumes.items) result }
    {
        let place = vid as usize - 1;
        for at in 0..self.admin.disk_count() {
            let disk = at + 1;
            if !self.is_bad(disk) {
                continue;
            }
            match self.play(place, &VolumeCommand::Break { disk }) {
                Ok(reply) => forget(reply),
                Err(fault) => return Err(fault),
            }
        }
        Ok(Reply::Volume { vid })
    }

    /// Makes a volume of the next number over the farm's shelves.
    pub fn make_volume(&mut self, farm: &mut F, mode: Mode) -> Result<Reply, StepFault>
        requires stands { StandsOver F.Disk.seen (over (state_of self.old.admin) self.old.volumes.items) (F.seen farm.old) }
        ensures stands { StandsOver F.Disk.seen (over (state_of self.new.admin) self.new.volumes.items) (F.seen farm.new) }
        ensures makes { MakesOne F.Disk.seen F.Disk.File.seen mode (over (state_of self.old.admin) self.old.volumes.items) (over (state_of self.new.admin) self.new.volumes.items) (F.seen farm.old) (F.seen farm.new) result }
    {
        self.volumes.reserve(1)?;
        let coder = coder_of(self.alloc, mode)?;
        let volume = match make_volume(self.alloc, &mut self.admin, farm, mode) {
            Ok(volume) => volume,
            Err(NoVolume::Refused { cause }) => {
                return Ok(Reply::Refused {
                    cause: volume_refusal(cause),
                });
            }
            Err(NoVolume::NotMade { cause }) => {
                self.volumes.push_reserved(None);
                return lost_reply(cause);
            }
        };
        volume.is_way();
        self.volumes.push_reserved(Some(Opened { volume, coder }));
        let vid = self.volumes.as_slice().len() as u32;
        self.break_in(vid)
    }
}
