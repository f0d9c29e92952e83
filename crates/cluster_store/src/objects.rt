//! Objects and blobs come out.

ghost use Rattle.std.specs.Prelude.{◌≡◌, ◌≤◌};
ghost use Rattle.std.specs.Map.{lookup};
ghost use Rattle.std.specs.Str.{bytes_eq};
ghost use Rattle.code_mode.specs.declared.stripe.TheConstants.{BLOB_LIMIT};
ghost use Rattle.volume_entry.specs.Manager.{IsBid};
ghost use Rattle.cluster_admin.specs.Inside.{state_of};
ghost use Rattle.cluster_store.specs.Store.{IsStore, over};
ghost use Rattle.cluster_store.specs.Lines.{get_plan, plan_of};
ghost use Rattle.cluster_store.specs.Asking.{Played};
ghost use Rattle.cluster_store.specs.declared.command.Command.TheVariants as commands;

use crate::links::refused;
use crate::reply::{Refusal, Reply};
use crate::store::Store;
use disk_base::Farm;
use volume_turns::{VolumeCommand, VolumeReply};
use volume_world::StepFault;

impl<F: Farm> Store<F> {
    /// Gets the object of a name.
    pub fn get(&mut self, name: &str) -> Result<Reply, StepFault>
        requires sound { IsStore (over (state_of self.old.admin) self.old.volumes.items) }
        ensures played { Played F.Disk.seen F.Disk.File.seen (get_plan (state_of self.old.admin) (lookup (bytes_eq name.now) (state_of self.old.admin).names)) (over (state_of self.old.admin) self.old.volumes.items) (over (state_of self.new.admin) self.new.volumes.items) result }
    {
        let Ok(at) = self.admin.name(name) else {
            return Ok(Reply::Refused {
                cause: Refusal::NoName,
            });
        };
        let command = VolumeCommand::Get {
            first: at.bid,
            size: at.size,
        };
        match self.play(at.vid as usize - 1, &command)? {
            VolumeReply::Got { bytes } => Ok(Reply::Got { bytes }),
            VolumeReply::Refused { refusal } => Ok(refused(refusal)),
            _ => unreachable!(),
        }
    }

    /// Gets one blob.
    pub fn fetch(&mut self, vid: u32, bid: u64, size: u32) -> Result<Reply, StepFault>
        requires number { IsBid bid }
        requires size { (1 ≤ size) × (size ≤ BLOB_LIMIT) }
        requires sound { IsStore (over (state_of self.old.admin) self.old.volumes.items) }
        ensures played { Played F.Disk.seen F.Disk.File.seen (plan_of (state_of self.old.admin) (commands.Fetch vid bid size)) (over (state_of self.old.admin) self.old.volumes.items) (over (state_of self.new.admin) self.new.volumes.items) result }
    {
        let Some(place) = self.place_of(vid) else {
            return Ok(Reply::Refused {
                cause: Refusal::NoVolume,
            });
        };
        match self.play(place, &VolumeCommand::Fetch { bid, size })? {
            VolumeReply::Fetched { bytes } => Ok(Reply::Fetched { bytes }),
            VolumeReply::Refused { refusal } => Ok(refused(refusal)),
            _ => unreachable!(),
        }
    }
}
