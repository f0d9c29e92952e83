//! Commands to the link of one volume.

ghost use Rattle.std.specs.Prelude.{◌≡◌, ◌-◌, option_map};
ghost use Rattle.cluster_admin.specs.Volumes.{volume_at};
ghost use Rattle.cluster_admin.specs.Inside.{state_of};
ghost use Rattle.cluster_store.specs.Store.{FindsPlace, IsStore, over};
ghost use Rattle.cluster_store.specs.Lines.{plan_of};
ghost use Rattle.cluster_store.specs.Asking.{Played};
ghost use Rattle.cluster_store.specs.declared.command.Command.TheVariants as commands;
ghost use Rattle.cluster_store.specs.declared.reply.Refusal.TheVariants as causes;
ghost use Rattle.cluster_store.specs.declared.reply.Reply.TheVariants as replies;

use crate::asking::{refusal_of, unless_refused};
use crate::reply::{Refusal, Reply};
use crate::store::Store;
use blob_node::Fate;
use disk_base::Farm;
use volume_turns::{VolumeCommand, VolumeRefusal, VolumeReply};
use volume_world::StepFault;

/// The reply of a volume that refuses.
pub(crate) fn refused(refusal: VolumeRefusal) -> Reply
    ensures { result ≡ replies.Refused (causes.OfVolume refusal) }
{
    Reply::Refused {
        cause: Refusal::OfVolume { refusal },
    }
}

impl<F: Farm> Store<F> {
    /// The place of the volume of a number, where there is one.
    pub(crate) fn place_of(&self, vid: u32) -> Option<usize>
        requires { IsStore (over (state_of self.now.admin) self.now.volumes.items) }
        ensures { FindsPlace (over (state_of self.now.admin) self.now.volumes.items) vid result }
    {
        let volumes = self.volumes.as_slice();
        if vid == 0 || vid as usize > volumes.len() {
            return None;
        }
        let place = vid as usize - 1;
        match &volumes[place] {
            Some(_) => Some(place),
            None => None,
        }
    }

    /// Plans the fates of a volume's next requests to a disk.
    pub fn plan(&mut self, vid: u32, disk: u32, fate: Fate, count: u32) -> Result<Reply, StepFault>
        requires sound { IsStore (over (state_of self.old.admin) self.old.volumes.items) }
        ensures played { Played F.Disk.seen F.Disk.File.seen (plan_of (state_of self.old.admin) (commands.Plan vid disk fate count)) (over (state_of self.old.admin) self.old.volumes.items) (over (state_of self.new.admin) self.new.volumes.items) result }
    {
        let Some(place) = self.place_of(vid) else {
            return Ok(Reply::Refused {
                cause: Refusal::NoVolume,
            });
        };
        if !self.has_disk(disk) {
            return Ok(Reply::Refused {
                cause: Refusal::NoDisk,
            });
        }
        let reply = self.play(place, &VolumeCommand::Plan { disk, fate, count })?;
        Ok(unless_refused(Reply::Planned, refusal_of(reply)))
    }

    /// All late requests and answers of a volume arrive.
    pub fn flush(&mut self, vid: u32) -> Result<Reply, StepFault>
        requires sound { IsStore (over (state_of self.old.admin) self.old.volumes.items) }
        ensures played { Played F.Disk.seen F.Disk.File.seen (plan_of (state_of self.old.admin) (commands.Flush vid)) (over (state_of self.old.admin) self.old.volumes.items) (over (state_of self.new.admin) self.new.volumes.items) result }
    {
        let Some(place) = self.place_of(vid) else {
            return Ok(Reply::Refused {
                cause: Refusal::NoVolume,
            });
        };
        match self.play(place, &VolumeCommand::Flush)? {
            VolumeReply::Flushed { requests, answers } => Ok(Reply::Flushed { requests, answers }),
            VolumeReply::Refused { refusal } => Ok(refused(refusal)),
            _ => unreachable!(),
        }
    }
}
