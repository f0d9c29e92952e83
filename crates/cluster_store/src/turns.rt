//! A turn of one volume of a store.

ghost use Rattle.cluster_admin.specs.Inside.{state_of};
ghost use Rattle.cluster_store.specs.Store.{IsFor, PlaysAt, IsStore, over};

use crate::store::Store;
use disk_base::Farm;
use volume_turns::{VolumeCommand, VolumeReply, play};
use volume_world::StepFault;

impl<F: Farm> Store<F> {
    /// The turn of the volume at a place.
    pub(crate) fn play(
        &mut self,
        place: usize,
        command: &VolumeCommand,
    ) -> Result<VolumeReply, StepFault>
        requires there { IsFor F.Disk.seen F.Disk.File.seen self.old.volumes.items place command.now }
        requires sound { IsStore (over (state_of self.old.admin) self.old.volumes.items) }
        ensures { PlaysAt F.Disk.seen F.Disk.File.seen (over (state_of self.old.admin) self.old.volumes.items) (over (state_of self.new.admin) self.new.volumes.items) place command.now result }
    {
        match &mut self.volumes[place] {
            Some(opened) => play(self.alloc, &mut opened.volume, &mut opened.coder, command),
            None => unreachable!(),
        }
    }
}
