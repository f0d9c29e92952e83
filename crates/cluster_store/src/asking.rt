//! Each volume is asked the same.

ghost use Rattle.std.specs.Prelude.{◌≡◌};
ghost use Rattle.cluster_admin.specs.Inside.{state_of};
ghost use Rattle.cluster_store.specs.Store.{IsStore, over};
ghost use Rattle.cluster_store.specs.Lines.{earlier, refusal_in, told};
ghost use Rattle.cluster_store.specs.Asking.{AsksEach, FitsEach};

use crate::reply::{Refusal, Reply};
use crate::store::Store;
use disk_base::Farm;
use volume_turns::{VolumeCommand, VolumeRefusal, VolumeReply};
use volume_world::StepFault;

/// Why a volume refuses, where it does.
pub(crate) fn refusal_in(reply: &VolumeReply) -> Option<VolumeRefusal>
    ensures { result ≡ refusal_in reply.now }
{
    match reply {
        VolumeReply::Refused { refusal } => Some(*refusal),
        _ => None,
    }
}

/// Why a volume refuses, of a reply that isn't wanted any more.
pub(crate) fn refusal_of(reply: VolumeReply) -> Option<VolumeRefusal>
    ensures { result ≡ refusal_in reply }
{
    refusal_in(&reply)
}

/// The first of two refusals.
pub(crate) fn earlier(
    first: Option<VolumeRefusal>,
    next: Option<VolumeRefusal>,
) -> Option<VolumeRefusal>
    ensures { result ≡ earlier first next }
{
    match first {
        Some(refusal) => Some(refusal),
        None => next,
    }
}

/// The reply where all is done, unless a volume refused.
pub(crate) fn unless_refused(reply: Reply, refusal: Option<VolumeRefusal>) -> Reply
    ensures { result ≡ told reply refusal }
{
    match refusal {
        None => reply,
        Some(refusal) => Reply::Refused {
            cause: Refusal::OfVolume { refusal },
        },
    }
}

impl<F: Farm> Store<F> {
    /// Asks each volume the same, in order, and answers the first refusal.
    pub(crate) fn ask_each(
        &mut self,
        command: &VolumeCommand,
    ) -> Result<Option<VolumeRefusal>, StepFault>
        requires fits { FitsEach F.Disk.seen F.Disk.File.seen self.old.volumes.items command.now }
        requires sound { IsStore (over (state_of self.old.admin) self.old.volumes.items) }
        ensures played { AsksEach F.Disk.seen F.Disk.File.seen (over (state_of self.old.admin) self.old.volumes.items) (over (state_of self.new.admin) self.new.volumes.items) command.now result }
    {
        let mut first = None;
        for place in 0..self.volumes.as_slice().len() {
            if self.volumes[place].is_none() {
                continue;
            }
            let reply = self.play(place, command)?;
            first = earlier(first, refusal_of(reply));
        }
        Ok(first)
    }
}
