//! A look at each volume.

ghost use Rattle.std.specs.Prelude.{◌≡◌, [], is_some, true};
ghost use Rattle.cluster_admin.specs.Inside.{state_of};
ghost use Rattle.cluster_store.specs.Store.{IsStore, over};
ghost use Rattle.cluster_store.specs.Lines.{seen_by};
ghost use Rattle.cluster_store.specs.Asking.{LooksEach};

use crate::asking::{earlier, refusal_in};
use crate::store::Store;
use cluster_admin::Seen;
use disk_base::Farm;
use unit_id::Homes;
use volume_entry::View;
use volume_turns::{VolumeCommand, VolumeRefusal, VolumeReply};
use volume_world::StepFault;

/// What a view shows of a volume.
fn seen_of(view: View) -> Seen
    ensures { result ≡ record { locked = is_some view.held; units = view.units } }
{
    let View {
        now: _,
        version: _,
        lease: _,
        held,
        units,
    } = view;
    Seen {
        locked: held.is_some(),
        units,
    }
}

/// What a look that isn't answered by a view counts as.
fn locked() -> Seen
    ensures { result ≡ record { locked = true; units = [] } }
{
    Seen {
        locked: true,
        units: Homes::empty(),
    }
}

/// What a look shows of a volume. One that wasn't seen counts as locked.
fn shown_by(reply: VolumeReply) -> Seen
    ensures { result ≡ seen_by reply }
{
    if let VolumeReply::Seen { view } = reply {
        return seen_of(view);
    }
    locked()
}

impl<F: Farm> Store<F> {
    /// Looks at each volume, in order, and answers what was seen and the first refusal.
    pub(crate) fn look_each(&mut self) -> Result<(Vec<Seen>, Option<VolumeRefusal>), StepFault>
        requires sound { IsStore (over (state_of self.old.admin) self.old.volumes.items) }
        ensures played { LooksEach F.Disk.seen F.Disk.File.seen (over (state_of self.old.admin) self.old.volumes.items) (over (state_of self.new.admin) self.new.volumes.items) result }
    {
        let mut views = Vec::new(self.alloc);
        let mut first = None;
        for place in 0..self.volumes.as_slice().len() {
            if self.volumes[place].is_none() {
                continue;
            }
            let reply = self.play(place, &VolumeCommand::Look)?;
            first = earlier(first, refusal_in(&reply));
            views.push(shown_by(reply))?;
        }
        Ok((views, first))
    }
}
