//! The restart of a disk of a volume.

ghost use Rattle.std.specs.Prelude.{◌≡◌, ◌≤◌};
ghost use Rattle.volume_world.specs.Asking.{FitsEvent};
ghost use Rattle.volume_world.specs.Origins.{origin_of};
ghost use Rattle.volume_world.specs.Restarting.{NotesFirst, restart_reply};
ghost use Rattle.volume_world.specs.Stepping.{HasRoom, IsSound, Takes};
ghost use Rattle.volume_world.specs.declared.event.Event.TheVariants as events;

use crate::parts::Parts;
use crate::{Reply, StepFault, TraceEvent, TraceReply};
use blob_node::Settled;
use disk_base::Shelf;
use unit_id::Answer;

impl<H: Shelf> Parts<H> {
    /// The station of a disk restarts, and starts each of its chunks. A record in doubt there is settled before, and
    /// noted.
    ///
    /// # Errors
    ///
    /// `Memory`; then what is settled until then is noted, and nothing more.
    pub(crate) fn restart(&mut self, disk: u32) -> Result<Reply, StepFault>
        requires sound { IsSound H.seen H.File.seen self.old }
        requires room { HasRoom H.seen H.File.seen 2 self.old }
        requires fits { FitsEvent (origin_of H.seen H.File.seen self.old) (events.Restart disk) }
        ensures { Takes H.seen H.File.seen 1 self.old self.new (events.Restart disk) result }
    {
        let (settled, result) = self.stations.restart(disk);
        self.note_settled(disk, settled.as_slice());
        let answer = result?;
        let reply = restart_reply(&answer);
        self.note(TraceEvent::Restart { disk }, reply.kept());
        Ok(reply)
    }

    // Notes the record in doubt that a restart has settled, if there was one. Takes no memory.
    fn note_settled(&mut self, disk: u32, settled: &[Settled])
        requires { 1 ≤ self.old.history.spare }
        ensures noted { NotesFirst disk settled.now self.old.history self.new.history }
        ensures rest { self.new ≡ record self.old { history = self.new.history } }
    {
        if let Some(item) = settled.first() {
            self.note(
                TraceEvent::Settle {
                    disk,
                    kept: item.found,
                },
                TraceReply::Done,
            );
        }
    }
}

// What the volume replies. A restart has no other answers than these.
fn restart_reply(answer: &Answer) -> Reply
    ensures { result ≡ restart_reply answer.now }
{
    match answer {
        Answer::Fault => Reply::Fault,
        Answer::Damaged { kept, computed } => Reply::Damaged {
            kept: *kept,
            computed: *computed,
        },
        Answer::Spoiled { place } => Reply::Spoiled { place: *place },
        _ => Reply::Done,
    }
}
