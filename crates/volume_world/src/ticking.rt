//! Events of a volume that need no file: its clock, what is planned for its messages, and disks that break.

ghost use Rattle.std.specs.Prelude.{Ok};
ghost use Rattle.volume_world.specs.Asking.{FitsEvent};
ghost use Rattle.volume_world.specs.Origins.{origin_of};
ghost use Rattle.volume_world.specs.Stepping.{HasRoom, IsSound, Takes};
ghost use Rattle.volume_world.specs.declared.event.Event.TheVariants as events;

use crate::clock::later;
use crate::parts::Parts;
use crate::{Reply, StepFault, TraceEvent, TraceReply};
use blob_node::Fate;
use disk_base::Shelf;

impl<H: Shelf> Parts<H> {
    /// The clock goes on by so many ticks. Takes no memory.
    pub(crate) fn tick(&mut self, by: u32) -> Reply
        requires sound { IsSound H.seen H.File.seen self.old }
        requires room { HasRoom H.seen H.File.seen 1 self.old }
        ensures { Takes H.seen H.File.seen 0 self.old self.new (events.Tick by) (Ok result) }
    {
        let now = later(self.time, by);
        self.time = now;
        self.note(TraceEvent::Tick { by }, TraceReply::Now { now });
        Reply::Now { now }
    }

    /// Plans a fate for the next messages to a disk.
    ///
    /// # Errors
    ///
    /// `Memory`; then nothing more is planned.
    pub(crate) fn plan(&mut self, disk: u32, fate: Fate, count: u32) -> Result<Reply, StepFault>
        requires sound { IsSound H.seen H.File.seen self.old }
        requires room { HasRoom H.seen H.File.seen 1 self.old }
        requires fits { FitsEvent (origin_of H.seen H.File.seen self.old) (events.Plan disk fate count) }
        ensures { Takes H.seen H.File.seen 0 self.old self.new (events.Plan disk fate count) result }
    {
        self.link.plan(disk, fate, count)?;
        self.note(TraceEvent::Plan { disk, fate, count }, TraceReply::Done);
        Ok(Reply::Done)
    }

    /// A disk breaks for good. Takes no memory.
    pub(crate) fn break_disk(&mut self, disk: u32) -> Reply
        requires sound { IsSound H.seen H.File.seen self.old }
        requires room { HasRoom H.seen H.File.seen 1 self.old }
        requires fits { FitsEvent (origin_of H.seen H.File.seen self.old) (events.Break disk) }
        ensures { Takes H.seen H.File.seen 0 self.old self.new (events.Break disk) (Ok result) }
    {
        self.stations.break_down(disk);
        self.entry.break_disk(disk);
        self.note(TraceEvent::Break { disk }, TraceReply::Done);
        Reply::Done
    }
}
