//! Puts of a volume whose log is started: they begin and end; and looks at the volume.

ghost use Rattle.std.specs.Prelude.{IsSome, Ok};
ghost use Rattle.volume_entry.specs.Entry.{Looks};
ghost use Rattle.volume_world.specs.Asking.{FitsEvent};
ghost use Rattle.volume_world.specs.Origins.{origin_of};
ghost use Rattle.volume_world.specs.Replying.{ShowsView};
ghost use Rattle.volume_world.specs.Stepping.{HasRoom, IsSound, Takes};
ghost use Rattle.volume_world.specs.declared.event.Event.TheVariants as events;

use crate::beginning::begin_put;
use crate::parts::Parts;
use crate::{Reply, StepFault, TraceEvent};
use code_mode::Payload;
use disk_base::Shelf;
use volume_entry::View;

impl<H: Shelf> Parts<H> {
    /// The volume as it stands. Takes no memory.
    fn view(&self) -> View
        requires sound { IsSound H.seen H.File.seen self.now }
        requires open { IsSome self.now.entry.book.log.end }
        ensures looks { Looks H.File.seen self.now.time self.now.entry (Ok result) }
        ensures shows { ShowsView (origin_of H.seen H.File.seen self.now) result }
    {
        match self.entry.look(self.time) {
            Ok(view) => view,
            Err(_) => unreachable!(),
        }
    }

    /// Looks at the volume, whose log is started. Takes no memory.
    pub(crate) fn look(&mut self) -> Reply
        requires sound { IsSound H.seen H.File.seen self.old }
        requires room { HasRoom H.seen H.File.seen 1 self.old }
        requires open { IsSome self.old.entry.book.log.end }
        ensures { Takes H.seen H.File.seen 0 self.old self.new events.Look (Ok result) }
    {
        let reply = Reply::Seen { view: self.view() };
        self.note(TraceEvent::Look, reply.kept());
        reply
    }

    /// Begins a put, where the log is started. The history keeps the payload.
    ///
    /// # Errors
    ///
    /// `Memory`; then nothing is begun.
    pub(crate) fn begin(&mut self, bid: u64, payload: Payload) -> Result<Reply, StepFault>
        requires sound { IsSound H.seen H.File.seen self.old }
        requires room { HasRoom H.seen H.File.seen 1 self.old }
        requires open { IsSome self.old.entry.book.log.end }
        requires fits { FitsEvent (origin_of H.seen H.File.seen self.old) (events.Begin bid payload) }
        ensures { Takes H.seen H.File.seen 0 self.old self.new (events.Begin bid payload) result }
    {
        let view = self.view();
        self.puts.reserve()?;
        let reply = begin_put(&mut self.puts, bid, view)?;
        self.note(TraceEvent::Begin { bid, payload }, reply.kept());
        Ok(reply)
    }

    /// Ends a put, where the log is started. Takes no memory.
    pub(crate) fn end(&mut self, bid: u64) -> Reply
        requires sound { IsSound H.seen H.File.seen self.old }
        requires room { HasRoom H.seen H.File.seen 1 self.old }
        requires open { IsSome self.old.entry.book.log.end }
        ensures { Takes H.seen H.File.seen 0 self.old self.new (events.End bid) (Ok result) }
    {
        let reply = self.puts.end(self.shape.mode, bid, self.time);
        self.note(TraceEvent::End { bid }, reply.kept());
        reply
    }
}
