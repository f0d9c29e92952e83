//! Late items of a volume arrive: requests are handled, and answers are heard.

ghost use Rattle.std.specs.Prelude.{◌≡◌, ◌≤◌, drop, IsSome};
ghost use Rattle.volume_world.specs.History.{IsNoted};
ghost use Rattle.volume_world.specs.Stepping.{HasRoom, IsSound, Takes};
ghost use Rattle.volume_world.specs.Trace.{trace_of};
ghost use Rattle.volume_world.specs.declared.event.Event.TheVariants as events;
ghost use Rattle.volume_world.specs.declared.reply.Reply.TheVariants as replies;

use crate::late::LateItem;
use crate::parts::Parts;
use crate::serving::told_of;
use crate::stations::disk_of;
use crate::{Reply, StepFault, TraceEvent, TraceReply};
use disk_base::Shelf;

impl<H: Shelf> Parts<H> {
    /// The first late item arrives, where the log is started: a request is handled and its answer lost, or an answer is
    /// heard.
    ///
    /// # Errors
    ///
    /// `Memory`; then the item is still to come.
    pub(crate) fn flush(&mut self) -> Result<Reply, StepFault>
        requires sound { IsSound H.seen H.File.seen self.old }
        requires room { HasRoom H.seen H.File.seen 2 self.old }
        requires open { IsSome self.old.entry.book.log.end }
        ensures { Takes H.seen H.File.seen 1 self.old self.new events.FlushOne result }
    {
        match self.late.first() {
            Some(LateItem::Request(request)) => {
                let in_doubt = self.stations.is_in_doubt(request);
                let (found, answer) = self.stations.handle(request);
                let disk = disk_of(request);
                self.note_settle(disk, told_of(in_doubt, found));
                answer?;
                Ok(self.flushed(true))
            }
            Some(LateItem::Answer { request, answer }) => {
                match self.entry.hear(request, answer) {
                    Ok(()) => {
                        self.puts.hear(request, answer);
                        Ok(self.flushed(false))
                    }
                    Err(_) => Err(StepFault::Memory),
                }
            }
            None => {
                self.note(TraceEvent::FlushOne, TraceReply::NothingLate);
                Ok(Reply::NothingLate)
            }
        }
    }

    // The first late item has arrived. Takes no memory.
    fn flushed(&mut self, request: bool) -> Reply
        requires { 1 ≤ self.old.history.spare }
        ensures rest { self.new ≡ record self.old { late = self.new.late; history = self.new.history } }
        ensures taken { self.new.late.items ≡ drop 1 self.old.late.items }
        ensures noted { IsNoted (trace_of events.FlushOne result) self.old.history self.new.history }
        ensures told { result ≡ replies.Flushed request }
    {
        self.late.take_first();
        self.note(TraceEvent::FlushOne, TraceReply::Flushed { request });
        Reply::Flushed { request }
    }
}
