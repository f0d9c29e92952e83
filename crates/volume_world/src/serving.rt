//! Requests of a volume that its stations handle, and answers that are heard.

ghost use Rattle.std.specs.Prelude.{◌≡◌, ◌≤◌, false, IsOk};
ghost use Rattle.unit_id.specs.Messages.{answer_of};
ghost use Rattle.blob_node.specs.HeldUnit.{disk_of};
ghost use Rattle.volume_entry.specs.HeardCalls.{is_listing};
ghost use Rattle.volume_entry.specs.HeardMemory.{HasRoom as HasRoomFor};
ghost use Rattle.volume_world.specs.Asking.{FitsRequest};
ghost use Rattle.volume_world.specs.History.{AreNoted};
ghost use Rattle.volume_world.specs.Origins.{origin_of};
ghost use Rattle.volume_world.specs.Serving.{IsHeardBy, Serves, settles_of, told_of};
ghost use Rattle.volume_world.specs.Stepping.{IsSound};

use crate::parts::Parts;
use crate::stations::disk_of;
use crate::{StepFault, TraceEvent, TraceReply};
use disk_base::Shelf;
use unit_id::{Answer, Request};

/// What a start tells of a record in doubt.
pub(crate) fn told_of(in_doubt: bool, found: Option<bool>) -> Option<bool>
    ensures { result ≡ told_of in_doubt found }
{
    if in_doubt { found } else { None }
}

impl<H: Shelf> Parts<H> {
    /// Hears the answer to a request, in the manager's part and in the puts. Where there is room for what is heard only a
    /// listing takes memory.
    ///
    /// # Errors
    ///
    /// `Memory`; then nothing is heard.
    pub(crate) fn hear(&mut self, request: &Request, answer: &Answer) -> Result<(), StepFault>
        ensures rest { self.new ≡ record self.old { entry = self.new.entry; puts = self.new.puts } }
        ensures book { self.new.entry.book ≡ self.old.entry.book }
        ensures broken { self.new.entry.broken ≡ self.old.entry.broken }
        ensures heard { IsHeardBy H.seen H.File.seen request.now answer.now self.old self.new result }
        ensures succeeds { HasRoomFor self.old.entry.heard → is_listing (answer_of answer.now) ≡ false → IsOk result }
    {
        match self.entry.hear(request, answer) {
            Ok(()) => {
                self.puts.hear(request, answer);
                Ok(())
            }
            Err(_) => Err(StepFault::Memory),
        }
    }

    /// Adds to the history what is told of a start on this disk. Takes no memory.
    pub(crate) fn note_settle(&mut self, disk: u32, told: Option<bool>)
        requires { 1 ≤ self.old.history.spare }
        ensures rest { self.new ≡ record self.old { history = self.new.history } }
        ensures noted { AreNoted (settles_of disk told) self.old.history self.new.history }
    {
        if let Some(kept) = told {
            self.note(TraceEvent::Settle { disk, kept }, TraceReply::Done);
        }
    }

    /// Has the station of its disk answer a request. Where that starts a shut chunk that had a record in doubt, the history
    /// tells whether the record was found.
    ///
    /// # Errors
    ///
    /// `Memory`; then nothing more is done than such a start.
    pub(crate) fn serve(&mut self, request: &Request) -> Result<Answer, StepFault>
        requires sound { IsSound H.seen H.File.seen self.old }
        requires room { 1 ≤ self.old.history.spare }
        requires fits { FitsRequest (origin_of H.seen H.File.seen self.old) request.now }
        ensures { Serves H.seen H.File.seen request.now result self.old self.new }
    {
        let in_doubt = self.stations.is_in_doubt(request);
        let (found, answer) = self.stations.handle(request);
        self.note_settle(disk_of(request), told_of(in_doubt, found));
        Ok(answer?)
    }
}
