//! How the manager's log of a volume is started.

ghost use Rattle.std.specs.Prelude.{◌≡◌, ◌≤◌};
ghost use Rattle.volume_entry.specs.TableParts.{Tells};
ghost use Rattle.volume_world.specs.History.{AreNoted};
ghost use Rattle.volume_world.specs.ManagerReplies.{IsStartFault, start_refusal};
ghost use Rattle.volume_world.specs.Opening.{NeedsLog, NotesReply, Opens, restart_parts, StartsEntry, StartsLog};
ghost use Rattle.volume_world.specs.Stepping.{HasRoom, IsSound, Takes};
ghost use Rattle.volume_world.specs.Told.{event_told};
ghost use Rattle.volume_world.specs.Trace.{event_kept};
ghost use Rattle.volume_world.specs.declared.event.Event.TheVariants.{RestartManager};

use crate::parts::Parts;
use crate::replying::start_refusal;
use crate::{Event, Reply, StepFault, TraceEvent, TraceReply};
use disk_base::Shelf;
use volume_entry::EntryFault;

/// Whether an event needs the manager's log.
pub(crate) fn needs_log(event: &Event) -> bool
    ensures { Tells result (NeedsLog (event_told (event_kept event.now))) }
{
    match event {
        Event::Tick { .. }
        | Event::Plan { .. }
        | Event::Break { .. }
        | Event::Restart { .. }
        | Event::RestartManager => false,
        Event::Lease
        | Event::Begin { .. }
        | Event::Send { .. }
        | Event::FlushOne
        | Event::End { .. }
        | Event::Lock { .. }
        | Event::Retarget { .. }
        | Event::Swap { .. }
        | Event::Unlock { .. }
        | Event::Ask { .. }
        | Event::Commit { .. }
        | Event::Look => true,
    }
}

impl<H: Shelf> Parts<H> {
    /// Starts the manager's log where it is shut, for an event that needs it, and gives the event back. A start is noted.
    /// The event of a log that doesn't start is noted with its refusal, which is the reply.
    ///
    /// # Errors
    ///
    /// For want of memory nothing is noted.
    pub(crate) fn open_log(&mut self, event: Event) -> Result<Result<Event, Reply>, StepFault>
        requires sound { IsSound H.seen H.File.seen self.old }
        requires room { HasRoom H.seen H.File.seen 3 self.old }
        requires needs { NeedsLog (event_told (event_kept event)) }
        ensures { Opens H.seen H.File.seen self.old self.new event result }
    {
        match self.start_log() {
            Ok(()) => Ok(Ok(event)),
            Err(fault) => match self.refuse(event, fault) {
                Ok(reply) => Ok(Err(reply)),
                Err(fault) => Err(fault),
            },
        }
    }

    /// Starts the manager's log anew, and forgets what was heard. A start of one that was shut stands before the event.
    ///
    /// # Errors
    ///
    /// For want of memory nothing is noted.
    pub(crate) fn restart_manager(&mut self) -> Result<Reply, StepFault>
        requires sound { IsSound H.seen H.File.seen self.old }
        requires room { HasRoom H.seen H.File.seen 3 self.old }
        ensures { Takes H.seen H.File.seen 1 self.old self.new RestartManager result }
    {
        let was_shut = self.entry.end().is_none();
        match self.start_entry() {
            Ok(kept) => {
                self.note_restart(was_shut, kept);
                Ok(Reply::Done)
            }
            Err(fault) => self.refuse(Event::RestartManager, fault),
        }
    }

    // Starts the log where it is shut, and notes that.
    fn start_log(&mut self) -> Result<(), EntryFault>
        requires sound { IsSound H.seen H.File.seen self.old }
        requires room { HasRoom H.seen H.File.seen 3 self.old }
        ensures { StartsLog H.seen H.File.seen self.old self.new result }
    {
        if self.entry.end().is_some() {
            return Ok(());
        }
        match self.start_entry() {
            Ok(kept) => {
                self.note(TraceEvent::Settle { disk: 0, kept }, TraceReply::Done);
                Ok(())
            }
            Err(fault) => Err(fault),
        }
    }

    // Starts the log of the manager's part.
    fn start_entry(&mut self) -> Result<bool, EntryFault>
        ensures starts { StartsEntry H.File.seen self.old.entry self.new.entry result }
        ensures only { self.new ≡ record self.old { entry = self.new.entry } }
    {
        self.entry.start()
    }

    // Notes an event whose log doesn't start, with its reply.
    fn refuse(&mut self, event: Event, fault: EntryFault) -> Result<Reply, StepFault>
        requires cause { IsStartFault fault }
        requires room { 1 ≤ self.old.history.spare }
        ensures reply { result ≡ start_refusal fault }
        ensures noted { NotesReply event self.old.history self.new.history result }
        ensures rest { self.new ≡ record self.old { history = self.new.history } }
    {
        match start_refusal(fault) {
            Ok(reply) => {
                self.note(event.into_kept(), reply.kept());
                Ok(reply)
            }
            Err(fault) => Err(fault),
        }
    }

    // Notes a restart of the manager, behind the start of a log that was shut.
    fn note_restart(&mut self, was_shut: bool, kept: bool)
        requires room { 2 ≤ self.old.history.spare }
        ensures noted { AreNoted (restart_parts was_shut kept) self.old.history self.new.history }
        ensures rest { self.new ≡ record self.old { history = self.new.history } }
    {
        if !was_shut {
            return self.note(TraceEvent::RestartManager, TraceReply::Done);
        }
        self.note(TraceEvent::Settle { disk: 0, kept }, TraceReply::Done);
        self.note(TraceEvent::RestartManager, TraceReply::Done);
    }
}
