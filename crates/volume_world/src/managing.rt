//! Steps of a volume's manager, whose log is started: leases, locks and what is moved under them, and deletes.

ghost use Rattle.std.specs.Prelude.{◌≡◌, ◌≤◌, IfErr, IfOk, IsSome};
ghost use Rattle.code_mode.specs.VolumeShape.{last_time};
ghost use Rattle.volume_entry.specs.Entry.{FitsEvent, HasRoomIfOpen};
ghost use Rattle.volume_entry.specs.TableParts.{shape_of};
ghost use Rattle.volume_world.specs.Asking as asking;
ghost use Rattle.volume_world.specs.FixedRows.{FitsRows};
ghost use Rattle.volume_world.specs.History.{IsNoted};
ghost use Rattle.volume_world.specs.ManagerReplies.{IsOfOpenLog, step_reply, volume_event};
ghost use Rattle.volume_world.specs.Managing.{IsTestedBy, StepsEntry};
ghost use Rattle.volume_world.specs.Origins.{origin_of};
ghost use Rattle.volume_world.specs.Stepping.{HasRoom, IsSound, Takes};
ghost use Rattle.volume_world.specs.Trace.{event_kept, trace_of};
ghost use Rattle.volume_world.specs.declared.event.Event.TheVariants as events;

use crate::parts::Parts;
use crate::replying::step_reply;
use crate::{Reply, StepFault, TraceEvent, TraceReply};
use disk_base::Shelf;
use unit_id::Targets;
use volume_entry::{EntryFault, ManagerEvent, ManagerReply};

/// What the history keeps of a step of the manager.
fn step_kept(event: ManagerEvent) -> TraceEvent
    ensures { result ≡ event_kept (volume_event event) }
{
    match event {
        ManagerEvent::Lease => TraceEvent::Lease,
        ManagerEvent::Lock { task, targets } => TraceEvent::Lock { task, targets },
        ManagerEvent::Retarget { task, index, disk } => TraceEvent::Retarget { task, index, disk },
        ManagerEvent::Swap { task } => TraceEvent::Swap { task },
        ManagerEvent::Unlock { task } => TraceEvent::Unlock { task },
        ManagerEvent::Ask { bid } => TraceEvent::Ask { bid },
        ManagerEvent::Commit { bid } => TraceEvent::Commit { bid },
    }
}

impl<H: Shelf> Parts<H> {
    /// Puts may be acknowledged for ten ticks from now on, where no task has the lock.
    ///
    /// # Errors
    ///
    /// `Memory`; then nothing is done.
    pub(crate) fn lease(&mut self) -> Result<Reply, StepFault>
        requires sound { IsSound H.seen H.File.seen self.old }
        requires room { HasRoom H.seen H.File.seen 1 self.old }
        requires open { IsSome self.old.entry.book.log.end }
        ensures { Takes H.seen H.File.seen 0 self.old self.new events.Lease result }
    {
        self.manage(ManagerEvent::Lease)
    }

    /// A task locks the volume, to move units to these targets.
    ///
    /// # Errors
    ///
    /// `Memory`; then nothing is done.
    pub(crate) fn lock(&mut self, task: u64, targets: Targets) -> Result<Reply, StepFault>
        requires sound { IsSound H.seen H.File.seen self.old }
        requires room { HasRoom H.seen H.File.seen 1 self.old }
        requires open { IsSome self.old.entry.book.log.end }
        requires fits { asking.FitsEvent (origin_of H.seen H.File.seen self.old) (events.Lock task targets) }
        ensures { Takes H.seen H.File.seen 0 self.old self.new (events.Lock task targets) result }
    {
        self.manage(ManagerEvent::Lock { task, targets })
    }

    /// A destination that broke is replaced.
    ///
    /// # Errors
    ///
    /// `Memory`; then nothing is done.
    pub(crate) fn retarget(&mut self, task: u64, index: u8, disk: u32) -> Result<Reply, StepFault>
        requires sound { IsSound H.seen H.File.seen self.old }
        requires room { HasRoom H.seen H.File.seen 1 self.old }
        requires open { IsSome self.old.entry.book.log.end }
        requires fits { asking.FitsEvent (origin_of H.seen H.File.seen self.old) (events.Retarget task index disk) }
        ensures { Takes H.seen H.File.seen 0 self.old self.new (events.Retarget task index disk) result }
    {
        self.manage(ManagerEvent::Retarget { task, index, disk })
    }

    /// The destinations become the units of their indexes.
    ///
    /// # Errors
    ///
    /// `Memory`; then nothing is done.
    pub(crate) fn swap(&mut self, task: u64) -> Result<Reply, StepFault>
        requires sound { IsSound H.seen H.File.seen self.old }
        requires room { HasRoom H.seen H.File.seen 1 self.old }
        requires open { IsSome self.old.entry.book.log.end }
        ensures { Takes H.seen H.File.seen 0 self.old self.new (events.Swap task) result }
    {
        self.manage(ManagerEvent::Swap { task })
    }

    /// The task gives the volume free.
    ///
    /// # Errors
    ///
    /// `Memory`; then nothing is done.
    pub(crate) fn unlock(&mut self, task: u64) -> Result<Reply, StepFault>
        requires sound { IsSound H.seen H.File.seen self.old }
        requires room { HasRoom H.seen H.File.seen 1 self.old }
        requires open { IsSome self.old.entry.book.log.end }
        ensures { Takes H.seen H.File.seen 0 self.old self.new (events.Unlock task) result }
    {
        self.manage(ManagerEvent::Unlock { task })
    }

    /// The deletion of a blob is asked for, where it was begun.
    ///
    /// # Errors
    ///
    /// `Memory`; then nothing is done.
    pub(crate) fn ask(&mut self, bid: u64) -> Result<Reply, StepFault>
        requires sound { IsSound H.seen H.File.seen self.old }
        requires room { HasRoom H.seen H.File.seen 1 self.old }
        requires open { IsSome self.old.entry.book.log.end }
        requires fits { asking.FitsEvent (origin_of H.seen H.File.seen self.old) (events.Ask bid) }
        ensures { Takes H.seen H.File.seen 0 self.old self.new (events.Ask bid) result }
    {
        if self.puts.is_begun(bid) {
            return self.manage(ManagerEvent::Ask { bid });
        }
        self.note(TraceEvent::Ask { bid }, TraceReply::NotBegun);
        Ok(Reply::NotBegun)
    }

    /// The deletion of a blob is committed.
    ///
    /// # Errors
    ///
    /// `Memory`; then nothing is done.
    pub(crate) fn commit(&mut self, bid: u64) -> Result<Reply, StepFault>
        requires sound { IsSound H.seen H.File.seen self.old }
        requires room { HasRoom H.seen H.File.seen 1 self.old }
        requires open { IsSome self.old.entry.book.log.end }
        requires fits { asking.FitsEvent (origin_of H.seen H.File.seen self.old) (events.Commit bid) }
        ensures { Takes H.seen H.File.seen 0 self.old self.new (events.Commit bid) result }
    {
        self.manage(ManagerEvent::Commit { bid })
    }

    // A step of the manager, with what was tested before.
    fn manage(&mut self, event: ManagerEvent) -> Result<Reply, StepFault>
        requires sound { IsSound H.seen H.File.seen self.old }
        requires room { HasRoom H.seen H.File.seen 1 self.old }
        requires open { IsSome self.old.entry.book.log.end }
        requires fits { FitsEvent (shape_of self.old.shape) event }
        requires tested { IsTestedBy self.old.puts.puts event }
        ensures { Takes H.seen H.File.seen 0 self.old self.new (volume_event event) result }
    {
        let answer = self.step_entry(&event);
        self.note_step(event, answer)
    }

    // The manager's part takes the step.
    fn step_entry(&mut self, event: &ManagerEvent) -> Result<ManagerReply, EntryFault>
        requires time { self.old.time ≤ last_time }
        requires room { HasRoomIfOpen self.old.entry.book.log.end }
        requires fits { FitsEvent (shape_of self.old.entry.book.shape) event.now }
        ensures steps { StepsEntry H.File.seen self.old.time event.now self.old.entry self.new.entry result }
        ensures only { self.new ≡ record self.old { entry = self.new.entry } }
    {
        match event {
            ManagerEvent::Lease => self.entry.lease(self.time),
            ManagerEvent::Lock { task, targets } => self.entry.lock(self.time, *task, targets),
            ManagerEvent::Retarget { task, index, disk } => self
                .entry
                .retarget(*task, *index, *disk),
            ManagerEvent::Swap { task } => self.entry.swap(*task),
            ManagerEvent::Unlock { task } => self.entry.unlock(*task),
            ManagerEvent::Ask { bid } => self.entry.ask(*bid),
            ManagerEvent::Commit { bid } => self.entry.commit(*bid),
        }
    }

    // Notes a step with its reply, where it was answered or its file failed.
    fn note_step(
        &mut self,
        event: ManagerEvent,
        answer: Result<ManagerReply, EntryFault>,
    ) -> Result<Reply, StepFault>
        requires open { IsOfOpenLog answer }
        requires fits { IfOk (step_reply answer) FitsRows }
        requires room { 1 ≤ self.old.history.spare }
        ensures reply { result ≡ step_reply answer }
        ensures noted { IfOk result (λ reply. IsNoted (trace_of (volume_event event) reply) self.old.history self.new.history) }
        ensures none { IfErr result (λ fault. self.new ≡ self.old) }
        ensures rest { self.new ≡ record self.old { history = self.new.history } }
    {
        match step_reply(answer) {
            Ok(reply) => {
                self.note(step_kept(event), reply.kept());
                Ok(reply)
            }
            Err(fault) => Err(fault),
        }
    }
}
