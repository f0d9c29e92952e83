//! An event happens to a volume.

ghost use Rattle.std.specs.Prelude.{◌≤◌, ◌+◌, ◌^◌, length, IsSome, IsOk};
ghost use Rattle.volume_world.specs.Asking.{FitsEvent};
ghost use Rattle.volume_world.specs.Opening.{NeedsLog};
ghost use Rattle.volume_world.specs.Origins.{origin_of};
ghost use Rattle.volume_world.specs.Stepping.{HasRoom, IsSound, NeedsNoMemory, Takes};
ghost use Rattle.volume_world.specs.World.{WorldOver};
ghost use Rattle.volume_world.specs.Told.{event_told};
ghost use Rattle.volume_world.specs.Trace.{event_kept};

use crate::opening::needs_log;
use crate::parts::Parts;
use crate::{Event, Reply, StepFault};
use disk_base::Shelf;

/// How many entries a step adds at most: two settles and its event.
const MOST: usize = 3;

impl<H: Shelf> Parts<H> {
    /// Has an event happen, behind at most two settles of logs that were shut.
    ///
    /// # Errors
    ///
    /// `Memory` alone.
    pub(crate) fn step(&mut self, event: Event) -> Result<Reply, StepFault>
        requires sound { IsSound H.seen H.File.seen self.old }
        requires few { length self.old.history.entries + 3 ≤ 2 ^ 32 }
        requires fits { FitsEvent (origin_of H.seen H.File.seen self.old) event }
        ensures takes { Takes H.seen H.File.seen 2 self.old self.new event result }
        ensures sure { 3 ≤ self.old.history.spare → NeedsNoMemory self.old event → IsOk result }
    {
        if self.make_room(MOST).is_err() {
            return Err(StepFault::Memory);
        }
        self.happen(event)
    }

    // Has an event happen, for which there is room in the history.
    fn happen(&mut self, event: Event) -> Result<Reply, StepFault>
        requires sound { IsSound H.seen H.File.seen self.old }
        requires room { HasRoom H.seen H.File.seen 3 self.old }
        requires fits { FitsEvent (origin_of H.seen H.File.seen self.old) event }
        ensures takes { Takes H.seen H.File.seen 2 self.old self.new event result }
        ensures sure { NeedsNoMemory self.old event → IsOk result }
    {
        if !needs_log(&event) {
            return self.answer_at_once(event);
        }
        match self.open_log(event) {
            Ok(Ok(event)) => self.answer_by_log(event),
            Ok(Err(reply)) => Ok(reply),
            Err(fault) => Err(fault),
        }
    }

    // An event that doesn't need the manager's log.
    fn answer_at_once(&mut self, event: Event) -> Result<Reply, StepFault>
        requires sound { IsSound H.seen H.File.seen self.old }
        requires room { HasRoom H.seen H.File.seen 3 self.old }
        requires fits { FitsEvent (origin_of H.seen H.File.seen self.old) event }
        requires needs { NeedsLog (event_told (event_kept event)) → ⊥ }
        ensures takes { Takes H.seen H.File.seen 1 self.old self.new event result }
        ensures sure { NeedsNoMemory self.old event → IsOk result }
    {
        match event {
            Event::Tick { by } => Ok(self.tick(by)),
            Event::Plan { disk, fate, count } => self.plan(disk, fate, count),
            Event::Break { disk } => Ok(self.break_disk(disk)),
            Event::Restart { disk } => self.restart(disk),
            Event::RestartManager => self.restart_manager(),
            Event::Lease
            | Event::Begin { .. }
            | Event::Send { .. }
            | Event::FlushOne
            | Event::End { .. }
            | Event::Lock { .. }
            | Event::Retarget { .. }
            | Event::Swap { .. }
            | Event::Unlock { .. }
            | Event::Ask { .. }
            | Event::Commit { .. }
            | Event::Look => unreachable!(),
        }
    }

    // An event that needs the manager's log, which is started.
    fn answer_by_log(&mut self, event: Event) -> Result<Reply, StepFault>
        requires sound { IsSound H.seen H.File.seen self.old }
        requires room { HasRoom H.seen H.File.seen 2 self.old }
        requires fits { FitsEvent (origin_of H.seen H.File.seen self.old) event }
        requires needs { NeedsLog (event_told (event_kept event)) }
        requires open { IsSome self.old.entry.book.log.end }
        ensures takes { Takes H.seen H.File.seen 1 self.old self.new event result }
        ensures sure { (world : WorldOver H H.File) → NeedsNoMemory world event → IsOk result }
    {
        match event {
            Event::Lease => self.lease(),
            Event::Begin { bid, payload } => self.begin(bid, payload),
            Event::Send { request } => self.send(request),
            Event::FlushOne => self.flush(),
            Event::End { bid } => Ok(self.end(bid)),
            Event::Lock { task, targets } => self.lock(task, targets),
            Event::Retarget { task, index, disk } => self.retarget(task, index, disk),
            Event::Swap { task } => self.swap(task),
            Event::Unlock { task } => self.unlock(task),
            Event::Ask { bid } => self.ask(bid),
            Event::Commit { bid } => self.commit(bid),
            Event::Look => Ok(self.look()),
            Event::Tick { .. }
            | Event::Plan { .. }
            | Event::Break { .. }
            | Event::Restart { .. }
            | Event::RestartManager => unreachable!(),
        }
    }
}
