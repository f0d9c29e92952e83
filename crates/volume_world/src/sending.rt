//! Requests that are sent, each by the fate that is planned for its message.

ghost use Rattle.std.specs.Prelude.{◌≡◌, ◌≤◌, ◌++◌, min, ◌+◌, drop, IfErr, IsSome, Ok, OnOk, option_to_list};
ghost use Rattle.unit_id.specs.Messages.{request_of};
ghost use Rattle.blob_node.specs.HeldUnit.{disk_of};
ghost use Rattle.blob_node.specs.Link.{IsDiskOf, fates_of, next_of, with_fates};
ghost use Rattle.blob_node.specs.declared.fate.Fate.TheVariants as fates;
ghost use Rattle.code_mode.specs.VolumeShape.{last_time};
ghost use Rattle.volume_entry.specs.HeardMemory.{HasRoom as HasRoomFor};
ghost use Rattle.volume_world.specs.Asking.{FitsEvent};
ghost use Rattle.volume_world.specs.Origins.{origin_of};
ghost use Rattle.volume_world.specs.Sending.{EndsSend, HandlesBy, HearsBy, IsBarred, IsReady, IsRoomier, MaySend, TellsSendable, bid_of};
ghost use Rattle.volume_world.specs.Stepping.{HasRoom, IsSound, Takes};
ghost use Rattle.volume_world.specs.declared.event.Event.TheVariants as events;
ghost use Rattle.volume_world.specs.declared.fault.StepFault.TheVariants.{Memory};
ghost use Rattle.volume_world.specs.declared.reply.Reply.TheVariants as replies;

use crate::clock::later;
use crate::keeping::request_kept;
use crate::late::LateItem;
use crate::parts::Parts;
use crate::stations::disk_of;
use crate::{Reply, StepFault, TraceEvent, TraceReply, TraceRequest};
use blob_node::Fate;
use disk_base::Shelf;
use unit_id::{Answer, Request};

/// The blob that is put or copied, and 0 for another request.
fn bid_of(request: &Request) -> u64
    ensures { result ≡ bid_of (request_of request.now) }
{
    match request {
        Request::Put { bid, .. } | Request::Copy { bid, .. } => *bid,
        Request::Create { .. }
        | Request::Fence { .. }
        | Request::Read { .. }
        | Request::List { .. }
        | Request::Mark { .. }
        | Request::Free { .. }
        | Request::Release { .. } => 0,
    }
}

impl<H: Shelf> Parts<H> {
    /// Makes room for what comes late of a message, and for what is heard by it.
    ///
    /// # Errors
    ///
    /// `Memory` alone.
    fn reserve_message(&mut self) -> Result<(), StepFault>
        ensures roomier { IsRoomier H.seen H.File.seen self.old self.new }
        ensures named { IfErr result (λ fault. fault ≡ Memory) }
        ensures room { OnOk result ((1 ≤ self.new.late.spare) × HasRoomFor self.new.entry.heard) }
    {
        self.late.reserve()?;
        match self.entry.reserve() {
            Ok(()) => Ok(()),
            Err(_) => Err(StepFault::Memory),
        }
    }

    /// Whether a request may be sent as the volume stands.
    fn may_send(&self, request: &Request) -> bool
        requires sound { IsSound H.seen H.File.seen self.now }
        ensures { TellsSendable H.seen H.File.seen request.now self.now result }
    {
        let is_begun = self.puts.is_begun(bid_of(request));
        self.entry.may_send(request, is_begun)
    }

    /// The next fate of a message to the disk. It stays planned.
    fn next_fate(&self, disk: u32) -> Fate
        requires { IsDiskOf self.now.planned disk }
        ensures { result ≡ next_of (fates_of self.now.planned disk) }
    {
        self.link.peek(disk)
    }

    /// Takes the next fate of a message to the disk.
    fn take_fate(&mut self, disk: u32)
        requires { IsDiskOf self.old.planned disk }
        ensures { self.new ≡ record self.old { planned = with_fates self.old.planned disk (drop 1 (fates_of self.old.planned disk)) } }
    {
        self.link.next(disk);
    }

    /// Adds what comes late, for which there is room. Takes no memory.
    fn post(&mut self, late: Option<LateItem>)
        requires { 1 ≤ self.old.late.spare }
        ensures rest { self.new ≡ record self.old { late = self.new.late } }
        ensures added { self.new.late.items ≡ self.old.late.items ++ option_to_list late }
    {
        if let Some(item) = late {
            let done = self.late.push(item);
            if done.is_err() {
                unreachable!();
            }
        }
    }

    /// The clock goes on by ten ticks.
    fn wait(&mut self)
        requires { self.old.time ≤ last_time }
        ensures { self.new ≡ record self.old { time = min (self.old.time + 10) last_time } }
    {
        self.time = later(self.time, 10);
    }

    /// Ends a send: its fate is taken, what comes late of it is added, and the history tells of it. Takes no memory.
    fn end_send(
        &mut self,
        disk: u32,
        request: TraceRequest,
        late: Option<LateItem>,
        reply: TraceReply,
    )
        requires on { IsDiskOf self.old.planned disk }
        requires late { 1 ≤ self.old.late.spare }
        requires room { 1 ≤ self.old.history.spare }
        ensures { EndsSend disk request reply (option_to_list late) self.old self.new }
    {
        self.take_fate(disk);
        self.post(late);
        self.note(TraceEvent::Send { request }, reply);
    }

    /// Has a request handled.
    ///
    /// # Errors
    ///
    /// `Memory`; then nothing is done but that a log that was shut may be started.
    fn handle(&mut self, request: &Request) -> Result<Answer, StepFault>
        requires ready { IsReady H.seen H.File.seen request.now self.old }
        ensures { HandlesBy H.seen H.File.seen request.now result self.old self.new }
    {
        match self.serve(request) {
            Ok(answer) => Ok(answer),
            Err(_) => Err(StepFault::Memory),
        }
    }

    /// Has a request handled, and hears the answer to it.
    ///
    /// # Errors
    ///
    /// `Memory`; then nothing is heard, and nothing is done but that a log that was shut may be started.
    fn serve_and_hear(&mut self, request: &Request) -> Result<Answer, StepFault>
        requires ready { IsReady H.seen H.File.seen request.now self.old }
        ensures { HearsBy H.seen H.File.seen request.now result self.old self.new }
    {
        let answer = self.handle(request)?;
        match self.hear(request, &answer) {
            Ok(()) => Ok(answer),
            Err(fault) => Err(fault),
        }
    }
}

/// A message by its fate.
impl<H: Shelf> Parts<H> {
    /// The request may not be sent.
    fn bar(&mut self, request: &Request) -> Reply
        requires ready { IsReady H.seen H.File.seen request.now self.old }
        requires barred { IsBarred H.seen H.File.seen request.now self.old }
        ensures { Takes H.seen H.File.seen 1 self.old self.new (events.Send request.now) (Ok result) }
    {
        let request = request_kept(request);
        self.note(TraceEvent::Send { request }, TraceReply::Barred);
        Reply::Barred
    }

    /// It is never handled.
    fn lose(&mut self, request: &Request) -> Reply
        requires ready { IsReady H.seen H.File.seen request.now self.old }
        requires sendable { MaySend H.seen H.File.seen request.now self.old }
        requires fate { next_of (fates_of self.old.planned (disk_of request.now)) ≡ fates.Lose }
        ensures { Takes H.seen H.File.seen 1 self.old self.new (events.Send request.now) (Ok result) }
    {
        let kept = request_kept(request);
        self.end_send(disk_of(request), kept, None, TraceReply::Unheard);
        Reply::Unheard
    }

    /// It is handled later.
    fn delay(&mut self, request: Request) -> Reply
        requires ready { IsReady H.seen H.File.seen request self.old }
        requires sendable { MaySend H.seen H.File.seen request self.old }
        requires fate { next_of (fates_of self.old.planned (disk_of request)) ≡ fates.LateRequest }
        ensures { Takes H.seen H.File.seen 1 self.old self.new (events.Send request) (Ok result) }
    {
        let kept = request_kept(&request);
        let disk = disk_of(&request);
        self.end_send(
            disk,
            kept,
            Some(LateItem::Request(request)),
            TraceReply::Unheard,
        );
        Reply::Unheard
    }

    /// It is handled, and its answer is never heard.
    fn lose_reply(&mut self, request: &Request) -> Result<Reply, StepFault>
        requires ready { IsReady H.seen H.File.seen request.now self.old }
        requires sendable { MaySend H.seen H.File.seen request.now self.old }
        requires fate { next_of (fates_of self.old.planned (disk_of request.now)) ≡ fates.LoseReply }
        ensures { Takes H.seen H.File.seen 1 self.old self.new (events.Send request.now) result }
    {
        self.handle(request)?;
        let kept = request_kept(request);
        self.end_send(disk_of(request), kept, None, TraceReply::Unheard);
        Ok(Reply::Unheard)
    }

    /// It is handled, and its answer is heard later.
    fn delay_reply(&mut self, request: Request) -> Result<Reply, StepFault>
        requires ready { IsReady H.seen H.File.seen request self.old }
        requires sendable { MaySend H.seen H.File.seen request self.old }
        requires fate { next_of (fates_of self.old.planned (disk_of request)) ≡ fates.LateReply }
        ensures { Takes H.seen H.File.seen 1 self.old self.new (events.Send request) result }
    {
        let answer = self.handle(&request)?;
        let kept = request_kept(&request);
        let disk = disk_of(&request);
        self.end_send(
            disk,
            kept,
            Some(LateItem::Answer { request, answer }),
            TraceReply::Unheard,
        );
        Ok(Reply::Unheard)
    }

    /// It is handled, and its answer is heard.
    fn pass(&mut self, request: &Request) -> Result<Reply, StepFault>
        requires ready { IsReady H.seen H.File.seen request.now self.old }
        requires sendable { MaySend H.seen H.File.seen request.now self.old }
        requires fate { next_of (fates_of self.old.planned (disk_of request.now)) ≡ fates.Pass }
        ensures { Takes H.seen H.File.seen 1 self.old self.new (events.Send request.now) result }
    {
        let answer = self.serve_and_hear(request)?;
        let reply = Reply::Heard { answer };
        self.end_send(disk_of(request), request_kept(request), None, reply.kept());
        Ok(reply)
    }

    /// It is handled and heard, and handled once more later.
    fn repeat(&mut self, request: Request) -> Result<Reply, StepFault>
        requires ready { IsReady H.seen H.File.seen request self.old }
        requires sendable { MaySend H.seen H.File.seen request self.old }
        requires fate { next_of (fates_of self.old.planned (disk_of request)) ≡ fates.Again }
        ensures { Takes H.seen H.File.seen 1 self.old self.new (events.Send request) result }
    {
        let answer = self.serve_and_hear(&request)?;
        let reply = Reply::Heard { answer };
        let kept = request_kept(&request);
        let disk = disk_of(&request);
        self.end_send(disk, kept, Some(LateItem::Request(request)), reply.kept());
        Ok(reply)
    }

    /// It is handled and heard after ten ticks.
    fn slow_down(&mut self, request: &Request) -> Result<Reply, StepFault>
        requires ready { IsReady H.seen H.File.seen request.now self.old }
        requires sendable { MaySend H.seen H.File.seen request.now self.old }
        requires fate { next_of (fates_of self.old.planned (disk_of request.now)) ≡ fates.Slow }
        ensures { Takes H.seen H.File.seen 1 self.old self.new (events.Send request.now) result }
    {
        let answer = self.serve_and_hear(request)?;
        let reply = Reply::Heard { answer };
        self.wait();
        self.end_send(disk_of(request), request_kept(request), None, reply.kept());
        Ok(reply)
    }

    /// Sends a request, by the next fate of its disk.
    fn send_by_fate(&mut self, request: Request) -> Result<Reply, StepFault>
        requires ready { IsReady H.seen H.File.seen request self.old }
        requires sendable { MaySend H.seen H.File.seen request self.old }
        ensures { Takes H.seen H.File.seen 1 self.old self.new (events.Send request) result }
    {
        match self.next_fate(disk_of(&request)) {
            Fate::Pass => self.pass(&request),
            Fate::Lose => Ok(self.lose(&request)),
            Fate::LoseReply => self.lose_reply(&request),
            Fate::LateReply => self.delay_reply(request),
            Fate::LateRequest => Ok(self.delay(request)),
            Fate::Again => self.repeat(request),
            Fate::Slow => self.slow_down(&request),
        }
    }

    /// Sends a request, where there is room for its message.
    fn send_with_room(&mut self, request: Request) -> Result<Reply, StepFault>
        requires ready { IsReady H.seen H.File.seen request self.old }
        ensures { Takes H.seen H.File.seen 1 self.old self.new (events.Send request) result }
    {
        if self.may_send(&request) {
            self.send_by_fate(request)
        } else {
            Ok(self.bar(&request))
        }
    }

    /// Sends a request to its unit, where the log is started.
    ///
    /// # Errors
    ///
    /// `Memory`; then nothing is done but that a unit's log that was shut may be started.
    pub(crate) fn send(&mut self, request: Request) -> Result<Reply, StepFault>
        requires sound { IsSound H.seen H.File.seen self.old }
        requires room { HasRoom H.seen H.File.seen 2 self.old }
        requires open { IsSome self.old.entry.book.log.end }
        requires fits { FitsEvent (origin_of H.seen H.File.seen self.old) (events.Send request) }
        ensures { Takes H.seen H.File.seen 1 self.old self.new (events.Send request) result }
    {
        self.reserve_message()?;
        self.send_with_room(request)
    }
}
