//! Tasks of a volume that stands in for a whole one.

ghost use Rattle.std.specs.Prelude.{◌≡◌, ◌≤◌, false, true, None, Some, IfOk};
ghost use Rattle.unit_id.specs.declared.request.Request.{Request as RequestView};
ghost use Rattle.unit_id.specs.declared.request.Request.TheVariants as requests;
ghost use Rattle.volume_world.specs.Trace.{request_kept};
ghost use Rattle.migrate_task.specs.TaskParts.{IsTaskOf};
ghost use Rattle.migrate_task.specs.StandIn.{IsAnswer, stand_home, stand_moves, stand_origin, stand_seen, stand_units, stand_view};

use crate::{Stage, TaskFault, Why, advance};
use code_mode::Mode;
use disk_base::NoMemory;
use rs_code::Coder;
use std::alloc::Global;
use std::test::Fail;
use unit_id::{
    Answer, Bids, Bytes, Home, Homes, Kind, Move, Moves, Request, Target, Targets, Task, UnitName,
};
use volume_entry::{LockView, View};
use volume_world::{
    Event, Port, Reply, StepFault, Trace, TraceAnswer, TraceEvent, TraceReply, TraceRequest,
};

/// The blob that the units may keep.
const BID: u64 = 5;

/// The length of its shards in bytes, each of which is `BYTE`: values of a curve that is the same at each point.
const SHARD: usize = 2048;

const BYTE: u8 = 7;

/// How many entries a history takes.
const LONGEST: usize = 4_294_967_293;

/// What a look shows.
#[derive(Clone, Copy)]
enum Sight {
    Free,
    OtherTask,
    BrokenDest,
    Swapped,
}

/// What the manager makes of a lock.
#[derive(Clone, Copy)]
enum Locking {
    Granted,
    LeaseRuns,
    EpochSpent,
}

/// What the units list of the blob, and whether the first one has its shard.
#[derive(Clone, Copy)]
enum Blob {
    Nowhere,
    Live,
    Lacking,
    Marked,
}

/// Six units on disks 1 to 6, and destinations on others. Nothing comes from disk `lost`, and no answer of use from
/// disk `sick`; disk 0 is none. Units on the first `listing` disks are heard to list.
#[derive(Drop)]
struct Units {
    alloc: Global,
    sight: Sight,
    locking: Locking,
    blob: Blob,
    lost: u32,
    sick: u32,
    listing: u32,
    has_copy: bool,
}

/// A volume of these units, and its history.
#[derive(Drop)]
struct StandIn {
    entries: Vec<Trace>,
    units: Units,
}

fn unit_name(index: u8, epoch: u32) -> UnitName
    requires { (1 ≤ epoch) × (epoch ≤ 2) }
    ensures { result ≡ record { vid = 1; index = index; epoch = epoch } }
{
    UnitName {
        vid: 1,
        index,
        epoch,
    }
}

fn home(index: u8, epoch: u32, disk: u32) -> Home
    requires { (1 ≤ epoch) × (epoch ≤ 2) }
    ensures { result ≡ stand_home index epoch disk }
{
    Home {
        unit: unit_name(index, epoch),
        disk,
        broken: false,
    }
}

fn homes(epoch: u32, disk: u32) -> Homes
    requires { (1 ≤ epoch) × (epoch ≤ 2) }
    ensures { result ≡ stand_units epoch disk }
{
    let mut homes = Homes::empty();
    homes.push(home(0, epoch, disk));
    homes.push(home(1, 1, 2));
    homes.push(home(2, 1, 3));
    homes.push(home(3, 1, 4));
    homes.push(home(4, 1, 5));
    homes.push(home(5, 1, 6));
    homes
}

fn moves(epoch: u32, disk: u32, dest_broken: bool) -> Moves
    requires { (1 ≤ epoch) × (epoch ≤ 2) }
    ensures { result ≡ stand_moves epoch disk dest_broken }
{
    let mut moves = Moves::empty();
    moves.push(Move {
        index: 0,
        unit: unit_name(0, epoch),
        disk,
        dest_broken,
    });
    moves
}

fn view(held: Option<LockView>, units: Homes) -> View
    ensures { result ≡ stand_seen held units }
{
    View {
        now: 0,
        version: 1,
        lease: 0,
        held,
        units,
    }
}

/// A volume that no task has locked.
fn free() -> View
    ensures { result ≡ stand_seen None (stand_units 1 1) }
{
    view(None, homes(1, 1))
}

/// A volume that this task has locked, to move its first unit to disk 7.
fn locked_by(task: u64, dest_broken: bool) -> View
    ensures { result ≡ stand_seen (Some (record { task = task; lock = 1; moves = stand_moves 2 7 dest_broken; swapped = false })) (stand_units 1 1) }
{
    let moves = moves(2, 7, dest_broken);
    let lock = LockView {
        task,
        lock: 1,
        moves,
        swapped: false,
    };
    view(Some(lock), homes(1, 1))
}

/// A volume whose first unit stands on disk 7, and whose lock isn't given free yet.
fn swapped() -> View
    ensures { result ≡ stand_seen (Some (record { task = 7; lock = 1; moves = stand_moves 1 1 false; swapped = true })) (stand_units 2 7) }
{
    let moves = moves(1, 1, false);
    let lock = LockView {
        task: 7,
        lock: 1,
        moves,
        swapped: true,
    };
    view(Some(lock), homes(2, 7))
}

/// An event that is answered by the same reply, as the history keeps both.
fn plain(event: TraceEvent, reply: TraceReply) -> Trace
    ensures { result ≡ record { event = event; reply = reply } }
{
    Trace { event, reply }
}

/// The reply to a lock that is granted, or to another disk.
fn granted(event: TraceEvent, disk: u32) -> (Reply, Trace)
    ensures reply { result.0 ≡ Reply.Granted 1 (stand_moves 2 disk false) }
    ensures trace { result.1 ≡ record { event = event; reply = TraceReply.Granted 1 (stand_moves 2 disk false) } }
{
    let kept = moves(2, disk, false);
    let moves = moves(2, disk, false);
    (
        Reply::Granted { lock: 1, moves },
        plain(
            event,
            TraceReply::Granted {
                lock: 1,
                moves: kept,
            },
        ),
    )
}

/// The reply to a look that shows this, and keeps it.
fn seen(view: View, kept: View) -> (Reply, Trace)
    ensures reply { result.0 ≡ Reply.Seen view }
    ensures trace { result.1 ≡ record { event = TraceEvent.Look; reply = TraceReply.Seen kept } }
{
    (
        Reply::Seen { view },
        plain(TraceEvent::Look, TraceReply::Seen { view: kept }),
    )
}

/// Whether these bytes are a shard of the blob.
fn is_shard(bytes: &Bytes) -> bool {
    bytes.len() == SHARD && bytes.as_slice().iter().all(|byte| *byte == BYTE)
}

/// A list of the blob, or of none.
fn bids(alloc: Global, has_blob: bool) -> Result<Bids, NoMemory> {
    let mut bids = Vec::new(alloc);
    if has_blob {
        bids.push(BID)?;
    }
    Ok(Bids::from_vec(bids))
}

impl Units {
    /// The reply to a look.
    fn looked(&self) -> (Reply, Trace)
        ensures { IsAnswer Event.Look result.0 result.1 }
    {
        match self.sight {
            Sight::Free => seen(free(), free()),
            Sight::OtherTask => seen(locked_by(9, false), locked_by(9, false)),
            Sight::BrokenDest => seen(locked_by(7, true), locked_by(7, true)),
            Sight::Swapped => seen(swapped(), swapped()),
        }
    }

    /// The reply to a lock.
    fn locked(&self, task: u64, targets: Targets) -> (Reply, Trace)
        ensures { IsAnswer (Event.Lock task targets) result.0 result.1 }
    {
        let event = TraceEvent::Lock { task, targets };
        match self.locking {
            Locking::Granted => granted(event, 7),
            Locking::LeaseRuns => (
                Reply::LeaseRuns { end: 10 },
                plain(event, TraceReply::LeaseRuns { end: 10 }),
            ),
            Locking::EpochSpent => (Reply::EpochSpent, plain(event, TraceReply::EpochSpent)),
        }
    }

    /// The reply to a request that asks for nothing back.
    fn replied(&self, request: TraceRequest, disk: u32) -> (Reply, Trace)
        ensures { (asked : RequestView) → request_kept asked ≡ request → IsAnswer (Event.Send asked) result.0 result.1 }
    {
        let event = TraceEvent::Send { request };
        if disk == self.lost {
            return (Reply::Unheard, plain(event, TraceReply::Unheard));
        }
        if disk == self.sick {
            let answer = TraceAnswer::NoUnit;
            return (
                Reply::Heard {
                    answer: Answer::NoUnit,
                },
                plain(event, TraceReply::Heard { answer }),
            );
        }
        let answer = TraceAnswer::Done;
        (
            Reply::Heard {
                answer: Answer::Done,
            },
            plain(event, TraceReply::Heard { answer }),
        )
    }

    /// Whether the unit on this disk lists the blob as live.
    fn has_live(&self, disk: u32) -> bool {
        match self.blob {
            Blob::Live => disk <= 6,
            Blob::Lacking => 2 <= disk && disk <= 6,
            _ => false,
        }
    }

    /// Whether the unit on this disk lists the blob as marked.
    fn has_mark(&self, disk: u32) -> bool {
        match self.blob {
            Blob::Marked => disk <= 6,
            _ => false,
        }
    }

    /// The reply to a listing.
    fn listed(&self, unit: UnitName, disk: u32, lock: u64) -> Result<(Reply, Trace), NoMemory>
        ensures { IfOk result (λ given. IsAnswer (Event.Send (requests.List unit disk lock)) given.0 given.1) }
    {
        let request = TraceRequest::List { unit, disk, lock };
        let event = TraceEvent::Send { request };
        if disk > self.listing && disk <= 6 {
            return Ok((Reply::Unheard, plain(event, TraceReply::Unheard)));
        }
        let live = bids(self.alloc, self.has_live(disk))?;
        let marked = bids(self.alloc, self.has_mark(disk))?;
        let answer = TraceAnswer::Listing { lock };
        Ok((
            Reply::Heard {
                answer: Answer::Listing { lock, live, marked },
            },
            plain(event, TraceReply::Heard { answer }),
        ))
    }

    /// The reply to a read.
    fn read(&self, unit: UnitName, disk: u32, bid: u64) -> Result<(Reply, Trace), NoMemory>
        ensures { IfOk result (λ given. IsAnswer (Event.Send (requests.Read unit disk bid)) given.0 given.1) }
    {
        let request = TraceRequest::Read { unit, disk, bid };
        let event = TraceEvent::Send { request };
        if !self.has_live(disk) {
            let answer = TraceAnswer::Absent;
            return Ok((
                Reply::Heard {
                    answer: Answer::Absent,
                },
                plain(event, TraceReply::Heard { answer }),
            ));
        }
        let bytes = Bytes::from_vec([BYTE; 2048].as_slice().to_vec(self.alloc)?);
        let blob_size = 6144;
        let answer = TraceAnswer::Live { blob_size };
        Ok((
            Reply::Heard {
                answer: Answer::Live { blob_size, bytes },
            },
            plain(event, TraceReply::Heard { answer }),
        ))
    }

    /// The reply to a copy, which is looked at.
    fn copied(
        &mut self,
        unit: UnitName,
        disk: u32,
        bid: u64,
        blob_size: u32,
        bytes: Bytes,
    ) -> (Reply, Trace)
        ensures { IsAnswer (Event.Send (requests.Copy unit disk bid blob_size bytes)) result.0 result.1 }
    {
        self.has_copy = is_shard(&bytes);
        let request = TraceRequest::Copy {
            unit,
            disk,
            bid,
            blob_size,
        };
        self.replied(request, disk)
    }

    /// The reply to a request; none to those that no task sends.
    fn sent(&mut self, request: Request) -> Result<(Reply, Trace), NoMemory>
        ensures { IfOk result (λ given. IsAnswer (Event.Send request) given.0 given.1) }
    {
        match request {
            Request::Create { unit, disk } => {
                Ok(self.replied(TraceRequest::Create { unit, disk }, disk))
            }
            Request::Fence { unit, disk, lock } => {
                Ok(self.replied(TraceRequest::Fence { unit, disk, lock }, disk))
            }
            Request::List { unit, disk, lock } => self.listed(unit, disk, lock),
            Request::Read { unit, disk, bid } => self.read(unit, disk, bid),
            Request::Copy {
                unit,
                disk,
                bid,
                blob_size,
                bytes,
            } => Ok(self.copied(unit, disk, bid, blob_size, bytes)),
            Request::Mark { unit, disk, bid } => {
                Ok(self.replied(TraceRequest::Mark { unit, disk, bid }, disk))
            }
            Request::Release { unit, disk } => {
                Ok(self.replied(TraceRequest::Release { unit, disk }, disk))
            }
            _ => Err(NoMemory),
        }
    }

    /// The reply to an event, and the entry of both; none to events that no task asks for.
    fn answered(&mut self, event: Event) -> Result<(Reply, Trace), NoMemory>
        ensures { IfOk result (λ given. IsAnswer event given.0 given.1) }
    {
        match event {
            Event::Look => Ok(self.looked()),
            Event::Lock { task, targets } => Ok(self.locked(task, targets)),
            Event::Retarget { task, index, disk } => {
                Ok(granted(TraceEvent::Retarget { task, index, disk }, 8))
            }
            Event::Send { request } => self.sent(request),
            Event::Swap { task } => Ok((
                Reply::Done,
                plain(TraceEvent::Swap { task }, TraceReply::Done),
            )),
            Event::Unlock { task } => Ok((
                Reply::Done,
                plain(TraceEvent::Unlock { task }, TraceReply::Done),
            )),
            _ => Err(NoMemory),
        }
    }
}

impl Port for StandIn {
    ghost seen = { λ port. stand_view port.entries.items };

    fn step(&mut self, event: Event) -> Result<Reply, StepFault> {
        if self.entries.len() >= LONGEST {
            return Err(StepFault::HistoryFull);
        }
        let (reply, trace) = self.units.answered(event)?;
        self.entries.push(trace)?;
        Ok(reply)
    }

    fn mode(&self) -> Mode {
        Mode::Ec3P3
    }

    fn vid(&self) -> u32 {
        1
    }

    fn is_way(&self) {
        let _ = &self.entries;
    }
}

/// A volume without a lock, whose units keep nothing, and of which everything is heard.
fn stand_in(alloc: Global) -> StandIn {
    let units = Units {
        alloc,
        sight: Sight::Free,
        locking: Locking::Granted,
        blob: Blob::Nowhere,
        lost: 0,
        sick: 0,
        listing: 6,
        has_copy: false,
    };
    StandIn {
        entries: Vec::new(alloc),
        units,
    }
}

/// A task that moves the first unit to this disk; disk 0 is none.
fn task_to(alloc: Global, disk: u32) -> Result<Task, NoMemory>
    requires { disk ≤ 8 }
    ensures { IfOk result (IsTaskOf stand_origin) }
{
    let mut targets = Vec::new(alloc);
    targets.push(Target { index: 0, disk })?;
    Ok(Task {
        id: 7,
        kind: Kind::Balance,
        vid: 1,
        targets: Targets::from_vec(targets),
    })
}

/// What a call came to, for the tables.
#[derive(Clone, Copy, Debug, PartialEq, Eq)]
enum Outcome {
    Moved { epoch: u32, disk: u32 },
    Waits(Why),
    EpochSpent,
    Other,
}

fn moved(units: &[Home]) -> Outcome {
    if units.len() != 1 {
        return Outcome::Other;
    }
    let home = units[0];
    let unit = home.unit;
    Outcome::Moved {
        epoch: unit.epoch,
        disk: home.disk,
    }
}

fn outcome_of(stage: Result<Stage, TaskFault>) -> Outcome {
    match stage {
        Ok(Stage::Done { units }) => moved(units.as_slice()),
        Ok(Stage::Waits(why)) => Outcome::Waits(why),
        Err(TaskFault::EpochSpent) => Outcome::EpochSpent,
        Err(_) => Outcome::Other,
    }
}

/// A call of the task that moves the first unit to this disk.
fn advance_to(alloc: Global, port: &mut StandIn, disk: u32) -> Outcome {
    if disk > 8 {
        return Outcome::Other;
    }
    let Ok(mut coder) = Coder::new(alloc, 3, 3, 16) else {
        return Outcome::Other;
    };
    let Ok(task) = task_to(alloc, disk) else {
        return Outcome::Other;
    };
    outcome_of(advance(alloc, port, &mut coder, &task))
}

/// A call over a volume that keeps so much of the blob: its outcome, how many events it asked for, and whether the
/// destination got the shard.
fn advance_with(alloc: Global, blob: Blob) -> (Outcome, usize, bool) {
    let mut port = stand_in(alloc);
    port.units.blob = blob;
    let outcome = advance_to(alloc, &mut port, 7);
    (outcome, port.entries.len(), port.units.has_copy)
}

/// A call over a volume that shows this: its outcome, and how many events it asked for.
fn advance_at(alloc: Global, sight: Sight, disk: u32) -> (Outcome, usize) {
    let mut port = stand_in(alloc);
    port.units.sight = sight;
    let outcome = advance_to(alloc, &mut port, disk);
    (outcome, port.entries.len())
}

/// A call over a volume whose lock ends so.
fn advance_under(alloc: Global, locking: Locking) -> (Outcome, usize) {
    let mut port = stand_in(alloc);
    port.units.locking = locking;
    let outcome = advance_to(alloc, &mut port, 7);
    (outcome, port.entries.len())
}

/// A call over a volume with these disks lost and sick, of which so many list.
fn advance_past(alloc: Global, lost: u32, sick: u32, listing: u32) -> (Outcome, usize) {
    let mut port = stand_in(alloc);
    port.units.lost = lost;
    port.units.sick = sick;
    port.units.listing = listing;
    let outcome = advance_to(alloc, &mut port, 7);
    (outcome, port.entries.len())
}

#[test]
fn blobs_are_copied_rebuilt_and_marked(rt: HostRuntime) {
    let alloc = rt.alloc();
    let done = Outcome::Moved { epoch: 2, disk: 7 };
    let table = [
        (Blob::Nowhere, 14, false),
        (Blob::Live, 16, true),
        (Blob::Lacking, 19, true),
        (Blob::Marked, 15, false),
    ];
    for (blob, asked, has_copy) in table {
        assert_eq!(rt; advance_with(alloc, blob), (done, asked, has_copy));
    }
}

#[test]
fn tasks_go_on_from_what_is_seen(rt: HostRuntime) {
    let alloc = rt.alloc();
    let table = [
        (Sight::Free, 0, Outcome::Waits(Why::NoDisk), 1),
        (
            Sight::OtherTask,
            7,
            Outcome::Waits(Why::Locked { task: 9 }),
            1,
        ),
        (Sight::BrokenDest, 7, Outcome::Waits(Why::DestBroken), 1),
        (
            Sight::BrokenDest,
            8,
            Outcome::Moved { epoch: 2, disk: 8 },
            14,
        ),
        (Sight::Swapped, 7, Outcome::Moved { epoch: 2, disk: 7 }, 3),
    ];
    for (sight, disk, outcome, asked) in table {
        assert_eq!(rt; advance_at(alloc, sight, disk), (outcome, asked));
    }
}

#[test]
fn locks_are_refused(rt: HostRuntime) {
    let alloc = rt.alloc();
    let leased = Outcome::Waits(Why::Leased { end: 10 });
    assert_eq!(rt; advance_under(alloc, Locking::LeaseRuns), (leased, 2));
    assert_eq!(rt;
        advance_under(alloc, Locking::EpochSpent),
        (Outcome::EpochSpent, 2)
    );
}

#[test]
fn units_keep_a_task_waiting(rt: HostRuntime) {
    let alloc = rt.alloc();
    let table = [
        (7, 0, 6, Why::Unheard { disk: 7 }, 3),
        (1, 0, 6, Why::Unheard { disk: 1 }, 4),
        (0, 1, 6, Why::Sick { disk: 1 }, 4),
        (0, 0, 3, Why::Short { listed: 3 }, 11),
    ];
    for (lost, sick, listing, why, asked) in table {
        let outcome = Outcome::Waits(why);
        assert_eq!(rt; advance_past(alloc, lost, sick, listing), (outcome, asked));
    }
}
