//! Turns over a volume that stands in for a whole one.

ghost use Rattle.std.specs.Prelude.{◌≡◌, ◌<◌, IfOk};
ghost use Rattle.blob_access.specs.StandIn.{IsAnswer, stand_home, stand_origin, stand_seen, stand_units, stand_view};
ghost use Rattle.unit_id.specs.declared.request.Request.TheVariants as requests;
ghost use Rattle.volume_turns.specs.Session.{AllFitCommands};
ghost use Rattle.volume_turns.specs.Turn.{FitsCommand};

use crate::{VolumeCommand, VolumeRefusal, VolumeReply, play, play_all};
use blob_node::Fate;
use code_mode::{Mode, Payload};
use disk_base::NoMemory;
use object_access::OBJECT_LIMIT;
use rs_code::Coder;
use std::alloc::Global;
use std::test::Fail;
use unit_id::{Answer, Bytes, Home, Homes, Request, UnitName};
use volume_entry::View;
use volume_world::{
    Event, Port, Reply, StepFault, Trace, TraceAnswer, TraceEvent, TraceReply, TraceRequest,
};

/// The number of the first blob.
const FIRST: u64 = 1;

/// How many entries a history takes.
const LONGEST: usize = 4_294_967_293;

/// A shard that a unit keeps.
#[derive(Drop)]
struct Row {
    bid: u64,
    index: u8,
    blob_size: u32,
    bytes: Bytes,
}

/// Six units that hear everything. The blob `refused` was begun before; 0 is none.
#[derive(Drop)]
struct Units {
    alloc: Global,
    rows: Vec<Row>,
    refused: u64,
}

/// A volume of these units, and its history.
#[derive(Drop)]
struct StandIn {
    entries: Vec<Trace>,
    units: Units,
}

fn home(index: u8) -> Home
    requires { index < 6 }
    ensures { result ≡ stand_home 0 index }
{
    let unit = UnitName {
        vid: 1,
        index,
        epoch: 1,
    };
    Home {
        unit,
        disk: u32::from(index) + 1,
        broken: false,
    }
}

fn homes() -> Homes
    ensures { result ≡ stand_units 0 }
{
    let mut homes = Homes::empty();
    homes.push(home(0));
    homes.push(home(1));
    homes.push(home(2));
    homes.push(home(3));
    homes.push(home(4));
    homes.push(home(5));
    homes
}

fn view() -> View
    ensures { result ≡ stand_seen 1 0 }
{
    View {
        now: 0,
        version: 1,
        lease: 10,
        held: None,
        units: homes(),
    }
}

/// An event that is answered by the same reply, as the history keeps both.
fn plain(event: TraceEvent, reply: TraceReply) -> Trace
    ensures { result ≡ record { event = event; reply = reply } }
{
    Trace { event, reply }
}

/// The reply to a lease.
fn leased() -> (Reply, Trace)
    ensures { IsAnswer Event.Lease result.0 result.1 }
{
    (
        Reply::LeaseTo { end: 10 },
        plain(TraceEvent::Lease, TraceReply::LeaseTo { end: 10 }),
    )
}

/// The reply to an end.
fn ended(bid: u64) -> (Reply, Trace)
    ensures { IsAnswer (Event.End bid) result.0 result.1 }
{
    (
        Reply::Acked { accepted: 6 },
        plain(TraceEvent::End { bid }, TraceReply::Acked { accepted: 6 }),
    )
}

/// The reply to a look.
fn looked() -> (Reply, Trace)
    ensures { IsAnswer Event.Look result.0 result.1 }
{
    let kept = view();
    (
        Reply::Seen { view: view() },
        plain(TraceEvent::Look, TraceReply::Seen { view: kept }),
    )
}

impl Units {
    /// The reply to a begin.
    fn begun(&self, bid: u64, payload: Payload) -> (Reply, Trace)
        ensures { IsAnswer (Event.Begin bid payload) result.0 result.1 }
    {
        let event = TraceEvent::Begin { bid, payload };
        if bid == self.refused {
            return (Reply::BeginTwice, plain(event, TraceReply::BeginTwice));
        }
        let units = homes();
        (
            Reply::Begun {
                end: 10,
                units: homes(),
            },
            plain(event, TraceReply::Begun { end: 10, units }),
        )
    }

    /// The reply to a put of a shard, which is kept.
    fn kept(
        &mut self,
        unit: UnitName,
        disk: u32,
        bid: u64,
        blob_size: u32,
        bytes: Bytes,
    ) -> Result<(Reply, Trace), NoMemory>
        ensures { IfOk result (λ given. IsAnswer (Event.Send (requests.Put unit disk bid blob_size bytes)) given.0 given.1) }
    {
        let request = TraceRequest::Put {
            unit,
            disk,
            bid,
            blob_size,
        };
        let event = TraceEvent::Send { request };
        let index = unit.index;
        self.rows.push(Row {
            bid,
            index,
            blob_size,
            bytes,
        })?;
        let answer = Answer::Done;
        let kept = TraceAnswer::Done;
        Ok((
            Reply::Heard { answer },
            plain(event, TraceReply::Heard { answer: kept }),
        ))
    }

    /// The reply to a read.
    fn read(&self, unit: UnitName, disk: u32, bid: u64) -> Result<(Reply, Trace), NoMemory>
        ensures { IfOk result (λ given. IsAnswer (Event.Send (requests.Read unit disk bid)) given.0 given.1) }
    {
        let request = TraceRequest::Read { unit, disk, bid };
        let event = TraceEvent::Send { request };
        let Some(row) = self
            .rows
            .iter()
            .find(|row| row.bid == bid && row.index == unit.index)
        else {
            let answer = Answer::Absent;
            let kept = TraceAnswer::Absent;
            return Ok((
                Reply::Heard { answer },
                plain(event, TraceReply::Heard { answer: kept }),
            ));
        };
        let blob_size = row.blob_size;
        let bytes = Bytes::from_vec(row.bytes.as_slice().to_vec(self.alloc)?);
        let answer = Answer::Live { blob_size, bytes };
        let kept = TraceAnswer::Live { blob_size };
        Ok((
            Reply::Heard { answer },
            plain(event, TraceReply::Heard { answer: kept }),
        ))
    }

    /// The reply to a request; none to those that no put or get sends.
    fn sent(&mut self, request: Request) -> Result<(Reply, Trace), NoMemory>
        ensures { IfOk result (λ given. IsAnswer (Event.Send request) given.0 given.1) }
    {
        match request {
            Request::Put {
                unit,
                disk,
                bid,
                blob_size,
                bytes,
            } => self.kept(unit, disk, bid, blob_size, bytes),
            Request::Read { unit, disk, bid } => self.read(unit, disk, bid),
            _ => Err(NoMemory),
        }
    }

    /// The reply to an event, and the entry of both; none to those of tasks and sweeps.
    fn answered(&mut self, event: Event) -> Result<(Reply, Trace), NoMemory>
        ensures { IfOk result (λ given. IsAnswer event given.0 given.1) }
    {
        match event {
            Event::Lease => Ok(leased()),
            Event::Begin { bid, payload } => Ok(self.begun(bid, payload)),
            Event::Send { request } => self.sent(request),
            Event::End { bid } => Ok(ended(bid)),
            Event::Look => Ok(looked()),
            Event::Tick { by } => Ok((
                Reply::Now { now: 7 },
                plain(TraceEvent::Tick { by }, TraceReply::Now { now: 7 }),
            )),
            Event::Ask { bid } => Ok((
                Reply::NotBegun,
                plain(TraceEvent::Ask { bid }, TraceReply::NotBegun),
            )),
            Event::FlushOne => Ok((
                Reply::NothingLate,
                plain(TraceEvent::FlushOne, TraceReply::NothingLate),
            )),
            _ => self.small(event),
        }
    }

    /// The reply to an event of a disk or of the manager's log.
    fn small(&self, event: Event) -> Result<(Reply, Trace), NoMemory>
        ensures { IfOk result (λ given. IsAnswer event given.0 given.1) }
    {
        match event {
            Event::Break { disk } => Ok((
                Reply::Done,
                plain(TraceEvent::Break { disk }, TraceReply::Done),
            )),
            Event::Plan { disk, fate, count } => Ok((
                Reply::Done,
                plain(TraceEvent::Plan { disk, fate, count }, TraceReply::Done),
            )),
            Event::Restart { disk } => Ok((
                Reply::Spoiled { place: 8 },
                plain(
                    TraceEvent::Restart { disk },
                    TraceReply::Spoiled { place: 8 },
                ),
            )),
            Event::RestartManager => Ok((
                Reply::Done,
                plain(TraceEvent::RestartManager, TraceReply::Done),
            )),
            _ => Err(NoMemory),
        }
    }
}

impl Port for StandIn {
    ghost seen = { λ port. stand_view port.entries.items };

    fn step(&mut self, event: Event) -> Result<Reply, StepFault> {
        if self.entries.len() >= LONGEST {
            return Err(StepFault::HistoryFull);
        }
        let (reply, trace) = self.units.answered(event)?;
        self.entries.push(trace)?;
        Ok(reply)
    }

    fn mode(&self) -> Mode {
        Mode::Ec3P3
    }

    fn vid(&self) -> u32 {
        1
    }

    fn is_way(&self) {
        let _ = &self.entries;
    }
}

/// A volume whose six units keep nothing yet, and refuse this blob.
fn stand_in(alloc: Global, refused: u64) -> StandIn {
    let units = Units {
        alloc,
        rows: Vec::new(alloc),
        refused,
    };
    StandIn {
        entries: Vec::new(alloc),
        units,
    }
}

/// What a turn came to, for the tables.
#[derive(Clone, Copy, Debug, PartialEq, Eq)]
enum Outcome {
    Put,
    SameBytes,
    OtherBytes,
    Asked,
    Seen(u64),
    Ticked(u64),
    Broken,
    Planned,
    Flushed(u64),
    Restarted,
    RestartedManager,
    Refused(VolumeRefusal),
    BrokenOff,
    Other,
}

/// What a reply says, its bytes compared with these.
fn outcome_of(reply: VolumeReply, bytes: &[u8]) -> Outcome {
    match reply {
        VolumeReply::Seen { view } => Outcome::Seen(view.lease),
        VolumeReply::Put => Outcome::Put,
        VolumeReply::Got { bytes: got } => same(&got, bytes),
        VolumeReply::Fetched { bytes: got } => same(&got, bytes),
        VolumeReply::Asked => Outcome::Asked,
        VolumeReply::Ticked { now } => Outcome::Ticked(now),
        VolumeReply::Broken => Outcome::Broken,
        VolumeReply::Planned => Outcome::Planned,
        VolumeReply::Flushed {
            requests,
            answers: _,
        } => Outcome::Flushed(requests),
        VolumeReply::Restarted => Outcome::Restarted,
        VolumeReply::RestartedManager => Outcome::RestartedManager,
        VolumeReply::Refused { refusal } => Outcome::Refused(refusal),
    }
}

fn same(got: &Bytes, bytes: &[u8]) -> Outcome {
    if got.as_slice() == bytes {
        Outcome::SameBytes
    } else {
        Outcome::OtherBytes
    }
}

/// What a command comes to, the bytes that it shows compared with these.
fn played(alloc: Global, port: &mut StandIn, command: &VolumeCommand, bytes: &[u8]) -> Outcome
    requires { FitsCommand stand_origin command.now }
{
    let Ok(mut coder) = Coder::new(alloc, 3, 3, 16) else {
        return Outcome::Other;
    };
    match play(alloc, port, &mut coder, command) {
        Ok(reply) => outcome_of(reply, bytes),
        Err(_) => Outcome::BrokenOff,
    }
}

/// An object of so many bytes that repeat after 251 of them.
fn object(alloc: Global, size: u32) -> Result<Vec<u8>, NoMemory> {
    let mut bytes = Vec::with_capacity(alloc, size as usize)?;
    for place in 0..size {
        bytes.push((place % 251) as u8)?;
    }
    Ok(bytes)
}

/// Puts an object, where it has 1 to `OBJECT_LIMIT` bytes.
fn put_bytes(alloc: Global, port: &mut StandIn, bytes: Vec<u8>) -> Outcome {
    let size = bytes.len();
    if size == 0 || size > OBJECT_LIMIT as usize {
        return Outcome::Other;
    }
    let command = VolumeCommand::Put {
        first: FIRST,
        object: Bytes::from_vec(bytes),
    };
    played(alloc, port, &command, &[])
}

/// Gets an object of as many bytes, where these are 1 to `OBJECT_LIMIT`, and compares them.
fn get_bytes(alloc: Global, port: &mut StandIn, bytes: &[u8]) -> Outcome {
    let size = bytes.len();
    if size == 0 || size > OBJECT_LIMIT as usize {
        return Outcome::Other;
    }
    let command = VolumeCommand::Get {
        first: FIRST,
        size: size as u32,
    };
    played(alloc, port, &command, bytes)
}

/// What the put and the get of an object come to over these units, and how many entries the history has after each.
fn both(
    alloc: Global,
    port: &mut StandIn,
    put: Vec<u8>,
    got: &[u8],
) -> (Outcome, usize, Outcome, usize) {
    let first = put_bytes(alloc, port, put);
    let after_put = port.entries.len();
    let second = get_bytes(alloc, port, got);
    (first, after_put, second, port.entries.len())
}

/// The same of an object of so many bytes, where a blob is refused.
fn put_and_got(alloc: Global, size: u32, refused: u64) -> (Outcome, usize, Outcome, usize) {
    match (object(alloc, size), object(alloc, size)) {
        (Ok(put), Ok(got)) => both(alloc, &mut stand_in(alloc, refused), put, got.as_slice()),
        _ => (Outcome::Other, 0, Outcome::Other, 0),
    }
}

fn once(alloc: Global, command: VolumeCommand) -> Outcome
    requires { FitsCommand stand_origin command }
{
    played(alloc, &mut stand_in(alloc, 0), &command, &[])
}

fn of_the_volume(alloc: Global) -> (Outcome, Outcome, Outcome, Outcome) {
    (
        once(alloc, VolumeCommand::Look),
        once(alloc, VolumeCommand::Tick { by: 3 }),
        once(alloc, VolumeCommand::Flush),
        once(alloc, VolumeCommand::RestartManager),
    )
}

fn of_a_disk(alloc: Global) -> (Outcome, Outcome, Outcome) {
    let plan = VolumeCommand::Plan {
        disk: 1,
        fate: Fate::Lose,
        count: 4,
    };
    (
        once(alloc, VolumeCommand::Break { disk: 6 }),
        once(alloc, plan),
        once(alloc, VolumeCommand::Restart { disk: 2 }),
    )
}

fn of_a_blob(alloc: Global) -> (Outcome, Outcome) {
    (
        once(alloc, VolumeCommand::Ask { bid: 5 }),
        once(alloc, VolumeCommand::Fetch { bid: 5, size: 9 }),
    )
}

/// How many replies these commands have, and how many entries they add.
fn counted(alloc: Global, commands: &[VolumeCommand]) -> (usize, usize)
    requires { AllFitCommands stand_origin commands.now }
{
    let Ok(mut coder) = Coder::new(alloc, 3, 3, 16) else {
        return (0, 0);
    };
    let mut port = stand_in(alloc, 0);
    match play_all(alloc, &mut port, &mut coder, commands) {
        Ok(replies) => (replies.len(), port.entries.len()),
        Err(_) => (0, port.entries.len()),
    }
}

#[test]
fn objects_come_back(rt: HostRuntime) {
    let alloc = rt.alloc();
    let table = [(1, 9, 13), (4_194_304, 9, 13), (4_194_305, 18, 26)];
    for (size, put, got) in table {
        assert_eq!(rt;
            put_and_got(alloc, size, 0),
            (Outcome::Put, put, Outcome::SameBytes, got),
            "at {size}"
        );
    }
}

#[test]
fn the_first_refused_blob_decides(rt: HostRuntime) {
    let alloc = rt.alloc();
    let begun = Outcome::Refused(VolumeRefusal::Begun);
    let short = Outcome::Refused(VolumeRefusal::Short { live: 0 });
    assert_eq!(rt; put_and_got(alloc, 4_194_305, 2), (begun, 11, short, 23));
    assert_eq!(rt; put_and_got(alloc, 4_194_305, 1), (begun, 2, short, 10));
}

#[test]
fn small_commands(rt: HostRuntime) {
    let alloc = rt.alloc();
    let spoiled = Outcome::Refused(VolumeRefusal::Spoiled { place: 8 });
    let unbegun = Outcome::Refused(VolumeRefusal::NotBegun);
    let short = Outcome::Refused(VolumeRefusal::Short { live: 0 });
    assert_eq!(rt;
        of_the_volume(alloc),
        (
            Outcome::Seen(10),
            Outcome::Ticked(7),
            Outcome::Flushed(0),
            Outcome::RestartedManager
        )
    );
    assert_eq!(rt;
        of_a_disk(alloc),
        (Outcome::Broken, Outcome::Planned, spoiled)
    );
    assert_eq!(rt; of_a_blob(alloc), (unbegun, short));
}

#[test]
fn commands_in_order(rt: HostRuntime) {
    let alloc = rt.alloc();
    let commands = [
        VolumeCommand::Tick { by: 3 },
        VolumeCommand::Flush,
        VolumeCommand::Tick { by: 1 },
    ];
    assert_eq!(rt; counted(alloc, &commands), (3, 3));
    assert_eq!(rt; counted(alloc, &[]), (0, 0));
}
