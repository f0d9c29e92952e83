//! Puts and gets of a volume that stands in for a whole one.

ghost use Rattle.std.specs.Prelude.{◌≡◌, ◌<◌, IfOk};
ghost use Rattle.blob_access.specs.StandIn.{IsAnswer, stand_home, stand_seen, stand_units, stand_view};
ghost use Rattle.unit_id.specs.declared.request.Request.TheVariants as requests;

use crate::{Acked, GetFault, PutFault, get, put};
use code_mode::{Mode, Payload};
use disk_base::NoMemory;
use rs_code::Coder;
use std::alloc::Global;
use std::test::Fail;
use unit_id::{Answer, Bytes, Home, Homes, Request, UnitName};
use volume_entry::View;
use volume_world::{
    Event, Port, Reply, StepFault, Trace, TraceAnswer, TraceEvent, TraceReply, TraceRequest,
};

/// The blob that is put and got.
const BID: u64 = 5;

/// How many units of six acknowledge a put of three data shards.
const QUORUM: usize = 5;

/// How many entries a history takes.
const LONGEST: usize = 4_294_967_293;

/// What the manager makes of a put.
#[derive(Clone, Copy)]
enum Manner {
    Counts,
    Locked,
    BegunBefore,
    Closed,
    Late,
}

/// A shard that a unit keeps.
#[derive(Drop)]
struct Row {
    index: u8,
    blob_size: u32,
    bytes: Bytes,
}

/// Six units, of which those on the first disks hear requests. Disk `broken` is shown as broken; disk 0 is none.
#[derive(Drop)]
struct Units {
    alloc: Global,
    rows: Vec<Row>,
    hearing: u32,
    broken: u32,
    version: u64,
    moving: bool,
    manner: Manner,
}

/// A volume of these units, and its history.
#[derive(Drop)]
struct StandIn {
    entries: Vec<Trace>,
    units: Units,
}

fn home(broken: u32, index: u8) -> Home
    requires { index < 6 }
    ensures { result ≡ stand_home broken index }
{
    let unit = UnitName {
        vid: 1,
        index,
        epoch: 1,
    };
    let disk = u32::from(index) + 1;
    Home {
        unit,
        disk,
        broken: disk == broken,
    }
}

fn homes(broken: u32) -> Homes
    ensures { result ≡ stand_units broken }
{
    let mut homes = Homes::empty();
    homes.push(home(broken, 0));
    homes.push(home(broken, 1));
    homes.push(home(broken, 2));
    homes.push(home(broken, 3));
    homes.push(home(broken, 4));
    homes.push(home(broken, 5));
    homes
}

fn view(version: u64, broken: u32) -> View
    ensures { result ≡ stand_seen version broken }
{
    View {
        now: 0,
        version,
        lease: 10,
        held: None,
        units: homes(broken),
    }
}

/// An event that is answered by the same reply, as the history keeps both.
fn plain(event: TraceEvent, reply: TraceReply) -> Trace
    ensures { result ≡ record { event = event; reply = reply } }
{
    Trace { event, reply }
}

impl Units {
    /// The reply to a lease.
    fn leased(&self) -> (Reply, Trace)
        ensures { IsAnswer Event.Lease result.0 result.1 }
    {
        if let Manner::Locked = self.manner {
            return (
                Reply::Locked { task: 7 },
                plain(TraceEvent::Lease, TraceReply::Locked { task: 7 }),
            );
        }
        (
            Reply::LeaseTo { end: 10 },
            plain(TraceEvent::Lease, TraceReply::LeaseTo { end: 10 }),
        )
    }

    /// The reply to a begin.
    fn begun(&self, bid: u64, payload: Payload) -> (Reply, Trace)
        ensures { IsAnswer (Event.Begin bid payload) result.0 result.1 }
    {
        let event = TraceEvent::Begin { bid, payload };
        if let Manner::BegunBefore = self.manner {
            return (Reply::BeginTwice, plain(event, TraceReply::BeginTwice));
        }
        let kept = homes(self.broken);
        let units = homes(self.broken);
        (
            Reply::Begun { end: 10, units },
            plain(
                event,
                TraceReply::Begun {
                    end: 10,
                    units: kept,
                },
            ),
        )
    }

    /// The reply to an end that counts the shards which were kept.
    fn counted(&self, bid: u64) -> (Reply, Trace)
        ensures { IsAnswer (Event.End bid) result.0 result.1 }
    {
        let event = TraceEvent::End { bid };
        let accepted = u32::try_from(self.rows.len()).unwrap_or(u32::MAX);
        if self.rows.len() < QUORUM {
            return (
                Reply::Quorum { accepted },
                plain(event, TraceReply::Quorum { accepted }),
            );
        }
        (
            Reply::Acked { accepted },
            plain(event, TraceReply::Acked { accepted }),
        )
    }

    /// The reply to an end.
    fn ended(&self, bid: u64) -> (Reply, Trace)
        ensures { IsAnswer (Event.End bid) result.0 result.1 }
    {
        match self.manner {
            Manner::Closed => (
                Reply::NotOpen,
                plain(TraceEvent::End { bid }, TraceReply::NotOpen),
            ),
            Manner::Late => (
                Reply::LeaseOver { end: 10, now: 12 },
                plain(
                    TraceEvent::End { bid },
                    TraceReply::LeaseOver { end: 10, now: 12 },
                ),
            ),
            _ => self.counted(bid),
        }
    }

    /// The reply to a look.
    fn looked(&mut self) -> (Reply, Trace)
        ensures { IsAnswer Event.Look result.0 result.1 }
    {
        if self.moving {
            self.version = self.version.wrapping_add(1);
        }
        let kept = view(self.version, self.broken);
        let shown = view(self.version, self.broken);
        (
            Reply::Seen { view: shown },
            plain(TraceEvent::Look, TraceReply::Seen { view: kept }),
        )
    }

    /// The reply to a put of a shard, which is kept where its unit hears it.
    fn kept(
        &mut self,
        unit: UnitName,
        disk: u32,
        bid: u64,
        blob_size: u32,
        bytes: Bytes,
    ) -> Result<(Reply, Trace), NoMemory>
        ensures { IfOk result (λ given. IsAnswer (Event.Send (requests.Put unit disk bid blob_size bytes)) given.0 given.1) }
    {
        let request = TraceRequest::Put {
            unit,
            disk,
            bid,
            blob_size,
        };
        let event = TraceEvent::Send { request };
        if disk > self.hearing {
            return Ok((Reply::Unheard, plain(event, TraceReply::Unheard)));
        }
        let index = unit.index;
        self.rows.push(Row {
            index,
            blob_size,
            bytes,
        })?;
        let answer = Answer::Done;
        let kept = TraceAnswer::Done;
        Ok((
            Reply::Heard { answer },
            plain(event, TraceReply::Heard { answer: kept }),
        ))
    }

    /// The reply to a read.
    fn read(&self, unit: UnitName, disk: u32, bid: u64) -> Result<(Reply, Trace), NoMemory>
        ensures { IfOk result (λ given. IsAnswer (Event.Send (requests.Read unit disk bid)) given.0 given.1) }
    {
        let request = TraceRequest::Read { unit, disk, bid };
        let event = TraceEvent::Send { request };
        if disk > self.hearing {
            return Ok((Reply::Unheard, plain(event, TraceReply::Unheard)));
        }
        let Some(row) = self.rows.iter().find(|row| row.index == unit.index) else {
            let answer = Answer::Absent;
            let kept = TraceAnswer::Absent;
            return Ok((
                Reply::Heard { answer },
                plain(event, TraceReply::Heard { answer: kept }),
            ));
        };
        let blob_size = row.blob_size;
        let bytes = Bytes::from_vec(row.bytes.as_slice().to_vec(self.alloc)?);
        let answer = Answer::Live { blob_size, bytes };
        let kept = TraceAnswer::Live { blob_size };
        Ok((
            Reply::Heard { answer },
            plain(event, TraceReply::Heard { answer: kept }),
        ))
    }

    /// The reply to a request; none to those that no put or get sends.
    fn sent(&mut self, request: Request) -> Result<(Reply, Trace), NoMemory>
        ensures { IfOk result (λ given. IsAnswer (Event.Send request) given.0 given.1) }
    {
        match request {
            Request::Put {
                unit,
                disk,
                bid,
                blob_size,
                bytes,
            } => self.kept(unit, disk, bid, blob_size, bytes),
            Request::Read { unit, disk, bid } => self.read(unit, disk, bid),
            _ => Err(NoMemory),
        }
    }

    /// The reply to an event, and the entry of both; none to events that no put or get asks for.
    fn answered(&mut self, event: Event) -> Result<(Reply, Trace), NoMemory>
        ensures { IfOk result (λ given. IsAnswer event given.0 given.1) }
    {
        match event {
            Event::Lease => Ok(self.leased()),
            Event::Begin { bid, payload } => Ok(self.begun(bid, payload)),
            Event::Send { request } => self.sent(request),
            Event::End { bid } => Ok(self.ended(bid)),
            Event::Look => Ok(self.looked()),
            _ => Err(NoMemory),
        }
    }
}

impl Port for StandIn {
    ghost seen = { λ port. stand_view port.entries.items };

    fn step(&mut self, event: Event) -> Result<Reply, StepFault> {
        if self.entries.len() >= LONGEST {
            return Err(StepFault::HistoryFull);
        }
        let (reply, trace) = self.units.answered(event)?;
        self.entries.push(trace)?;
        Ok(reply)
    }

    fn mode(&self) -> Mode {
        Mode::Ec3P3
    }

    fn vid(&self) -> u32 {
        1
    }

    fn is_way(&self) {
        let _ = &self.entries;
    }
}

/// A volume whose six units hear everything and keep nothing yet.
fn stand_in(alloc: Global) -> StandIn {
    let units = Units {
        alloc,
        rows: Vec::new(alloc),
        hearing: 6,
        broken: 0,
        version: 1,
        moving: false,
        manner: Manner::Counts,
    };
    StandIn {
        entries: Vec::new(alloc),
        units,
    }
}

/// What a put came to, for the tables.
#[derive(Clone, Copy, Debug, PartialEq, Eq)]
enum Put {
    Acked(Acked),
    Locked(u64),
    Begun,
    LeaseEnded(u64, u64),
    NotOpen,
    Quorum(u32),
    Other,
}

fn put_outcome(put: Result<Acked, PutFault>) -> Put {
    match put {
        Ok(acked) => Put::Acked(acked),
        Err(PutFault::Locked { task }) => Put::Locked(task),
        Err(PutFault::Begun) => Put::Begun,
        Err(PutFault::LeaseEnded { end, now }) => Put::LeaseEnded(end, now),
        Err(PutFault::NotOpen) => Put::NotOpen,
        Err(PutFault::Quorum { accepted }) => Put::Quorum(accepted),
        Err(_) => Put::Other,
    }
}

/// A put of five bytes.
fn put_hello(alloc: Global, port: &mut StandIn) -> Put {
    let Ok(mut coder) = Coder::new(alloc, 3, 3, 16) else {
        return Put::Other;
    };
    let Ok(bytes) = b"hello".to_vec(alloc) else {
        return Put::Other;
    };
    let payload = Payload::Plain(Bytes::from_vec(bytes));
    put_outcome(put(alloc, port, &mut coder, BID, payload))
}

/// A put to a volume of which so many units hear: its outcome, and how many events it asked for.
fn put_to(alloc: Global, hearing: u32, manner: Manner) -> (Put, usize) {
    let mut port = stand_in(alloc);
    port.units.hearing = hearing;
    port.units.manner = manner;
    let outcome = put_hello(alloc, &mut port);
    (outcome, port.entries.len())
}

/// What a get came to, for the tables.
#[derive(Clone, Copy, Debug, PartialEq, Eq)]
enum Got {
    Hello,
    OtherBytes,
    Short(u32, u32, u32),
    Size(u32),
    Moving([u64; 5]),
    Other,
}

fn get_outcome(got: Result<Bytes, GetFault>) -> Got {
    match got {
        Ok(blob) => {
            if blob.as_slice() == b"hello".as_slice() {
                Got::Hello
            } else {
                Got::OtherBytes
            }
        }
        Err(
            GetFault::Short {
                live,
                unheard,
                broken,
            },
        ) => Got::Short(live, unheard, broken),
        Err(GetFault::Size { kept }) => Got::Size(kept),
        Err(GetFault::Moving { versions }) => Got::Moving(versions),
        Err(_) => Got::Other,
    }
}

/// A get of a blob of this size, which isn't 0.
fn get_sized(alloc: Global, port: &mut StandIn, size: u8) -> Got {
    let Ok(mut coder) = Coder::new(alloc, 3, 3, 16) else {
        return Got::Other;
    };
    if size == 0 {
        return Got::Other;
    }
    get_outcome(get(alloc, port, &mut coder, BID, u32::from(size)))
}

/// A volume that keeps the blob of five bytes.
fn kept_hello(alloc: Global) -> StandIn {
    let mut port = stand_in(alloc);
    let _outcome = put_hello(alloc, &mut port);
    port
}

/// A get from a volume that keeps the blob, of which so many units hear: its outcome, and how many events it asked for.
fn got_from(alloc: Global, hearing: u32, broken: u32) -> (Got, usize) {
    let mut port = kept_hello(alloc);
    let before = port.entries.len();
    port.units.hearing = hearing;
    port.units.broken = broken;
    let outcome = get_sized(alloc, &mut port, 5);
    (outcome, port.entries.len().wrapping_sub(before))
}

#[test]
fn puts_count_their_acceptances(rt: HostRuntime) {
    let alloc = rt.alloc();
    let end = 10;
    let table = [
        (6, Put::Acked(Acked { accepted: 6, end })),
        (5, Put::Acked(Acked { accepted: 5, end })),
        (4, Put::Quorum(4)),
        (0, Put::Quorum(0)),
    ];
    for (hearing, outcome) in table {
        assert_eq!(rt; put_to(alloc, hearing, Manner::Counts), (outcome, 9));
    }
}

#[test]
fn puts_are_refused(rt: HostRuntime) {
    let alloc = rt.alloc();
    let table = [
        (Manner::Locked, Put::Locked(7), 1),
        (Manner::BegunBefore, Put::Begun, 2),
        (Manner::Closed, Put::NotOpen, 9),
        (Manner::Late, Put::LeaseEnded(10, 12), 9),
    ];
    for (manner, outcome, asked) in table {
        assert_eq!(rt; put_to(alloc, 6, manner), (outcome, asked));
    }
}

#[test]
fn gets_find_enough_shards(rt: HostRuntime) {
    let alloc = rt.alloc();
    let table = [
        (6, 0, Got::Hello, 4),
        (6, 2, Got::Hello, 4),
        (4, 1, Got::Hello, 4),
        (3, 2, Got::Short(2, 3, 1), 7),
        (0, 0, Got::Short(0, 6, 0), 8),
    ];
    for (hearing, broken, outcome, asked) in table {
        assert_eq!(rt; got_from(alloc, hearing, broken), (outcome, asked));
    }
}

#[test]
fn gets_refuse_other_blobs(rt: HostRuntime) {
    let alloc = rt.alloc();
    let mut empty = stand_in(alloc);
    assert_eq!(rt; get_sized(alloc, &mut empty, 5), Got::Short(0, 0, 0));
    let mut kept = kept_hello(alloc);
    assert_eq!(rt; get_sized(alloc, &mut kept, 6), Got::Size(5));
}

#[test]
fn gets_follow_units_that_move(rt: HostRuntime) {
    let alloc = rt.alloc();
    let mut port = kept_hello(alloc);
    port.units.moving = true;
    port.units.hearing = 2;
    assert_eq!(rt;
        get_sized(alloc, &mut port, 5),
        Got::Moving([2, 3, 4, 5, 6])
    );
    port.units.hearing = 6;
    assert_eq!(rt; get_sized(alloc, &mut port, 5), Got::Hello);
}
