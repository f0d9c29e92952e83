//! Objects put to and got from a volume that stands in for a whole one.

ghost use Rattle.std.specs.Prelude.{◌≡◌, ◌<◌, IfOk};
ghost use Rattle.blob_access.specs.StandIn.{IsAnswer, stand_home, stand_seen, stand_units, stand_view};
ghost use Rattle.unit_id.specs.declared.request.Request.TheVariants as requests;

use crate::{OBJECT_LIMIT, blob_count, blob_size, get_object, put_object};
use blob_access::{GetFault, PutFault};
use code_mode::{Mode, Payload};
use disk_base::NoMemory;
use rs_code::Coder;
use std::alloc::Global;
use std::test::Fail;
use unit_id::{Answer, Bytes, Home, Homes, Request, UnitName};
use volume_entry::View;
use volume_world::{
    Event, Port, Reply, StepFault, Trace, TraceAnswer, TraceEvent, TraceReply, TraceRequest,
};

/// The number of the first blob.
const FIRST: u64 = 1;

/// How many entries a history takes.
const LONGEST: usize = 4_294_967_293;

/// A shard that a unit keeps.
#[derive(Drop)]
struct Row {
    bid: u64,
    index: u8,
    blob_size: u32,
    bytes: Bytes,
}

/// Six units that hear everything. The blob `refused` was begun before; 0 is none.
#[derive(Drop)]
struct Units {
    alloc: Global,
    rows: Vec<Row>,
    refused: u64,
}

/// A volume of these units, and its history.
#[derive(Drop)]
struct StandIn {
    entries: Vec<Trace>,
    units: Units,
}

fn home(index: u8) -> Home
    requires { index < 6 }
    ensures { result ≡ stand_home 0 index }
{
    let unit = UnitName {
        vid: 1,
        index,
        epoch: 1,
    };
    Home {
        unit,
        disk: u32::from(index) + 1,
        broken: false,
    }
}

fn homes() -> Homes
    ensures { result ≡ stand_units 0 }
{
    let mut homes = Homes::empty();
    homes.push(home(0));
    homes.push(home(1));
    homes.push(home(2));
    homes.push(home(3));
    homes.push(home(4));
    homes.push(home(5));
    homes
}

fn view() -> View
    ensures { result ≡ stand_seen 1 0 }
{
    View {
        now: 0,
        version: 1,
        lease: 10,
        held: None,
        units: homes(),
    }
}

/// An event that is answered by the same reply, as the history keeps both.
fn plain(event: TraceEvent, reply: TraceReply) -> Trace
    ensures { result ≡ record { event = event; reply = reply } }
{
    Trace { event, reply }
}

/// The reply to a lease.
fn leased() -> (Reply, Trace)
    ensures { IsAnswer Event.Lease result.0 result.1 }
{
    (
        Reply::LeaseTo { end: 10 },
        plain(TraceEvent::Lease, TraceReply::LeaseTo { end: 10 }),
    )
}

/// The reply to an end.
fn ended(bid: u64) -> (Reply, Trace)
    ensures { IsAnswer (Event.End bid) result.0 result.1 }
{
    (
        Reply::Acked { accepted: 6 },
        plain(TraceEvent::End { bid }, TraceReply::Acked { accepted: 6 }),
    )
}

/// The reply to a look.
fn looked() -> (Reply, Trace)
    ensures { IsAnswer Event.Look result.0 result.1 }
{
    let kept = view();
    (
        Reply::Seen { view: view() },
        plain(TraceEvent::Look, TraceReply::Seen { view: kept }),
    )
}

impl Units {
    /// The reply to a begin.
    fn begun(&self, bid: u64, payload: Payload) -> (Reply, Trace)
        ensures { IsAnswer (Event.Begin bid payload) result.0 result.1 }
    {
        let event = TraceEvent::Begin { bid, payload };
        if bid == self.refused {
            return (Reply::BeginTwice, plain(event, TraceReply::BeginTwice));
        }
        let units = homes();
        (
            Reply::Begun {
                end: 10,
                units: homes(),
            },
            plain(event, TraceReply::Begun { end: 10, units }),
        )
    }

    /// The reply to a put of a shard, which is kept.
    fn kept(
        &mut self,
        unit: UnitName,
        disk: u32,
        bid: u64,
        blob_size: u32,
        bytes: Bytes,
    ) -> Result<(Reply, Trace), NoMemory>
        ensures { IfOk result (λ given. IsAnswer (Event.Send (requests.Put unit disk bid blob_size bytes)) given.0 given.1) }
    {
        let request = TraceRequest::Put {
            unit,
            disk,
            bid,
            blob_size,
        };
        let event = TraceEvent::Send { request };
        let index = unit.index;
        self.rows.push(Row {
            bid,
            index,
            blob_size,
            bytes,
        })?;
        let answer = Answer::Done;
        let kept = TraceAnswer::Done;
        Ok((
            Reply::Heard { answer },
            plain(event, TraceReply::Heard { answer: kept }),
        ))
    }

    /// The reply to a read.
    fn read(&self, unit: UnitName, disk: u32, bid: u64) -> Result<(Reply, Trace), NoMemory>
        ensures { IfOk result (λ given. IsAnswer (Event.Send (requests.Read unit disk bid)) given.0 given.1) }
    {
        let request = TraceRequest::Read { unit, disk, bid };
        let event = TraceEvent::Send { request };
        let Some(row) = self
            .rows
            .iter()
            .find(|row| row.bid == bid && row.index == unit.index)
        else {
            let answer = Answer::Absent;
            let kept = TraceAnswer::Absent;
            return Ok((
                Reply::Heard { answer },
                plain(event, TraceReply::Heard { answer: kept }),
            ));
        };
        let blob_size = row.blob_size;
        let bytes = Bytes::from_vec(row.bytes.as_slice().to_vec(self.alloc)?);
        let answer = Answer::Live { blob_size, bytes };
        let kept = TraceAnswer::Live { blob_size };
        Ok((
            Reply::Heard { answer },
            plain(event, TraceReply::Heard { answer: kept }),
        ))
    }

    /// The reply to a request; none to those that no put or get sends.
    fn sent(&mut self, request: Request) -> Result<(Reply, Trace), NoMemory>
        ensures { IfOk result (λ given. IsAnswer (Event.Send request) given.0 given.1) }
    {
        match request {
            Request::Put {
                unit,
                disk,
                bid,
                blob_size,
                bytes,
            } => self.kept(unit, disk, bid, blob_size, bytes),
            Request::Read { unit, disk, bid } => self.read(unit, disk, bid),
            _ => Err(NoMemory),
        }
    }

    /// The reply to an event, and the entry of both; none to events that no put or get asks for.
    fn answered(&mut self, event: Event) -> Result<(Reply, Trace), NoMemory>
        ensures { IfOk result (λ given. IsAnswer event given.0 given.1) }
    {
        match event {
            Event::Lease => Ok(leased()),
            Event::Begin { bid, payload } => Ok(self.begun(bid, payload)),
            Event::Send { request } => self.sent(request),
            Event::End { bid } => Ok(ended(bid)),
            Event::Look => Ok(looked()),
            _ => Err(NoMemory),
        }
    }
}

impl Port for StandIn {
    ghost seen = { λ port. stand_view port.entries.items };

    fn step(&mut self, event: Event) -> Result<Reply, StepFault> {
        if self.entries.len() >= LONGEST {
            return Err(StepFault::HistoryFull);
        }
        let (reply, trace) = self.units.answered(event)?;
        self.entries.push(trace)?;
        Ok(reply)
    }

    fn mode(&self) -> Mode {
        Mode::Ec3P3
    }

    fn vid(&self) -> u32 {
        1
    }

    fn is_way(&self) {
        let _ = &self.entries;
    }
}

/// A volume whose six units keep nothing yet, and refuse this blob.
fn stand_in(alloc: Global, refused: u64) -> StandIn {
    let units = Units {
        alloc,
        rows: Vec::new(alloc),
        refused,
    };
    StandIn {
        entries: Vec::new(alloc),
        units,
    }
}

/// What a put or a get came to, for the tables.
#[derive(Clone, Copy, Debug, PartialEq, Eq)]
enum Outcome {
    Put,
    SameBytes,
    OtherBytes,
    Begun,
    Short(u32),
    Other,
}

/// An object of so many bytes that repeat after 251 of them.
fn object(alloc: Global, size: u32) -> Result<Vec<u8>, NoMemory> {
    let mut bytes = Vec::with_capacity(alloc, size as usize)?;
    for place in 0..size {
        bytes.push((place % 251) as u8)?;
    }
    Ok(bytes)
}

/// Puts an object, where it has 1 to `OBJECT_LIMIT` bytes.
fn put_bytes(alloc: Global, port: &mut StandIn, bytes: &[u8]) -> Outcome {
    let Ok(mut coder) = Coder::new(alloc, 3, 3, 16) else {
        return Outcome::Other;
    };
    let size = bytes.len();
    if size == 0 || size > OBJECT_LIMIT as usize {
        return Outcome::Other;
    }
    match put_object(alloc, port, &mut coder, FIRST, bytes) {
        Ok(()) => Outcome::Put,
        Err(PutFault::Begun) => Outcome::Begun,
        Err(_) => Outcome::Other,
    }
}

/// Gets an object of as many bytes, where these are 1 to `OBJECT_LIMIT`, and compares them.
fn get_bytes(alloc: Global, port: &mut StandIn, bytes: &[u8]) -> Outcome {
    let Ok(mut coder) = Coder::new(alloc, 3, 3, 16) else {
        return Outcome::Other;
    };
    let size = bytes.len();
    if size == 0 || size > OBJECT_LIMIT as usize {
        return Outcome::Other;
    }
    match get_object(alloc, port, &mut coder, FIRST, size as u32) {
        Ok(got) if got.as_slice() == bytes => Outcome::SameBytes,
        Ok(_) => Outcome::OtherBytes,
        Err(
            GetFault::Short {
                live,
                unheard: _,
                broken: _,
            },
        ) => Outcome::Short(live),
        Err(_) => Outcome::Other,
    }
}

/// A put of an object of so many bytes to a volume that refuses this blob, and a get of it: what each came to, and after how many
/// entries.
fn put_and_got(alloc: Global, size: u32, refused: u64) -> (Outcome, usize, Outcome, usize) {
    let mut port = stand_in(alloc, refused);
    let Ok(bytes) = object(alloc, size) else {
        return (Outcome::Other, 0, Outcome::Other, 0);
    };
    let put = put_bytes(alloc, &mut port, bytes.as_slice());
    let after_put = port.entries.len();
    let got = get_bytes(alloc, &mut port, bytes.as_slice());
    (put, after_put, got, port.entries.len())
}

#[test]
fn objects_are_cut(rt: HostRuntime) {
    let table = [
        (1, 1, 1),
        (4_194_304, 1, 4_194_304),
        (4_194_305, 2, 1),
        (8_388_608, 2, 4_194_304),
        (16_777_216, 4, 4_194_304),
    ];
    for (size, count, last) in table {
        assert_eq!(rt; blob_count(size), count, "at {size}");
        assert_eq!(rt; last_size(size), last, "at {size}");
    }
}

/// The size of the last blob of an object.
fn last_size(size: u32) -> u32 {
    match blob_count(size) {
        0 => 0,
        count => blob_size(size, count - 1),
    }
}

#[test]
fn objects_come_back(rt: HostRuntime) {
    let alloc = rt.alloc();
    let table = [(1, 9, 13), (4_194_304, 9, 13), (4_194_305, 18, 26)];
    for (size, put, got) in table {
        assert_eq!(rt;
            put_and_got(alloc, size, 0),
            (Outcome::Put, put, Outcome::SameBytes, got),
            "at {size}"
        );
    }
}

#[test]
fn the_first_refused_blob_decides(rt: HostRuntime) {
    let alloc = rt.alloc();
    assert_eq!(rt;
        put_and_got(alloc, 4_194_305, 2),
        (Outcome::Begun, 11, Outcome::Short(0), 23)
    );
    assert_eq!(rt;
        put_and_got(alloc, 4_194_305, 1),
        (Outcome::Begun, 2, Outcome::Short(0), 10)
    );
}
