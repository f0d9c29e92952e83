//! Putting a blob.

ghost use Rattle.std.specs.Prelude.{ℕ, List, ◌≡◌, ◌≤◌, length, Ok, IfOk};
ghost use Rattle.unit_id.specs.declared.homes.Home.{Home as HomeView};
ghost use Rattle.code_mode.specs.declared.mode.Mode.{Mode as ModeView};
ghost use Rattle.code_mode.specs.declared.payload.Payload.{Payload as PayloadView};
ghost use Rattle.code_mode.specs.declared.stripe.TheConstants.{BLOB_LIMIT};
ghost use Rattle.code_mode.specs.Payload.{payload_bytes};
ghost use Rattle.volume_entry.specs.Manager.{IsBid};
ghost use Rattle.volume_world.specs.Asking.{IsUnitOn};
ghost use Rattle.volume_world.specs.Replying.{AreHomes, RepliesLease, RepliesBegin, RepliesSend, RepliesEnd};
ghost use Rattle.volume_world.specs.Call.{Next};
ghost use Rattle.rs_code.specs.Shape.{shape};
ghost use Rattle.blob_access.specs.Coding.{coder_shape};
ghost use Rattle.volume_world.specs.Way.{Origin};
ghost use Rattle.blob_access.specs.PutCall.{PutStage, put_call, sending, after_lease, after_begin, after_send, after_end, Puts};
ghost use Rattle.blob_access.specs.PutParts.{told, PutsOn, IsPuttable, WasBegun, MaySend};

use crate::PutFault;
use crate::stripe::{copy_shard, shards_of};
use code_mode::Payload;
use rs_code::{Coder, Shards};
use std::alloc::Global;
use unit_id::{Home, Homes, Request};
use volume_world::{Event, Port, Reply};

/// A put that is acknowledged: by how many units, and before which time it had to end.
#[derive(Clone, Copy, Debug, PartialEq, Eq)]
pub struct Acked {
    pub accepted: u32,
    pub end: u64,
}

/// A put that was begun: before which time it has to end, and the units to which its shards go.
#[derive(Drop)]
struct Opened {
    end: u64,
    units: Homes,
}

fn leased(reply: Reply) -> Result<(), PutFault>
    requires { RepliesLease reply }
    ensures { told result (λ _. Next.Go PutStage.Beginning) ≡ after_lease reply }
{
    match reply {
        Reply::LeaseTo { end: _ } => Ok(()),
        Reply::Locked { task } => Err(PutFault::Locked { task }),
        Reply::Fault => Err(PutFault::Fault),
        Reply::Spoiled { place } => Err(PutFault::Spoiled { place }),
        _ => unreachable!(),
    }
}

fn begun(reply: Reply) -> Result<Opened, PutFault>
    requires { (origin : Origin) × RepliesBegin origin reply }
    ensures reply { told result (λ opened. Next.Go (sending opened.end opened.units)) ≡ after_begin reply }
    ensures opened { IfOk result (λ opened. reply ≡ Reply.Begun opened.end opened.units) }
{
    match reply {
        Reply::Begun { end, units } => Ok(Opened { end, units }),
        Reply::Locked { task } => Err(PutFault::Locked { task }),
        Reply::BeginTwice => Err(PutFault::Begun),
        Reply::Fault => Err(PutFault::Fault),
        Reply::Spoiled { place } => Err(PutFault::Spoiled { place }),
        _ => unreachable!(),
    }
}

fn sent(reply: Reply) -> Result<(), PutFault>
    requires { RepliesSend reply }
    ensures { (next : PutStage) → told result (λ _. Next.Go next) ≡ after_send next reply }
{
    match reply {
        Reply::Heard { answer: _ } | Reply::Unheard | Reply::Barred => Ok(()),
        Reply::Fault => Err(PutFault::Fault),
        Reply::Spoiled { place } => Err(PutFault::Spoiled { place }),
        _ => unreachable!(),
    }
}

fn ended(reply: Reply, end: u64) -> Result<Acked, PutFault>
    requires { RepliesEnd reply }
    ensures { told result (λ acked. Next.Over (Ok acked)) ≡ after_end end reply }
{
    match reply {
        Reply::Acked { accepted } => Ok(Acked { accepted, end }),
        Reply::NotOpen => Err(PutFault::NotOpen),
        Reply::LeaseOver { end, now } => Err(PutFault::LeaseEnded { end, now }),
        Reply::Quorum { accepted } => Err(PutFault::Quorum { accepted }),
        Reply::Fault => Err(PutFault::Fault),
        Reply::Spoiled { place } => Err(PutFault::Spoiled { place }),
        _ => unreachable!(),
    }
}

/// Takes a lease of the volume.
fn lease<P: Port>(port: &mut P) -> Result<(), PutFault>
    ensures { (mode : ModeView) (bid : ℕ) (payload : PayloadView)
        → PutsOn (put_call mode bid payload) (P.seen port.old) (P.seen port.new) PutStage.Leasing result (λ _. Next.Go PutStage.Beginning) }
{
    match port.step(Event::Lease) {
        Ok(reply) => leased(reply),
        Err(fault) => Err(PutFault::from(fault)),
    }
}

/// Begins the put.
fn begin<P: Port>(port: &mut P, bid: u64, payload: Payload) -> Result<Opened, PutFault>
    requires { IsPuttable bid (payload_bytes payload) }
    ensures puts { (mode : ModeView) → PutsOn (put_call mode bid payload) (P.seen port.old) (P.seen port.new) PutStage.Beginning result
        (λ opened. Next.Go (sending opened.end opened.units)) }
    ensures homes { IfOk result (λ opened. AreHomes (P.seen port.new).origin opened.units) }
    ensures begun { IfOk result (λ _. WasBegun (P.seen port.new) bid (payload_bytes payload)) }
{
    match port.step(Event::Begin { bid, payload }) {
        Ok(reply) => begun(reply),
        Err(fault) => Err(PutFault::from(fault)),
    }
}

/// Sends one unit its shard.
fn send_shard<P: Port>(
    alloc: Global,
    port: &mut P,
    bid: u64,
    blob: &[u8],
    shards: &Shards,
    home: &Home,
) -> Result<(), PutFault>
    requires may { MaySend (P.seen port.old) bid blob.now shards.now }
    requires home { IsUnitOn (P.seen port.old).origin home.now.unit home.now.disk }
    ensures { (payload : PayloadView) (end : ℕ) (left : List HomeView) → payload_bytes payload ≡ blob.now
        → PutsOn (put_call (P.seen port.old).origin.mode bid payload) (P.seen port.old) (P.seen port.new) (PutStage.Sending end home.now left) result
        (λ _. Next.Go (sending end left)) }
{
    let unit = home.unit;
    let bytes = copy_shard(alloc, port.mode(), blob, shards, unit.index as usize)?;
    let request = Request::Put {
        unit,
        disk: home.disk,
        bid,
        blob_size: blob.len() as u32,
        bytes,
    };
    port.is_way();
    match port.step(Event::Send { request }) {
        Ok(reply) => sent(reply),
        Err(fault) => Err(PutFault::from(fault)),
    }
}

/// Sends each unit its shard, in order of index.
fn send_shards<P: Port>(
    alloc: Global,
    port: &mut P,
    bid: u64,
    blob: &[u8],
    shards: &Shards,
    units: &Homes,
) -> Result<(), PutFault>
    requires may { MaySend (P.seen port.old) bid blob.now shards.now }
    requires homes { AreHomes (P.seen port.old).origin units.now }
    ensures { (payload : PayloadView) (end : ℕ) → payload_bytes payload ≡ blob.now
        → PutsOn (put_call (P.seen port.old).origin.mode bid payload) (P.seen port.old) (P.seen port.new) (sending end units.now) result (λ _. Next.Go (PutStage.Ending end)) }
{
    'units: for home in units.as_slice() {
        send_shard(alloc, port, bid, blob, shards, home)?;
    }
    Ok(())
}

/// Ends the put.
fn finish<P: Port>(port: &mut P, bid: u64, end: u64) -> Result<Acked, PutFault>
    requires { IsBid bid }
    ensures { (mode : ModeView) (payload : PayloadView)
        → PutsOn (put_call mode bid payload) (P.seen port.old) (P.seen port.new) (PutStage.Ending end) result (λ acked. Next.Over (Ok acked)) }
{
    match port.step(Event::End { bid }) {
        Ok(reply) => ended(reply, end),
        Err(fault) => Err(PutFault::from(fault)),
    }
}

/// Puts a blob under a number. It takes a lease, begins the put, sends each unit its shard in order of index, and ends
/// the put, whose reply says whether it is acknowledged. A blob has 1 to `BLOB_LIMIT` bytes, and blob numbers are 1 to 2^62.
///
/// # Errors
///
/// `Locked`, `Begun`, `LeaseEnded`, `NotOpen`, `Quorum`, `Fault` and `Spoiled` exactly where a step of this call replied
/// so, which is then the last one. After `Memory` or `HistoryFull` the put may stay open for ever, and it is never
/// acknowledged by another call.
pub fn put<P: Port>(
    alloc: Global,
    port: &mut P,
    coder: &mut Coder,
    bid: u64,
    payload: Payload,
) -> Result<Acked, PutFault>
    requires coder { shape coder.old ≡ coder_shape (P.seen port.old).origin.mode }
    requires number { IsBid bid }
    requires size { (1 ≤ length (payload_bytes payload)) × (length (payload_bytes payload) ≤ BLOB_LIMIT) }
    ensures puts { Puts (P.seen port.old) (P.seen port.new) bid payload result }
    ensures shape { shape coder.new ≡ shape coder.old }
{
    let blob = payload.bytes(alloc)?;
    let shards = shards_of(alloc, port.mode(), coder, blob.as_slice())?;
    lease(port)?;
    let opened = begin(port, bid, payload)?;
    send_shards(alloc, port, bid, blob.as_slice(), &shards, &opened.units)?;
    finish(port, bid, opened.end)
}
