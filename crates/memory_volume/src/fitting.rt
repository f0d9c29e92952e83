//! Which events fit a volume in memory.

ghost use Rattle.std.specs.Prelude.{◌≡◌, ◌<◌, All, Bool, length};
ghost use Rattle.code_mode.specs.Payload.{payload_bytes};
ghost use Rattle.volume_entry.specs.Manager.{IsBid, IsDisk};
ghost use Rattle.volume_entry.specs.TableParts.{shape_of, Tells};
ghost use Rattle.volume_world.specs.Asking.{IsUnitOn, IsShard, FitsRequest, FitsEvent};
ghost use Rattle.volume_world.specs.Run.{World};
ghost use Rattle.volume_entry.specs.ManagerStep.{AreTargets};
ghost use Rattle.migrate_task.specs.TaskParts.{IsTaskOf};
ghost use Rattle.memory_volume.specs.Fitting.{IsBlob, IsCount, IsAtLeast, AreAtLeast, FitsTargets, carries_shard, origin_with};

use crate::setup::VID;
use code_mode::{BLOB_LIMIT, Mode, Payload};
use unit_id::{Bytes, Request, Target, Targets, Task, UnitName};
use volume_entry::Shape;
use volume_world::Event;

/// No blob has a greater number.
const LAST_BID: u64 = 1 << 62;

/// Whether a blob may have this number.
pub(crate) fn is_bid(bid: u64) -> bool
    ensures { Tells result (IsBid bid) }
{
    1 <= bid && bid <= LAST_BID
}

/// Whether a blob may have this number and so many bytes.
pub(crate) fn is_blob(bid: u64, size: usize) -> bool
    ensures { Tells result (IsBlob bid size) }
{
    is_bid(bid) && 1 <= size && size <= BLOB_LIMIT as usize
}

/// How many bytes a payload has.
pub(crate) fn size_of(payload: &Payload) -> usize
    ensures size { result ≡ length (payload_bytes payload.now) }
    ensures bytes { All (λ b. b < 256) (payload_bytes payload.now) }
{
    match payload {
        Payload::Plain(bytes) => count_of(bytes),
        Payload::Fill { len, .. } => *len as usize,
    }
}

/// How many bytes there are.
fn count_of(bytes: &Bytes) -> usize
    ensures size { result ≡ length bytes.now }
    ensures bytes { All (λ b. b < 256) bytes.now }
{
    let bytes = bytes.as_slice();
    bytes.len()
}

/// Whether the volume has the disk.
fn is_disk(shape: Shape, disk: u32) -> bool
    ensures { Tells result (IsDisk (shape_of shape) disk) }
{
    1 <= disk && disk <= shape.disks
}

/// Whether the unit is one of the volume, and the disk too.
fn is_unit_on(shape: Shape, unit: UnitName, disk: u32) -> bool
    ensures { (told quiet : Bool) (start : World) → Tells result (IsUnitOn (origin_with shape told quiet start) unit disk) }
{
    unit.vid == VID && u32::from(unit.index) < shape.mode.total() && is_disk(shape, disk)
}

/// Whether a blob of this number and size may have a shard of these bytes.
fn is_shard(mode: Mode, bid: u64, blob_size: u32, bytes: &Bytes) -> bool
    ensures { Tells result (IsShard mode bid blob_size bytes.now) }
{
    is_blob(bid, blob_size as usize) && bytes.len() == mode.shard_size(blob_size) as usize
}

/// Whether the unit and the disk are the volume's, and a blob may have the number.
fn fits_blob(shape: Shape, unit: UnitName, disk: u32, bid: u64) -> bool
    ensures { (told quiet : Bool) (start : World) → Tells result (IsUnitOn (origin_with shape told quiet start) unit disk × IsBid bid) }
{
    is_unit_on(shape, unit, disk) && is_bid(bid)
}

/// Whether the unit and the disk are the volume's, and a blob of this number and size may have a shard of these bytes.
fn fits_shard(
    shape: Shape,
    unit: UnitName,
    disk: u32,
    bid: u64,
    blob_size: u32,
    bytes: &Bytes,
) -> bool
    ensures { (told quiet : Bool) (start : World) → Tells result (IsUnitOn (origin_with shape told quiet start) unit disk × IsShard shape.mode bid blob_size bytes.now) }
{
    is_unit_on(shape, unit, disk) && is_shard(shape.mode, bid, blob_size, bytes)
}

/// Whether a request fits the volume.
fn fits_request(shape: Shape, request: &Request) -> bool
    ensures { (told quiet : Bool) (start : World) → Tells result (FitsRequest (origin_with shape told quiet start) request.now) }
{
    match request {
        Request::Create { unit, disk } => is_unit_on(shape, *unit, *disk),
        Request::Fence { unit, disk, .. } => is_unit_on(shape, *unit, *disk),
        Request::List { unit, disk, .. } => is_unit_on(shape, *unit, *disk),
        Request::Release { unit, disk } => is_unit_on(shape, *unit, *disk),
        Request::Read { unit, disk, bid } => fits_blob(shape, *unit, *disk, *bid),
        Request::Mark { unit, disk, bid } => fits_blob(shape, *unit, *disk, *bid),
        Request::Free { unit, disk, bid } => fits_blob(shape, *unit, *disk, *bid),
        Request::Put {
            unit,
            disk,
            bid,
            blob_size,
            bytes,
        } => fits_shard(shape, *unit, *disk, *bid, *blob_size, bytes),
        Request::Copy {
            unit,
            disk,
            bid,
            blob_size,
            bytes,
        } => fits_shard(shape, *unit, *disk, *bid, *blob_size, bytes),
    }
}

/// Whether a target has this index or a later one of the volume, and this disk or a later one.
fn is_at_least(shape: Shape, disk: u32, index: u32, target: Target) -> bool
    ensures { Tells result (IsAtLeast (shape_of shape) disk index target) }
{
    let own = u32::from(target.index);
    index <= own && own < shape.mode.total() && disk <= target.disk && target.disk <= shape.disks
}

/// Whether targets are of ascending indexes, from this one on, and each on this disk or a later one.
fn are_at_least(shape: Shape, disk: u32, index: u32, targets: &[Target]) -> bool
    ensures { Tells result (AreAtLeast (shape_of shape) disk index targets.now) }
{
    match targets {
        [] => true,
        [first, others @ ..] => {
            is_at_least(shape, disk, index, *first)
                && are_at_least(shape, disk, u32::from(first.index) + 1, others)
        }
    }
}

/// Whether a lock may move so many units.
fn is_count(mode: Mode, count: usize) -> bool
    ensures { Tells result (IsCount mode count) }
{
    let most = (mode.quorum() - mode.n()) as usize;
    1 <= count && count <= most
}

/// Whether there are as many targets as a lock may move, of ascending indexes, each on this disk or a later one.
fn fits_targets(shape: Shape, disk: u32, targets: &Targets) -> bool
    ensures { Tells result (FitsTargets shape disk targets.now) }
{
    is_count(shape.mode, targets.len()) && are_at_least(shape, disk, 0, targets.as_slice())
}

/// Whether these are targets of a lock.
fn fits_lock(shape: Shape, targets: &Targets) -> bool
    ensures { Tells result (AreTargets (shape_of shape) targets.now) }
{
    fits_targets(shape, 1, targets)
}

/// Whether the task is one of the volume. A target may have no disk.
pub(crate) fn fits_task(shape: Shape, task: &Task) -> bool
    ensures { (told quiet : Bool) (start : World) → Tells result (IsTaskOf (origin_with shape told quiet start) task.now) }
{
    task.vid == VID && fits_targets(shape, 0, &task.targets)
}

/// Whether the index is one of the volume, and the disk too.
fn is_index_on(shape: Shape, index: u8, disk: u32) -> bool
    ensures { Tells result ((index < (shape_of shape).total) × IsDisk (shape_of shape) disk) }
{
    u32::from(index) < shape.mode.total() && is_disk(shape, disk)
}

/// Whether an event fits the volume.
pub(crate) fn fits_event(shape: Shape, event: &Event) -> bool
    ensures { (told quiet : Bool) (start : World) → Tells result (FitsEvent (origin_with shape told quiet start) event.now) }
{
    match event {
        Event::Tick { .. }
        | Event::Lease
        | Event::FlushOne
        | Event::Swap { .. }
        | Event::Unlock { .. }
        | Event::RestartManager
        | Event::Look => true,
        Event::Plan { disk, .. } | Event::Break { disk } | Event::Restart { disk } => {
            is_disk(shape, *disk)
        }
        Event::End { bid } | Event::Ask { bid } | Event::Commit { bid } => is_bid(*bid),
        Event::Begin { bid, payload } => is_blob(*bid, size_of(payload)),
        Event::Send { request } => fits_request(shape, request),
        Event::Lock { targets, .. } => fits_lock(shape, targets),
        Event::Retarget { index, disk, .. } => is_index_on(shape, *index, *disk),
    }
}

/// Whether an event carries a shard.
pub(crate) fn carries_shard(event: &Event) -> bool
    ensures { result ≡ carries_shard event.now }
{
    match event {
        Event::Send { request } => match request {
            Request::Put { .. } | Request::Copy { .. } => true,
            _ => false,
        },
        _ => false,
    }
}
