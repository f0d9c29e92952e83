//! How the records of a chunk are read.

ghost use Rattle.std.specs.Prelude.{◌≡◌, ◌<◌, ◌≤◌, ℕ, List, Some, None, length, IfOk, IfErr, IsSome, IfSome};
ghost use Rattle.disk_base.specs.Disk.{OnlyReads};
ghost use Rattle.gate_log.specs.GateLog.{shown, IfStarted, IsFound};
ghost use Rattle.shard_record.specs.Spelling.{Spells, unit_of};
ghost use Rattle.shard_record.specs.declared.record.ShardRecord.TheVariants.{Shard};
ghost use Rattle.chunk_store.specs.Chunk.{ChunkCall};
ghost use Rattle.chunk_store.specs.Records.{StandsAt};
ghost use Rattle.chunk_store.specs.Reading.{fault_by_record, RecordAnswers, ShardAnswers, IsBodyFault, BodiesInOrder, IsShardFault, FindsShard};

use crate::ChunkFault;
use disk_base::Extent;
use gate_log::{GateLog, LogFault};
use shard_record::{RecordFault, ShardRecord, read};
use std::alloc::Global;
use unit_id::{Bytes, UnitName};

// What bytes that spell no record make of the chunk at that place.
fn fault_of(fault: RecordFault, place: u64) -> ChunkFault
    ensures { result ≡ fault_by_record place fault }
{
    match fault {
        RecordFault::BadSum { kept, computed } => ChunkFault::Damaged { kept, computed },
        RecordFault::Memory => ChunkFault::Memory,
        _ => ChunkFault::Spoiled { place },
    }
}

/// Reads the bytes that stand at a place as a record of the unit.
pub fn record_in(
    alloc: Global,
    unit: UnitName,
    is_released: bool,
    place: u64,
    body: &[u8],
) -> Result<ShardRecord, ChunkFault>
    requires { length body.now ≤ 4194400 }
    ensures { RecordAnswers unit is_released place body.now result }
{
    let item = match read(alloc, body) {
        Ok(item) => item,
        Err(fault) => return Err(fault_of(fault, place)),
    };
    if is_released || item.unit() != unit {
        return Err(ChunkFault::Spoiled { place });
    }
    Ok(item)
}

// Reads the bytes that stand at a place as the shard of a blob.
fn shard_in(
    alloc: Global,
    unit: UnitName,
    bid: u64,
    blob_size: u32,
    place: u64,
    body: &[u8],
) -> Result<Bytes, ChunkFault>
    requires { length body.now ≤ 4194400 }
    ensures { ShardAnswers unit bid blob_size place body.now result }
{
    let item = record_in(alloc, unit, false, place, body)?;
    match shard_of(item, bid, blob_size) {
        Some(bytes) => Ok(bytes),
        None => Err(ChunkFault::Spoiled { place }),
    }
}

// The bytes of a record that is the shard of a blob.
fn shard_of(item: ShardRecord, bid: u64, blob_size: u32) -> Option<Bytes>
    ensures some { IfSome result (λ bytes. item ≡ Shard bid (unit_of item) blob_size bytes) }
    ensures none { result ≡ None → (bytes : List ℕ) → item ≡ Shard bid (unit_of item) blob_size bytes → ⊥ }
{
    match item {
        ShardRecord::Shard {
            bid: other,
            unit: _,
            blob_size: size,
            bytes,
        } if other == bid && size == blob_size => Some(bytes),
        _ => None,
    }
}

// The bytes at a place of the log, and the next place.
fn body_at<E: Extent>(
    alloc: Global,
    log: &mut GateLog<E>,
    place: u64,
) -> Result<(Bytes, u64), ChunkFault>
    requires { IsSome log.old.end }
    ensures call { ChunkCall (E.seen log.old.file) (E.seen log.new.file) result }
    ensures reads { OnlyReads (E.seen log.old.file) (E.seen log.new.file) }
    ensures same { log.new.end ≡ log.old.end }
    ensures found { IfOk result (λ found. IsFound place found × IfSome log.old.end (λ end. found.1 ≤ end)) }
    ensures named { IfErr result (IsBodyFault place) }
    ensures in_order { IfStarted (shown E.seen log.old) (λ bodies. BodiesInOrder bodies place result) }
{
    match log.read(alloc, place) {
        Ok(found) => Ok(found),
        Err(LogFault::Fault) => Err(ChunkFault::Fault),
        Err(LogFault::BadChain { place }) => Err(ChunkFault::Spoiled { place }),
        Err(LogFault::Memory) => Err(ChunkFault::Memory),
        Err(_) => unreachable!(),
    }
}

/// The bytes of the shard of a blob whose record stands at a place.
pub fn read_shard<E: Extent>(
    alloc: Global,
    log: &mut GateLog<E>,
    unit: UnitName,
    bid: u64,
    blob_size: u32,
    place: u64,
) -> Result<Bytes, ChunkFault>
    requires { IsSome log.old.end }
    ensures call { ChunkCall (E.seen log.old.file) (E.seen log.new.file) result }
    ensures reads { OnlyReads (E.seen log.old.file) (E.seen log.new.file) }
    ensures same { log.new.end ≡ log.old.end }
    ensures named { IfErr result (IsShardFault place) }
    ensures spelled { IfOk result (λ bytes. (body : List ℕ) × Spells (Shard bid unit blob_size bytes) body) }
    ensures stands { IfStarted (shown E.seen log.old) (λ bodies. (bytes : List ℕ) → StandsAt bodies place (Shard bid unit blob_size bytes) → FindsShard bytes result) }
{
    let (body, _next) = body_at(alloc, log, place)?;
    shard_in(alloc, unit, bid, blob_size, place, body.as_slice())
}
