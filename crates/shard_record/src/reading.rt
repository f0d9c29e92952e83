//! Reading a record from bytes.

ghost use Rattle.std.specs.Prelude.{◌≡◌, ◌+◌, ◌^◌, ◌<◌, ◌≤◌, [], length, drop, IfOk, OnOk, IsOkUnless, MatchResult, MatchOption};
ghost use Rattle.std.specs.Result.{result_err};
ghost use Rattle.std.specs.Int.{w32, w64};
ghost use Rattle.unit_id.specs.UnitName.{IsName, packed};
ghost use Rattle.shard_record.specs.Reading.{HasHead, HasShard};
ghost use Rattle.shard_record.specs.Spelling.{Spells, first_fault, first_failing, head_tests, shard_tests, is_kind, is_size, number_at, kind_of, number_of, unit_of, shard_part, HasSizes, kind_in, number_in, unit_in, blob_size_in};

use crate::crc::crc32;
use crate::record::{FENCE, FREE, MARK, RELEASE, RecordFault, SHARD, ShardRecord};
use std::alloc::{AllocError, Global};
use unit_id::{Bytes, UnitName};

/// The bytes of the parts that all kinds have.
const HEAD: usize = 21;

/// The same with the sizes of a shard.
const SHARD_HEAD: usize = 29;

/// The most bytes of a blob and of a shard.
const LARGEST: u32 = 4_194_304;

/// The parts that all kinds have, but for the sum.
#[derive(Drop)]
struct Head {
    kind: u8,
    number: u64,
    unit: UnitName,
}

/// The four bytes from `place` on as a number.
#[tactic(auto, unfolding(crate::specs::Spelling::number_at))]
fn size_at(bytes: &[u8], place: usize) -> u32
    requires { place + 4 ≤ length bytes.now }
    ensures { result ≡ number_at w32 bytes.now place }
{
    u32::from_be_bytes(*bytes[place..].first_chunk().unwrap())
}

/// The eight bytes from `place` on as a number.
#[tactic(auto, unfolding(crate::specs::Spelling::number_at))]
fn long_at(bytes: &[u8], place: usize) -> u64
    requires { place + 8 ≤ length bytes.now }
    ensures { result ≡ number_at w64 bytes.now place }
{
    u64::from_be_bytes(*bytes[place..].first_chunk().unwrap())
}

/// Whether a kind has this number.
fn is_kind(kind: u8) -> bool
    ensures { result ≡ is_kind kind }
{
    SHARD <= kind && kind <= RELEASE
}

/// Whether a blob or a shard can have this many bytes.
fn is_size(size: u32) -> bool
    ensures { result ≡ is_size size }
{
    1 <= size && size <= LARGEST
}

/// Reads the parts that all kinds have.
fn read_head(bytes: &[u8]) -> Result<Head, RecordFault>
    ensures fault { result_err result ≡ first_failing (head_tests bytes.now) }
    ensures head { IfOk result (λ head. HasHead bytes.now head.kind head.number head.unit) }
{
    if bytes.len() < HEAD {
        return Err(RecordFault::Short);
    }
    let kept = size_at(bytes, 0);
    let computed = crc32(&bytes[4..]);
    if kept != computed {
        return Err(RecordFault::BadSum { kept, computed });
    }
    let kind = bytes[4];
    if !is_kind(kind) {
        return Err(RecordFault::BadKind { kind });
    }
    let Some(unit) = UnitName::unpack(long_at(bytes, 13)) else {
        return Err(RecordFault::BadUnit);
    };
    let number = long_at(bytes, 5);
    if kind == RELEASE && number != 0 {
        return Err(RecordFault::BadNumber { number });
    }
    Ok(Head { kind, number, unit })
}

/// Reads the sizes of a shard, and gives the blob's.
fn read_sizes(bytes: &[u8]) -> Result<u32, RecordFault>
    requires { length bytes.now ≤ 4194400 }
    ensures fault { result_err result ≡ first_failing (shard_tests bytes.now) }
    ensures shard { IfOk result (HasShard bytes.now) }
{
    if bytes.len() < SHARD_HEAD {
        return Err(RecordFault::ShortHead);
    }
    let size = size_at(bytes, HEAD);
    if !is_size(size) {
        return Err(RecordFault::BadSize { size });
    }
    let stated = size_at(bytes, HEAD + 4);
    if !is_size(stated) {
        return Err(RecordFault::BadSize { size: stated });
    }
    let have = (bytes.len() - SHARD_HEAD) as u32;
    if have < stated {
        return Err(RecordFault::BadLength { stated, have });
    }
    if stated < have {
        return Err(RecordFault::Trailing {
            extra: have - stated,
        });
    }
    Ok(size)
}

/// A copy of these bytes, in one piece of memory.
fn copied(alloc: Global, bytes: &[u8]) -> Result<Bytes, AllocError>
    ensures { IfOk result (λ copy. copy ≡ bytes.now) }
{
    let mut copy = Vec::with_capacity(alloc, bytes.len())?;
    copy.extend_from_slice(bytes)?;
    Ok(Bytes::from_vec(copy))
}

/// Reads what stands behind a shard's head.
fn read_shard(alloc: Global, head: Head, bytes: &[u8]) -> Result<ShardRecord, RecordFault>
    requires { length bytes.now ≤ 4194400 }
    ensures fault { MatchOption (first_failing (shard_tests bytes.now)) (IsOkUnless result RecordFault.Memory)
        (λ fault. result ≡ Err fault) }
    ensures shard { IfOk result (λ item.
        item ≡ ShardRecord.Shard head.number head.unit (blob_size_in bytes.now) (drop 29 bytes.now)) }
    ensures sizes { OnOk result (HasShard bytes.now (blob_size_in bytes.now)) }
{
    let blob_size = read_sizes(bytes)?;
    let Ok(copy) = copied(alloc, &bytes[SHARD_HEAD..]) else {
        return Err(RecordFault::Memory);
    };
    Ok(ShardRecord::Shard {
        bid: head.number,
        unit: head.unit,
        blob_size,
        bytes: copy,
    })
}

/// The record of a kind other than a shard's.
fn record_of(head: Head) -> ShardRecord
    requires kind { (2 ≤ head.kind) × (head.kind ≤ 5) }
    requires release { head.kind ≡ 5 → head.number ≡ 0 }
    ensures kind { kind_of result ≡ head.kind }
    ensures number { number_of result ≡ head.number }
    ensures unit { unit_of result ≡ head.unit }
    ensures part { shard_part result ≡ [] }
    ensures sizes { HasSizes result }
{
    let bid = head.number;
    let unit = head.unit;
    match head.kind {
        MARK => ShardRecord::Mark { bid, unit },
        FREE => ShardRecord::Free { bid, unit },
        FENCE => ShardRecord::Fence { lock: bid, unit },
        _ => ShardRecord::Release { unit },
    }
}

/// Reads a record from its spelling.
///
/// Bytes that spell none are refused with the first test that fails.
pub fn read(alloc: Global, bytes: &[u8]) -> Result<ShardRecord, RecordFault>
    requires { length bytes.now ≤ 4194400 }
    ensures spelled { IfOk result (λ item. Spells item bytes.now) }
    ensures fault { MatchOption (first_fault bytes.now) (IsOkUnless result RecordFault.Memory)
        (λ fault. result ≡ Err fault) }
{
    let head = read_head(bytes)?;
    if head.kind == SHARD {
        return read_shard(alloc, head, bytes);
    }
    if bytes.len() > HEAD {
        return Err(RecordFault::Trailing {
            extra: (bytes.len() - HEAD) as u32,
        });
    }
    Ok(record_of(head))
}
