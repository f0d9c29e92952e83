//! Worked sums, spellings and refusals. The bytes were made by another program.
//!
//! A helper gives the first row of its table that isn't met, or tells whether a thing is so.

ghost use Rattle.std.specs.Prelude.{◌≤◌, length};
ghost use Rattle.shard_record.specs.Spelling.{HasSizes};

use shard_record::{RecordFault, ShardRecord, crc32, read, write};
use std::alloc::Global;
use unit_id::{Bytes, UnitName};

/// The remainder bit by bit.
fn bit_by_bit(bytes: &[u8]) -> u32 {
    let mut rest: u32 = 0xffff_ffff;
    for byte in bytes {
        rest ^= u32::from(*byte);
        for _ in 0..8 {
            rest = if rest % 2 == 1 {
                (rest >> 1) ^ 0xedb8_8320
            } else {
                rest >> 1
            };
        }
    }
    rest ^ 0xffff_ffff
}

/// Bytes and their sums.
fn sums() -> [(&'static [u8], u32); 3] {
    [
        (b"", 0),
        (b"123456789", 0xcbf4_3926),
        (b"hello", 0x3610_a686),
    ]
}

/// The first bytes that have another sum.
fn missummed() -> Option<&'static [u8]> {
    for (bytes, sum) in sums() {
        if crc32(bytes) != sum {
            return Some(bytes);
        }
    }
    None
}

/// So many bytes: the multiples of a factor, each by its remainder of a modulus, and of 256 then.
fn multiples(alloc: Global, size: u32, factor: u32, modulus: u32) -> Option<Vec<u8>> {
    let mut bytes = Vec::new(alloc);
    for place in 0..size {
        bytes
            .push((place.wrapping_mul(factor) % modulus.max(1) % 256) as u8)
            .ok()?;
    }
    Some(bytes)
}

/// Whether the sum of these bytes is the one bit by bit.
fn is_summed(bytes: &[u8]) -> bool {
    crc32(bytes) == bit_by_bit(bytes)
}

/// The length of the first front, of up to 64 bytes, that has another sum than bit by bit.
fn missummed_front(bytes: &[u8]) -> Option<usize> {
    for len in 0..65usize {
        if !is_summed(&bytes[..len.min(bytes.len())]) {
            return Some(len);
        }
    }
    None
}

/// The length of the first front of 64 bytes that has another sum than bit by bit, or 99 without the bytes.
fn missummed_length(alloc: Global) -> Option<usize> {
    match multiples(alloc, 64, 167, 256) {
        Some(bytes) => missummed_front(&bytes),
        None => Some(99),
    }
}

#[test]
fn sums_of_short_strings(rt: HostRuntime) {
    assert_eq!(rt; missummed(), None);
    assert_eq!(rt; missummed_length(rt.alloc()), None);
}

/// Whether the sum of so many bytes is the one bit by bit.
fn is_sum_of(alloc: Global, size: u32) -> bool {
    match multiples(alloc, size, 1, 253) {
        Some(bytes) => is_summed(&bytes),
        None => false,
    }
}

/// The first size at which a sum is another than bit by bit.
fn missummed_size(alloc: Global) -> Option<u32> {
    for size in [
        1_535, 1_536, 1_537, 1_551, 1_552, 4_095, 4_096, 4_111, 5_631, 5_632, 9_001,
    ] {
        if !is_sum_of(alloc, size) {
            return Some(size);
        }
    }
    None
}

#[test]
fn sums_of_long_strings(rt: HostRuntime) {
    assert_eq!(rt; missummed_size(rt.alloc()), None);
}

/// Whether a record is written so.
fn is_written(alloc: Global, item: &ShardRecord, spelling: &[u8]) -> bool
    requires { HasSizes item.now }
{
    match write(alloc, item) {
        Ok(written) => written.as_slice() == spelling,
        Err(_) => false,
    }
}

/// The kind of a record, and the number of what it is about.
fn kind_and_number(item: &ShardRecord) -> (u8, u64) {
    match item {
        ShardRecord::Shard { bid, .. } => (1, *bid),
        ShardRecord::Mark { bid, .. } => (2, *bid),
        ShardRecord::Free { bid, .. } => (3, *bid),
        ShardRecord::Fence { lock, .. } => (4, *lock),
        ShardRecord::Release { .. } => (5, 0),
    }
}

/// Whether a record has the kind, the number and the unit of another.
fn is_like(item: &ShardRecord, other: &ShardRecord) -> bool {
    kind_and_number(item) == kind_and_number(other) && item.unit() == other.unit()
}

/// Whether these bytes are read as a record like this one, which is written so again.
fn is_read(alloc: Global, item: &ShardRecord, spelling: &[u8]) -> bool {
    if spelling.len() > 4_194_400 {
        return false;
    }
    match read(alloc, spelling) {
        Ok(found) => is_like(&found, item) && is_written(alloc, &found, spelling),
        Err(_) => false,
    }
}

/// Whether a record is written so, and read back.
fn is_spelled(alloc: Global, item: &ShardRecord, spelling: &[u8]) -> bool
    requires { HasSizes item.now }
{
    is_written(alloc, item, spelling) && is_read(alloc, item, spelling)
}

/// Whether a shard is spelled as it is to be.
fn shard_is_spelled(alloc: Global, unit: UnitName) -> bool {
    let Ok(bytes) = b"hello".to_vec(alloc) else {
        return false;
    };
    let shard = ShardRecord::Shard {
        bid: 7,
        unit,
        blob_size: 5,
        bytes: Bytes::from_vec(bytes),
    };
    is_spelled(
        alloc,
        &shard,
        b"\x58\x64\xeb\x6c\x01\x00\x00\x00\x00\x00\x00\x00\x07\x00\x00\x00\x01\x02\x00\x00\x03\x00\x00\x00\x05\x00\x00\x00\x05\x68\x65\x6c\x6c\x6f",
    )
}

/// Whether a mark is spelled as it is to be.
fn mark_is_spelled(alloc: Global, unit: UnitName) -> bool {
    is_spelled(
        alloc,
        &ShardRecord::Mark { bid: 7, unit },
        b"\x77\xd2\xbc\x32\x02\x00\x00\x00\x00\x00\x00\x00\x07\x00\x00\x00\x01\x02\x00\x00\x03",
    )
}

/// Whether a free is spelled as it is to be.
fn free_is_spelled(alloc: Global, unit: UnitName) -> bool {
    is_spelled(
        alloc,
        &ShardRecord::Free { bid: 7, unit },
        b"\xf0\x74\x77\x71\x03\x00\x00\x00\x00\x00\x00\x00\x07\x00\x00\x00\x01\x02\x00\x00\x03",
    )
}

/// Whether a fence is spelled as it is to be.
fn fence_is_spelled(alloc: Global, unit: UnitName) -> bool {
    is_spelled(
        alloc,
        &ShardRecord::Fence { lock: 9, unit },
        b"\x18\x24\xd0\xa8\x04\x00\x00\x00\x00\x00\x00\x00\x09\x00\x00\x00\x01\x02\x00\x00\x03",
    )
}

/// Whether a release is spelled as it is to be.
fn release_is_spelled(alloc: Global, unit: UnitName) -> bool {
    is_spelled(
        alloc,
        &ShardRecord::Release { unit },
        b"\x33\x21\xad\xb0\x05\x00\x00\x00\x00\x00\x00\x00\x00\x00\x00\x00\x01\x02\x00\x00\x03",
    )
}

/// Which records of unit 2 of volume 1 at epoch 3 are spelled so: a shard, a mark, a free, a fence and a release.
fn spelled(alloc: Global) -> Option<[bool; 5]> {
    let unit = UnitName::new(1, 2, 3).ok()?;
    Some([
        shard_is_spelled(alloc, unit),
        mark_is_spelled(alloc, unit),
        free_is_spelled(alloc, unit),
        fence_is_spelled(alloc, unit),
        release_is_spelled(alloc, unit),
    ])
}

#[test]
fn spellings(rt: HostRuntime) {
    assert_eq!(rt; spelled(rt.alloc()), Some([true; 5]));
}

/// Bytes that spell no record, and why.
fn refusals() -> [(&'static [u8], RecordFault); 23] {
    [
        (b"", RecordFault::Short),
        (
            b"\x77\xd2\xbc\x32\x02\x00\x00\x00\x00\x00\x00\x00\x07\x00\x00\x00\x01\x02\x00\x00",
            RecordFault::Short,
        ),
        (
            b"\x77\xd2\xbc\x32\x02\x00\x00\x00\x00\x00\x00\x00\x07\x00\x00\x00\x01\x02\x00\x00\x02",
            RecordFault::BadSum {
                kept: 0x77d2bc32,
                computed: 0x00d58ca4,
            },
        ),
        (
            b"\xa3\xee\x2c\xf5\x00\x00\x00\x00\x00\x00\x00\x00\x07\x00\x00\x00\x01\x02\x00\x00\x03",
            RecordFault::BadKind { kind: 0 },
        ),
        (
            b"\x0a\xba\x2b\x7c\x06\x00\x00\x00\x00\x00\x00\x00\x07\x00\x00\x00\x00\x00\x00\x00\x00",
            RecordFault::BadKind { kind: 6 },
        ),
        (
            b"\xbb\x54\x1a\xbb\xff\x00\x00\x00\x00\x00\x00\x00\x07\x00\x00\x00\x01\x02\x00\x00\x03",
            RecordFault::BadKind { kind: 255 },
        ),
        (
            b"\xbd\x53\xe8\x49\x05\x00\x00\x00\x00\x00\x00\x00\x01\x00\x00\x00\x01\x02\x00\x00\x00",
            RecordFault::BadUnit,
        ),
        (
            b"\x6e\xf0\x71\x50\x01\x00\x00\x00\x00\x00\x00\x00\x07\xff\xff\xff\xff\xff\x00\x00\x00",
            RecordFault::BadUnit,
        ),
        (
            b"\x46\x42\x8e\xb0\x05\x00\x00\x00\x00\x00\x00\x00\x01\x00\x00\x00\x01\x02\x00\x00\x03\x7a",
            RecordFault::BadNumber { number: 1 },
        ),
        (
            b"\xa4\x4f\x20\x8a\x05\xff\xff\xff\xff\xff\xff\xff\xff\x00\x00\x00\x01\x02\x00\x00\x03",
            RecordFault::BadNumber {
                number: 18_446_744_073_709_551_615,
            },
        ),
        (
            b"\x24\x48\xe7\xb6\x01\x00\x00\x00\x00\x00\x00\x00\x07\x00\x00\x00\x01\x02\x00\x00\x03",
            RecordFault::ShortHead,
        ),
        (
            b"\x92\x5b\xa5\x3f\x01\x00\x00\x00\x00\x00\x00\x00\x07\x00\x00\x00\x01\x02\x00\x00\x03\x00\x00\x00\x00\x00\x00\x00",
            RecordFault::ShortHead,
        ),
        (
            b"\x64\xf6\x99\x15\x01\x00\x00\x00\x00\x00\x00\x00\x07\x00\x00\x00\x01\x02\x00\x00\x03\x00\x00\x00\x00\x00\x00\x00\x00",
            RecordFault::BadSize { size: 0 },
        ),
        (
            b"\x1d\x9d\xc5\xdc\x01\x00\x00\x00\x00\x00\x00\x00\x07\x00\x00\x00\x01\x02\x00\x00\x03\x00\x40\x00\x01\x00\x00\x00\x00",
            RecordFault::BadSize { size: 4_194_305 },
        ),
        (
            b"\x4e\xc6\x99\x55\x01\x00\x00\x00\x00\x00\x00\x00\x07\x00\x00\x00\x01\x02\x00\x00\x03\xff\xff\xff\xff\x00\x00\x00\x05\x68\x65\x6c\x6c\x6f",
            RecordFault::BadSize {
                size: 4_294_967_295,
            },
        ),
        (
            b"\xac\x16\x16\x65\x01\x00\x00\x00\x00\x00\x00\x00\x07\x00\x00\x00\x01\x02\x00\x00\x03\x00\x00\x00\x05\x00\x00\x00\x00",
            RecordFault::BadSize { size: 0 },
        ),
        (
            b"\xea\x68\x6b\x97\x01\x00\x00\x00\x00\x00\x00\x00\x07\x00\x00\x00\x01\x02\x00\x00\x03\x00\x00\x00\x05\x00\x40\x00\x01\x68\x65\x6c\x6c\x6f",
            RecordFault::BadSize { size: 4_194_305 },
        ),
        (
            b"\x2e\x91\x80\x33\x01\x00\x00\x00\x00\x00\x00\x00\x07\x00\x00\x00\x01\x02\x00\x00\x03\x00\x00\x00\x01\x00\x00\x00\x01",
            RecordFault::BadLength { stated: 1, have: 0 },
        ),
        (
            b"\x13\xf9\xab\xdd\x01\x00\x00\x00\x00\x00\x00\x00\x07\x00\x00\x00\x01\x02\x00\x00\x03\x00\x40\x00\x00\x00\x40\x00\x00\x68\x65\x6c\x6c",
            RecordFault::BadLength {
                stated: 4_194_304,
                have: 4,
            },
        ),
        (
            b"\xda\x37\xb6\x4b\x01\x00\x00\x00\x00\x00\x00\x00\x07\x00\x00\x00\x01\x02\x00\x00\x03\x00\x00\x00\x05\x00\x00\x00\x05\x68\x65\x6c\x6c\x6f\x21",
            RecordFault::Trailing { extra: 1 },
        ),
        (
            b"\x1a\xa2\x6c\xb1\x02\x00\x00\x00\x00\x00\x00\x00\x07\x00\x00\x00\x01\x02\x00\x00\x03\x00",
            RecordFault::Trailing { extra: 1 },
        ),
        (
            b"\xbf\xd9\xaf\xa5\x05\x00\x00\x00\x00\x00\x00\x00\x00\x00\x00\x00\x01\x02\x00\x00\x03\x00\x00\x00\x00\x00\x00\x00\x00",
            RecordFault::Trailing { extra: 8 },
        ),
        (
            b"\x5a\x37\xb6\x4b\x01\x00\x00\x00\x00\x00\x00\x00\x07\x00\x00\x00\x01\x02\x00\x00\x03\x00\x00\x00\x05\x00\x00\x00\x05\x68\x65\x6c\x6c\x6f\x21",
            RecordFault::BadSum {
                kept: 0x5a37b64b,
                computed: 0xda37b64b,
            },
        ),
    ]
}

/// Whether these bytes are refused for this fault.
fn is_refused(alloc: Global, bytes: &[u8], fault: RecordFault) -> bool {
    if bytes.len() > 4_194_400 {
        return false;
    }
    match read(alloc, bytes) {
        Ok(_) => false,
        Err(found) => found == fault,
    }
}

/// The first bytes that aren't refused so.
fn unrefused(alloc: Global) -> Option<&'static [u8]> {
    for (bytes, fault) in refusals() {
        if !is_refused(alloc, bytes, fault) {
            return Some(bytes);
        }
    }
    None
}

#[test]
fn bytes_are_refused(rt: HostRuntime) {
    assert_eq!(rt; unrefused(rt.alloc()), None);
}

/// The spelling of a shard of 4,194,304 bytes.
fn large_spelling(alloc: Global) -> Option<Vec<u8>> {
    let unit = UnitName::new(1, 2, 3).ok()?;
    let bytes = vec![in alloc; 65u8; 4_194_304].ok()?;
    let shard = ShardRecord::Shard {
        bid: 7,
        unit,
        blob_size: 4_194_304,
        bytes: Bytes::from_vec(bytes),
    };
    Some(write(alloc, &shard).ok()?.into_vec())
}

/// Whether these bytes are read at all.
fn is_spelling(alloc: Global, bytes: &[u8]) -> bool {
    bytes.len() <= 4_194_400 && read(alloc, bytes).is_ok()
}

/// Whether a spelling has so many bytes, this sum in front, and is one.
fn is_large(alloc: Global, spelling: &[u8]) -> bool {
    spelling.len() == 4_194_333
        && spelling.starts_with(b"\x67\x20\x15\x3b")
        && is_spelling(alloc, spelling)
}

/// Whether the largest shard is spelled so, and refused without its last byte.
fn largest_is_spelled(alloc: Global) -> Option<[bool; 2]> {
    let mut spelling = large_spelling(alloc)?;
    let is_whole = is_large(alloc, &spelling);
    spelling.truncate(4_194_332);
    let fault = RecordFault::BadSum {
        kept: 0x6720153b,
        computed: 0xf23587fc,
    };
    Some([is_whole, is_refused(alloc, &spelling, fault)])
}

/// Whether a mark is refused that 4,194,379 bytes follow.
fn longest_is_refused(alloc: Global) -> Option<bool> {
    let mark =
        b"\x63\x9a\x09\x52\x02\x00\x00\x00\x00\x00\x00\x00\x07\x00\x00\x00\x01\x02\x00\x00\x03";
    let mut bytes = mark.to_vec(alloc).ok()?;
    bytes.resize(4_194_400, 0).ok()?;
    let fault = RecordFault::Trailing { extra: 4_194_379 };
    Some(bytes.len() == 4_194_400 && is_refused(alloc, &bytes, fault))
}

#[test]
fn largest_sizes(rt: HostRuntime) {
    assert_eq!(rt; largest_is_spelled(rt.alloc()), Some([true; 2]));
    assert_eq!(rt; longest_is_refused(rt.alloc()), Some(true));
}
