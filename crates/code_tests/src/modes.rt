//! Modes, payloads and stripes, against worked values.
//!
//! A helper gives the first row of its table that isn't met, or tells whether one row is.

use code_mode::{
    BLOB_LIMIT, Mode, Payload, any_shards_give_the_blob, cut, cut_shards_join, hold, join,
    mode_numbers, mode_shapes,
};
use disk_base::NoMemory;
use rs_code::Shards;
use std::alloc::{AllocError, Global};
use std::test::Fail;
use unit_id::Bytes;

/// The modes by name, each with its N, M, total, quorum and sight.
fn modes() -> [(&'static str, [u32; 5]); 8] {
    [
        ("EC3P3", [3, 3, 6, 5, 4]),
        ("EC6P3", [6, 3, 9, 8, 7]),
        ("EC6P6", [6, 6, 12, 11, 7]),
        ("EC10P4", [10, 4, 14, 13, 11]),
        ("EC12P4", [12, 4, 16, 15, 13]),
        ("EC12P9", [12, 9, 21, 20, 13]),
        ("EC16P4", [16, 4, 20, 19, 17]),
        ("EC15P12", [15, 12, 27, 24, 18]),
    ]
}

/// The numbers of a mode.
fn numbers(mode: Mode) -> [u32; 5] {
    [
        mode.n(),
        mode.m(),
        mode.total(),
        mode.quorum(),
        mode.sight(),
    ]
}

/// The sizes of a mode's shards for blobs of 1 byte, of this many bytes, and of one more.
fn sizes(mode: Mode, size: u32) -> [u32; 3] {
    [
        mode.shard_size(1),
        mode.shard_size(size),
        mode.shard_size(size.saturating_add(1)),
    ]
}

/// Whether a mode has this name and these numbers, and shards of 2,048 bytes at least.
fn has(mode: Mode, name: &str, want: [u32; 5]) -> bool {
    mode.name() == name
        && numbers(mode) == want
        && sizes(mode, want[0].saturating_mul(2048)) == [2048, 2048, 2049]
}

/// Whether this name is read as the mode with these numbers.
fn names(name: &str, want: [u32; 5]) -> bool {
    match Mode::read_name(name) {
        Some(mode) => has(mode, name, want),
        None => false,
    }
}

/// The first name that isn't read as its mode.
fn misread() -> Option<&'static str> {
    for (name, want) in modes() {
        if !names(name, want) {
            return Some(name);
        }
    }
    None
}

/// The first name that is read, though no mode has it.
fn read_as_a_mode() -> Option<&'static str> {
    for name in ["", "EC6P", "ec6p3", "EC6P33", " EC6P3"] {
        if Mode::read_name(name).is_some() {
            return Some(name);
        }
    }
    None
}

#[test]
fn modes_have_the_numbers_of_their_names(rt: HostRuntime) {
    assert_eq!(rt; misread(), None);
    assert_eq!(rt; read_as_a_mode(), None);
    mode_numbers();
}

/// Seeds, how many fill bytes are wanted of each, and these bytes.
fn fills() -> [(u64, u32, &'static [u8]); 4] {
    [
        (0, 1, b"\x14"),
        (1, 1, b"\x6c"),
        (
            7,
            16,
            b"\x7e\xf4\xe8\x45\x44\x23\x67\x52\xfb\xb5\x6b\x8f\x31\xa2\x3a\x10",
        ),
        (
            u64::MAX,
            16,
            b"\xbb\xb1\x8f\x6b\xf8\x9f\x9a\xa5\x20\xb1\x85\x31\x50\xe0\x95\xa5",
        ),
    ]
}

/// Whether a payload gives these bytes.
fn gives(alloc: Global, payload: &Payload, want: &[u8]) -> bool {
    match payload.bytes(alloc) {
        Ok(bytes) => bytes.as_slice() == want,
        Err(_) => false,
    }
}

/// Whether so many bytes of this seed are these.
fn fills_with(alloc: Global, seed: u64, len: u32, want: &[u8]) -> bool {
    let fill = Payload::Fill { seed, len };
    gives(alloc, &fill, want)
}

/// How many bytes the fills of these seeds say that they have.
fn fill_lengths() -> [u32; 4] {
    [
        Payload::Fill { seed: 0, len: 1 }.len(),
        Payload::Fill { seed: 1, len: 1 }.len(),
        Payload::Fill { seed: 7, len: 16 }.len(),
        Payload::Fill {
            seed: u64::MAX,
            len: 16,
        }
        .len(),
    ]
}

/// The first seed whose bytes are others.
fn misfilled(alloc: Global) -> Option<u64> {
    for (seed, len, want) in fills() {
        if !fills_with(alloc, seed, len, want) {
            return Some(seed);
        }
    }
    None
}

/// Whether the word `hello`, written out, has five bytes and ends with an `o`.
fn is_hello(alloc: Global) -> Result<bool, AllocError> {
    let hello = Payload::Plain(Bytes::from_vec(b"hello".to_vec(alloc)?));
    Ok(hello.len() == 5 && hello.at(4) == b'o' && gives(alloc, &hello, b"hello"))
}

/// The sum of these bytes.
fn sum(bytes: &[u8]) -> u32 {
    let mut sum = 0u32;
    for byte in bytes {
        sum = sum.wrapping_add(u32::from(*byte));
    }
    sum
}

/// The sum of the largest blob of seed 3, or 0 without memory.
fn large_sum(alloc: Global) -> u32 {
    let fill = Payload::Fill {
        seed: 3,
        len: 4_194_304,
    };
    match fill.bytes(alloc) {
        Ok(bytes) => sum(bytes.as_slice()),
        Err(_) => 0,
    }
}

#[test]
fn payloads_give_their_bytes(rt: HostRuntime) -> Result<(), Fail> {
    assert_eq!(rt; misfilled(rt.alloc()), None);
    assert!(rt; fill_lengths() == [1, 1, 16, 16]);
    assert!(rt; is_hello(rt.alloc())?);
    assert_eq!(rt; large_sum(rt.alloc()), 534_952_079);
    Ok(())
}

/// Whether a place has a shard of so many bytes where it is one of the first N, and else none.
fn is_cut(shards: &Shards, index: usize, n: usize, shard: usize) -> bool {
    match shards.get(index) {
        Some(bytes) => index < n && bytes.len() == shard,
        None => index >= n,
    }
}

/// Whether a blob was cut into N shards of so many bytes, and no others.
fn are_cut(mode: Mode, shards: &Shards, shard: usize) -> bool {
    let n = mode.n() as usize;
    for index in 0..mode.total() as usize {
        if !is_cut(shards, index, n, shard) {
            return false;
        }
    }
    shards.count() == n
}

/// Whether a blob is cut into shards of so many bytes, and joined again.
fn is_joined(alloc: Global, mode: Mode, blob: &[u8], shard: usize) -> Result<bool, NoMemory> {
    if blob.len() > 4_194_304 {
        return Ok(false);
    }
    let shards = cut(alloc, mode, blob)?;
    let joined = join(alloc, mode, blob.len() as u32, &shards)?;
    Ok(are_cut(mode, &shards, shard) && joined.as_slice() == blob)
}

/// Whether a blob of so many fill bytes is cut into shards of so many, and joined again.
fn is_round(alloc: Global, mode: Mode, size: u32, shard: usize) -> Result<bool, NoMemory> {
    let blob = Payload::Fill { seed: 5, len: size }.bytes(alloc)?;
    Ok(blob.len() == size as usize && is_joined(alloc, mode, blob.as_slice(), shard)?)
}

/// Whether blobs of 1 byte, of N times 2,048 and of one more are cut and joined.
fn are_round(alloc: Global, mode: Mode, n: u32) -> Result<bool, NoMemory> {
    let whole = n.saturating_mul(2048);
    Ok(
        is_round(alloc, mode, 1, 2048)?
            && is_round(alloc, mode, whole, 2048)?
            && is_round(alloc, mode, whole.saturating_add(1), 2049)?,
    )
}

/// The modes, each with its N.
fn data_counts() -> [(Mode, u32); 8] {
    [
        (Mode::Ec3P3, 3),
        (Mode::Ec6P3, 6),
        (Mode::Ec6P6, 6),
        (Mode::Ec10P4, 10),
        (Mode::Ec12P4, 12),
        (Mode::Ec12P9, 12),
        (Mode::Ec16P4, 16),
        (Mode::Ec15P12, 15),
    ]
}

/// The first mode whose blobs aren't cut and joined.
fn miscut(alloc: Global) -> Result<Option<Mode>, NoMemory> {
    for (mode, n) in data_counts() {
        if !are_round(alloc, mode, n)? {
            return Ok(Some(mode));
        }
    }
    Ok(None)
}

/// Whether this byte stands at a place of a text that zeros follow.
fn stands(text: &[u8], place: usize, byte: u8) -> bool {
    match text.get(place) {
        Some(want) => byte == *want,
        None => byte == 0,
    }
}

/// Whether a shard has 2,048 bytes: a text, and zeros behind it.
fn is_padded(shard: Option<&[u8]>, text: &[u8]) -> bool {
    let Some(bytes) = shard else {
        return false;
    };
    for (place, byte) in bytes.iter().enumerate() {
        if !stands(text, place, *byte) {
            return false;
        }
    }
    bytes.len() == 2048
}

/// Whether the first of six shards holds the word `hello`, and the others zeros.
fn hold_hello(shards: &Shards) -> bool {
    for index in 1..6 {
        if !is_padded(shards.get(index), b"") {
            return false;
        }
    }
    is_padded(shards.get(0), b"hello")
}

/// Whether the word `hello` is cut into such shards, and joined again.
fn is_hello_cut(alloc: Global) -> Result<bool, NoMemory> {
    let shards = cut(alloc, Mode::Ec6P3, b"hello")?;
    Ok(hold_hello(&shards) && is_joined(alloc, Mode::Ec6P3, b"hello", 2048)?)
}

#[test]
fn blobs_are_cut_and_joined(rt: HostRuntime) -> Result<(), Fail> {
    let alloc = rt.alloc();
    assert_eq!(rt; miscut(alloc)?, None);
    assert!(rt; is_round(alloc, Mode::Ec6P3, 12_288, 2048)?);
    assert!(rt; is_round(alloc, Mode::Ec12P4, 4_194_304, 349_526)?);
    assert!(rt; is_hello_cut(alloc)?);
    cut_shards_join();
    any_shards_give_the_blob();
    Ok(())
}
