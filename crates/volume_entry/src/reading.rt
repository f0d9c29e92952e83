//! Reading a record from bytes.

ghost use Rattle.std.specs.Prelude.{◌≡◌, ◌≤◌, ◌<◌, ◌+◌, ◌*◌, ◌^◌, ◌++◌, ℕ, List, length, IfOk, IfSome, None};
ghost use Rattle.std.specs.List.{flat_map};
ghost use Rattle.std.specs.Int.{w32, w64, to_be_bytes};
ghost use Rattle.volume_entry.specs.Spelling.{home_bytes, grant_bytes, GrantFits, HomeFits, DoHomesFit, DoGrantsFit};
ghost use Rattle.code_mode.specs.declared.mode.Mode.{Mode};
ghost use Rattle.volume_entry.specs.RecordBytes.{FieldsAnswer, ReadAnswer};

use crate::record::{
    ASKED, COMMITTED, LEASED, LOCKED, LogRecord, MADE, NewHome, RETARGETED, SWAPPED, UNLOCKED,
    UnitHome,
};
use crate::writing::mode_number;
use code_mode::Mode;
use shard_record::crc32;
use std::alloc::{AllocError, Global};

/// The bytes of a home.
const HOME: usize = 8;

/// The bytes of an index and its new home.
const GRANT: usize = 9;

/// The bytes before the homes of a volume's making.
const MADE_HEAD: usize = 6;

/// The bytes before the grants of a lock.
const LOCK_HEAD: usize = 17;

/// The number of the first four bytes, and the bytes behind it.
fn split_word(bytes: &[u8]) -> (u32, &[u8])
    requires { 4 ≤ length bytes.now }
    ensures split { bytes.now ≡ to_be_bytes w32 result.0 ++ result.1.now }
    ensures fits { result.0 < 2 ^ 32 }
{
    let (word, rest) = bytes.split_at(4);
    (u32::from_be_bytes(*word.first_chunk().unwrap()), rest)
}

/// The number of the first eight bytes, and the bytes behind it.
fn split_long(bytes: &[u8]) -> (u64, &[u8])
    requires { 8 ≤ length bytes.now }
    ensures split { bytes.now ≡ to_be_bytes w64 result.0 ++ result.1.now }
    ensures fits { result.0 < 2 ^ 64 }
{
    let (long, rest) = bytes.split_at(8);
    (u64::from_be_bytes(*long.first_chunk().unwrap()), rest)
}

/// The home of the first eight bytes, and the bytes behind it.
fn split_home(bytes: &[u8]) -> (UnitHome, &[u8])
    requires { 8 ≤ length bytes.now }
    ensures split { bytes.now ≡ home_bytes result.0 ++ result.1.now }
    ensures fits { HomeFits result.0 }
{
    let (epoch, rest) = split_word(bytes);
    let (disk, rest) = split_word(rest);
    (UnitHome { epoch, disk }, rest)
}

/// The grant of the first nine bytes, and the bytes behind it.
fn split_grant(bytes: &[u8]) -> (NewHome, &[u8])
    requires { 9 ≤ length bytes.now }
    ensures split { bytes.now ≡ grant_bytes result.0 ++ result.1.now }
    ensures fits { GrantFits result.0 }
{
    let index = bytes[0];
    let (disk, rest) = split_word(&bytes[1..]);
    let (epoch, rest) = split_word(rest);
    let dest = UnitHome { epoch, disk };
    (NewHome { index, dest }, rest)
}

/// The homes that the bytes are.
fn read_homes(alloc: Global, bytes: &[u8]) -> Result<Vec<UnitHome>, AllocError>
    ensures homes { (count : ℕ) → length bytes.now ≡ 8 * count → IfOk result (λ homes. (bytes.now ≡ flat_map home_bytes homes.items) × (length homes.items ≡ count)) }
    ensures fits { IfOk result (λ homes. DoHomesFit homes.items) }
{
    let mut homes = Vec::new(alloc);
    let mut left = bytes;
    while left.len() >= HOME {
        let (home, rest) = split_home(left);
        homes.push(home)?;
        left = rest;
    }
    Ok(homes)
}

/// The grants that the bytes are.
fn read_grants(alloc: Global, bytes: &[u8]) -> Result<Vec<NewHome>, AllocError>
    ensures grants { (count : ℕ) → length bytes.now ≡ 9 * count → IfOk result (λ grants. (bytes.now ≡ flat_map grant_bytes grants.items) × (length grants.items ≡ count)) }
    ensures fits { IfOk result (λ grants. DoGrantsFit grants.items) }
{
    let mut grants = Vec::new(alloc);
    let mut left = bytes;
    while left.len() >= GRANT {
        let (grant, rest) = split_grant(left);
        grants.push(grant)?;
        left = rest;
    }
    Ok(grants)
}

/// Reads the record of a volume's making.
fn read_made(
    alloc: Global,
    vid: u32,
    mode: Mode,
    fields: &[u8],
) -> Result<Option<LogRecord>, AllocError>
    ensures { IfOk result (FieldsAnswer vid mode 1 fields.now) }
{
    if fields.len() < MADE_HEAD {
        return Ok(None);
    }
    let (stated, rest) = split_word(fields);
    let homes = &rest[2..];
    if stated != vid || rest[0] != mode_number(mode) || homes.len() != HOME * usize::from(rest[1]) {
        return Ok(None);
    }
    let homes = read_homes(alloc, homes)?;
    Ok(Some(LogRecord::Made { homes }))
}

/// Reads the record of a lock.
fn read_locked(alloc: Global, fields: &[u8]) -> Result<Option<LogRecord>, AllocError>
    ensures { (vid : ℕ) (mode : Mode) → IfOk result (FieldsAnswer vid mode 3 fields.now) }
{
    if fields.len() < LOCK_HEAD {
        return Ok(None);
    }
    let (task, rest) = split_long(fields);
    let (lock, rest) = split_long(rest);
    let grants = &rest[1..];
    if grants.len() != GRANT * usize::from(rest[0]) {
        return Ok(None);
    }
    let grants = read_grants(alloc, grants)?;
    Ok(Some(LogRecord::Locked { task, lock, grants }))
}

/// Reads the record of a new destination.
fn read_retargeted(fields: &[u8]) -> Option<LogRecord>
    ensures { (vid : ℕ) (mode : Mode) → FieldsAnswer vid mode 4 fields.now result }
{
    if fields.len() != GRANT {
        return None;
    }
    let (grant, _rest) = split_grant(fields);
    Some(LogRecord::Retargeted { grant })
}

/// The number that the bytes are, where they are eight.
fn read_long(fields: &[u8]) -> Option<u64>
    ensures some { IfSome result (λ number. (fields.now ≡ to_be_bytes w64 number) × (number < 2 ^ 64)) }
    ensures none { result ≡ None → length fields.now ≡ 8 → ⊥ }
{
    if fields.len() != 8 {
        return None;
    }
    let (number, _rest) = split_long(fields);
    Some(number)
}

/// Reads the record of a lease.
fn read_leased(fields: &[u8]) -> Option<LogRecord>
    ensures { (vid : ℕ) (mode : Mode) → FieldsAnswer vid mode 2 fields.now result }
{
    let end = read_long(fields)?;
    Some(LogRecord::Leased { end })
}

/// Reads the record of a swap.
fn read_swapped(fields: &[u8]) -> Option<LogRecord>
    ensures { (vid : ℕ) (mode : Mode) → FieldsAnswer vid mode 5 fields.now result }
{
    if !fields.is_empty() {
        return None;
    }
    Some(LogRecord::Swapped)
}

/// Reads the record of a lock's end.
fn read_unlocked(fields: &[u8]) -> Option<LogRecord>
    ensures { (vid : ℕ) (mode : Mode) → FieldsAnswer vid mode 6 fields.now result }
{
    if !fields.is_empty() {
        return None;
    }
    Some(LogRecord::Unlocked)
}

/// Reads the record of a blob that is to be deleted.
fn read_asked(fields: &[u8]) -> Option<LogRecord>
    ensures { (vid : ℕ) (mode : Mode) → FieldsAnswer vid mode 7 fields.now result }
{
    let bid = read_long(fields)?;
    Some(LogRecord::Asked { bid })
}

/// Reads the record of a delete that is settled.
fn read_committed(fields: &[u8]) -> Option<LogRecord>
    ensures { (vid : ℕ) (mode : Mode) → FieldsAnswer vid mode 8 fields.now result }
{
    let bid = read_long(fields)?;
    Some(LogRecord::Committed { bid })
}

/// Reads what stands behind the sum.
fn read_fields(
    alloc: Global,
    vid: u32,
    mode: Mode,
    kind: u8,
    fields: &[u8],
) -> Result<Option<LogRecord>, AllocError>
    ensures { IfOk result (FieldsAnswer vid mode kind fields.now) }
{
    match kind {
        MADE => read_made(alloc, vid, mode, fields),
        LEASED => Ok(read_leased(fields)),
        LOCKED => read_locked(alloc, fields),
        RETARGETED => Ok(read_retargeted(fields)),
        SWAPPED => Ok(read_swapped(fields)),
        UNLOCKED => Ok(read_unlocked(fields)),
        ASKED => Ok(read_asked(fields)),
        COMMITTED => Ok(read_committed(fields)),
        _ => Ok(None),
    }
}

/// The record that the bytes spell in the log of a volume, where they spell one.
pub fn read(
    alloc: Global,
    vid: u32,
    mode: Mode,
    bytes: &[u8],
) -> Result<Option<LogRecord>, AllocError>
    ensures { IfOk result (ReadAnswer vid mode bytes.now) }
{
    if bytes.len() < 5 {
        return Ok(None);
    }
    let (sum, summed) = split_word(bytes);
    if sum != crc32(summed) {
        return Ok(None);
    }
    read_fields(alloc, vid, mode, summed[0], &summed[1..])
}
