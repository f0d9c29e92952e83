//! Writing a record's bytes.

ghost use Rattle.std.specs.Prelude.{◌≡◌, ◌≤◌, ◌<◌, ◌^◌, ◌∷◌, ◌++◌, List, length, drop, IfOk, OnOk};
ghost use Rattle.std.specs.List.{flat_map};
ghost use Rattle.std.specs.Int.{w32, w64, to_be_bytes};
ghost use Rattle.shard_record.specs.Crc.{crc_of};
ghost use Rattle.volume_entry.specs.Spelling.{kind_of, mode_number, home_bytes, grant_bytes, fields_of, summed_part, HomeFits, GrantFits, DoHomesFit, DoGrantsFit, Fits, Spells};
ghost use Rattle.volume_entry.specs.RecordBytes.{record_of, IsShort};

use crate::record::{
    ASKED, COMMITTED, LEASED, LOCKED, LogRecord, MADE, NewHome, RETARGETED, SWAPPED, UNLOCKED,
    UnitHome,
};
use byteorder::{BigEndian, ByteOrder};
use code_mode::Mode;
use disk_base::NoMemory;
use shard_record::crc32;
use std::alloc::{AllocError, Global};
use unit_id::Bytes;

/// The byte that stands for a mode.
pub fn mode_number(mode: Mode) -> u8
    ensures { result ≡ mode_number mode }
{
    match mode {
        Mode::Ec3P3 => 1,
        Mode::Ec6P3 => 2,
        Mode::Ec6P6 => 3,
        Mode::Ec10P4 => 4,
        Mode::Ec12P4 => 5,
        Mode::Ec12P9 => 6,
        Mode::Ec16P4 => 7,
        Mode::Ec15P12 => 8,
    }
}

/// The byte that tells the kinds apart.
fn kind_of(item: &LogRecord) -> u8
    ensures { result ≡ kind_of (record_of item.now) }
{
    match item {
        LogRecord::Made { .. } => MADE,
        LogRecord::Leased { .. } => LEASED,
        LogRecord::Locked { .. } => LOCKED,
        LogRecord::Retargeted { .. } => RETARGETED,
        LogRecord::Swapped => SWAPPED,
        LogRecord::Unlocked => UNLOCKED,
        LogRecord::Asked { .. } => ASKED,
        LogRecord::Committed { .. } => COMMITTED,
    }
}

/// Appends a number.
fn add_long(out: &mut Vec<u8>, number: u64) -> Result<(), AllocError>
    ensures { OnOk result (out.new.items ≡ out.old.items ++ to_be_bytes w64 number) }
{
    out.extend_from_slice(&number.to_be_bytes())
}

/// Appends a home.
fn add_home(out: &mut Vec<u8>, home: &UnitHome) -> Result<(), AllocError>
    ensures added { OnOk result (out.new.items ≡ out.old.items ++ home_bytes home.now) }
    ensures fits { HomeFits home.now }
{
    out.extend_from_slice(&home.epoch.to_be_bytes())?;
    out.extend_from_slice(&home.disk.to_be_bytes())?;
    Ok(())
}

/// Appends an index and its new home.
fn add_grant(out: &mut Vec<u8>, grant: &NewHome) -> Result<(), AllocError>
    ensures added { OnOk result (out.new.items ≡ out.old.items ++ grant_bytes grant.now) }
    ensures fits { GrantFits grant.now }
{
    out.push(grant.index)?;
    out.extend_from_slice(&grant.dest.disk.to_be_bytes())?;
    out.extend_from_slice(&grant.dest.epoch.to_be_bytes())?;
    Ok(())
}

/// Appends homes.
fn add_homes(out: &mut Vec<u8>, homes: &[UnitHome]) -> Result<(), AllocError>
    ensures added { OnOk result (out.new.items ≡ out.old.items ++ flat_map home_bytes homes.now) }
    ensures fits { OnOk result (DoHomesFit homes.now) }
{
    for home in homes {
        add_home(out, home)?;
    }
    Ok(())
}

/// Appends indexes and their new homes.
fn add_grants(out: &mut Vec<u8>, grants: &[NewHome]) -> Result<(), AllocError>
    ensures added { OnOk result (out.new.items ≡ out.old.items ++ flat_map grant_bytes grants.now) }
    ensures fits { OnOk result (DoGrantsFit grants.now) }
{
    for grant in grants {
        add_grant(out, grant)?;
    }
    Ok(())
}

/// Appends what stands behind the kind of the record of a volume's making.
fn add_made(out: &mut Vec<u8>, vid: u32, mode: Mode, homes: &[UnitHome]) -> Result<(), AllocError>
    requires { length homes.now < 2 ^ 8 }
    ensures added { OnOk result (out.new.items
        ≡ out.old.items ++ (to_be_bytes w32 vid ++ (mode_number mode ∷ (length homes.now ∷ flat_map home_bytes homes.now)))) }
    ensures fits { OnOk result (DoHomesFit homes.now) }
{
    out.extend_from_slice(&vid.to_be_bytes())?;
    out.extend_from_slice(&[mode_number(mode), homes.len() as u8])?;
    add_homes(out, homes)
}

/// Appends what stands behind the kind of a lock's record.
fn add_locked(out: &mut Vec<u8>, task: u64, lock: u64, grants: &[NewHome]) -> Result<(), AllocError>
    requires { length grants.now < 2 ^ 8 }
    ensures added { OnOk result (out.new.items
        ≡ out.old.items ++ (to_be_bytes w64 task ++ (to_be_bytes w64 lock ++ (length grants.now ∷ flat_map grant_bytes grants.now)))) }
    ensures fits { OnOk result (DoGrantsFit grants.now) }
{
    add_long(out, task)?;
    add_long(out, lock)?;
    out.push(grants.len() as u8)?;
    add_grants(out, grants)
}

/// Appends what stands behind the kind.
#[tactic(auto, unfolding(crate::specs::Spelling::fields_of))]
fn add_fields(out: &mut Vec<u8>, vid: u32, mode: Mode, item: &LogRecord) -> Result<(), AllocError>
    requires { IsShort (record_of item.now) }
    ensures added { OnOk result (out.new.items ≡ out.old.items ++ fields_of vid mode (record_of item.now)) }
    ensures fits { OnOk result (Fits (record_of item.now)) }
{
    match item {
        LogRecord::Made { homes } => add_made(out, vid, mode, homes),
        LogRecord::Leased { end } => add_long(out, *end),
        LogRecord::Locked { task, lock, grants } => add_locked(out, *task, *lock, grants),
        LogRecord::Retargeted { grant } => add_grant(out, grant),
        LogRecord::Swapped | LogRecord::Unlocked => Ok(()),
        LogRecord::Asked { bid } => add_long(out, *bid),
        LogRecord::Committed { bid } => add_long(out, *bid),
    }
}

/// Writes the sum of the bytes from the fifth on into the first four.
fn put_sum(out: &mut [u8])
    requires { 4 ≤ length out.old }
    ensures { out.new ≡ to_be_bytes w32 (crc_of (drop 4 out.old)) ++ drop 4 out.old }
{
    let sum = crc32(&out[4..]);
    BigEndian::write_u32(out, sum);
}

/// The bytes of a record with a sum of 0.
fn without_sum(alloc: Global, vid: u32, mode: Mode, item: &LogRecord) -> Result<Vec<u8>, AllocError>
    requires { IsShort (record_of item.now) }
    ensures parts { IfOk result (λ out. out.items ≡ 0 ∷ 0 ∷ 0 ∷ 0 ∷ summed_part vid mode (record_of item.now)) }
    ensures fits { OnOk result (Fits (record_of item.now)) }
{
    let mut out = Vec::new(alloc);
    out.extend_from_slice(&[0, 0, 0, 0, kind_of(item)])?;
    add_fields(&mut out, vid, mode, item)?;
    Ok(out)
}

/// The spelling of a record in the log of a volume.
pub fn write(alloc: Global, vid: u32, mode: Mode, item: &LogRecord) -> Result<Bytes, NoMemory>
    requires { IsShort (record_of item.now) }
    ensures { IfOk result (Spells vid mode (record_of item.now)) }
{
    let mut out = without_sum(alloc, vid, mode, item)?;
    put_sum(&mut out);
    Ok(Bytes::from_vec(out))
}
