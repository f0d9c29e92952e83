//! Writing a record's bytes.

ghost use Rattle.std.specs.Prelude.{◌≡◌, ◌+◌, ◌^◌, ◌<◌, ◌≤◌, ◌∷◌, ◌++◌, length, drop, IfOk, OnOk};
ghost use Rattle.std.specs.Int.{w32, to_be_bytes};
ghost use Rattle.unit_id.specs.UnitName.{IsName};
ghost use Rattle.shard_record.specs.Crc.{crc_of};
ghost use Rattle.shard_record.specs.Spelling.{Spells, HasSizes, summed_part, shard_part, number_of, unit_of};

use crate::crc::crc32;
use crate::record::ShardRecord;
use byteorder::{BigEndian, ByteOrder};
use disk_base::NoMemory;
use std::alloc::{AllocError, Global};
use unit_id::Bytes;

/// How many bytes a record has.
fn room_of(item: &ShardRecord) -> usize
    requires { HasSizes item.now }
{
    match item {
        ShardRecord::Shard { bytes, .. } => 29 + bytes.len(),
        _ => 21,
    }
}

/// Appends the sizes and the bytes of a shard, and nothing of another record.
fn add_shard(out: &mut Vec<u8>, item: &ShardRecord) -> Result<(), AllocError>
    requires { HasSizes item.now }
    ensures { OnOk result (out.new.items ≡ out.old.items ++ shard_part item.now) }
{
    if let ShardRecord::Shard {
        blob_size,
        bytes,
        ..
    } = item
    {
        out.extend_from_slice(&blob_size.to_be_bytes())?;
        out.extend_from_slice(&(bytes.len() as u32).to_be_bytes())?;
        out.extend_from_slice(bytes.as_slice())?;
    }
    Ok(())
}

/// The bytes of a record with a sum of 0.
fn without_sum(alloc: Global, item: &ShardRecord) -> Result<Vec<u8>, AllocError>
    requires { HasSizes item.now }
    ensures parts { IfOk result (λ out. out.items ≡ 0 ∷ 0 ∷ 0 ∷ 0 ∷ summed_part item.now) }
    ensures number { OnOk result (number_of item.now < 2 ^ 64) }
    ensures unit { OnOk result (IsName (unit_of item.now)) }
{
    let mut out = Vec::with_capacity(alloc, room_of(item))?;
    out.extend_from_slice(&[0, 0, 0, 0, item.kind()])?;
    out.extend_from_slice(&item.number().to_be_bytes())?;
    out.extend_from_slice(&item.unit().pack().to_be_bytes())?;
    add_shard(&mut out, item)?;
    Ok(out)
}

/// Writes the sum of the bytes from the fifth on into the first four.
fn put_sum(out: &mut [u8])
    requires { 4 ≤ length out.old }
    ensures { out.new ≡ to_be_bytes w32 (crc_of (drop 4 out.old)) ++ drop 4 out.old }
{
    let sum = crc32(&out[4..]);
    BigEndian::write_u32(out, sum);
}

/// The spelling of a record.
pub fn write(alloc: Global, item: &ShardRecord) -> Result<Bytes, NoMemory>
    requires { HasSizes item.now }
    ensures { IfOk result (Spells item.now) }
{
    let mut out = without_sum(alloc, item)?;
    put_sum(&mut out);
    Ok(Bytes::from_vec(out))
}
