//! Putting an object.

ghost use Rattle.std.specs.Prelude.{◌≡◌, ◌≤◌, length, IfOk};
ghost use Rattle.rs_code.specs.Shape.{shape};
ghost use Rattle.code_mode.specs.declared.payload.Payload.TheVariants.{Plain};
ghost use Rattle.code_mode.specs.declared.stripe.TheConstants.{BLOB_LIMIT};
ghost use Rattle.volume_entry.specs.Manager.{IsBid};
ghost use Rattle.blob_access.specs.Coding.{coder_shape};
ghost use Rattle.object_access.specs.declared.pieces.TheConstants.{OBJECT_LIMIT};
ghost use Rattle.object_access.specs.Pieces.{blob_count, AreBids};
ghost use Rattle.object_access.specs.ObjectPut.{ObjectPuts};
ghost use Rattle.object_access.specs.ObjectParts.{PutsPiece};

use crate::pieces::{blob_count, piece};
use blob_access::{PutFault, put};
use code_mode::Payload;
use disk_base::NoMemory;
use rs_code::Coder;
use std::alloc::Global;
use unit_id::Bytes;
use volume_world::Port;

/// A copy of one blob's bytes.
fn copy_of(alloc: Global, piece: &[u8]) -> Result<Payload, NoMemory>
    ensures { IfOk result (λ payload. payload ≡ Plain piece.now) }
{
    let bytes = Vec::from_slice(alloc, piece)?;
    Ok(Payload::Plain(Bytes::from_vec(bytes)))
}

/// Puts one blob of an object.
fn put_piece<P: Port>(
    alloc: Global,
    port: &mut P,
    coder: &mut Coder,
    number: u64,
    piece: &[u8],
) -> Result<(), PutFault>
    requires coder { shape coder.old ≡ coder_shape (P.seen port.old).origin.mode }
    requires number { IsBid number }
    requires size { (1 ≤ length piece.now) × (length piece.now ≤ BLOB_LIMIT) }
    ensures puts { PutsPiece (P.seen port.old) (P.seen port.new) number piece.now result }
    ensures shape { shape coder.new ≡ shape coder.old }
{
    let payload = copy_of(alloc, piece)?;
    put(alloc, port, coder, number, payload)?;
    Ok(())
}

/// Puts an object of 1 to `OBJECT_LIMIT` bytes. Its blobs are put in order, the first one under this number and each further one
/// under the next number. Numbers of blobs are 1 to 2^62.
///
/// # Errors
///
/// The fault of the first blob whose put is refused, and no blob behind it is put. Those before it stay put.
pub fn put_object<P: Port>(
    alloc: Global,
    port: &mut P,
    coder: &mut Coder,
    first: u64,
    bytes: &[u8],
) -> Result<(), PutFault>
    requires coder { shape coder.old ≡ coder_shape (P.seen port.old).origin.mode }
    requires size { (1 ≤ length bytes.now) × (length bytes.now ≤ OBJECT_LIMIT) }
    requires numbers { AreBids first (blob_count (length bytes.now)) }
    ensures puts { ObjectPuts (P.seen port.old) (P.seen port.new) first bytes.now result }
    ensures shape { shape coder.new ≡ shape coder.old }
{
    let count = blob_count(bytes.len() as u32);
    'blobs: for place in 0..count {
        let number = first + u64::from(place);
        put_piece(alloc, port, coder, number, piece(bytes, place as usize))?;
    }
    Ok(())
}
