//! Getting an object.

ghost use Rattle.std.specs.Prelude.{◌≡◌, ◌≤◌, ◌++◌, [], IfOk, OnOk};
ghost use Rattle.rs_code.specs.Shape.{shape};
ghost use Rattle.code_mode.specs.declared.stripe.TheConstants.{BLOB_LIMIT};
ghost use Rattle.volume_entry.specs.Manager.{IsBid};
ghost use Rattle.blob_access.specs.Coding.{coder_shape};
ghost use Rattle.object_access.specs.declared.pieces.TheConstants.{OBJECT_LIMIT};
ghost use Rattle.object_access.specs.Pieces.{blob_count, AreBids};
ghost use Rattle.object_access.specs.ObjectGet.{ObjectGets};
ghost use Rattle.object_access.specs.ObjectParts.{GetsBehind};

use crate::pieces::{blob_count, blob_size};
use blob_access::{GetFault, get};
use disk_base::NoMemory;
use rs_code::Coder;
use std::alloc::Global;
use unit_id::Bytes;
use volume_world::Port;

/// Room for all bytes of an object.
fn room_for(alloc: Global, size: u32) -> Result<Vec<u8>, NoMemory>
    ensures { IfOk result (λ object. object.items ≡ []) }
{
    Ok(Vec::with_capacity(alloc, size as usize)?)
}

/// Adds the bytes of one blob.
fn append(object: &mut Vec<u8>, blob: &Bytes) -> Result<(), NoMemory>
    ensures { OnOk result (object.new.items ≡ object.old.items ++ blob.now) }
{
    object.extend_from_slice(blob.as_slice())?;
    Ok(())
}

/// Gets one blob of an object, and adds its bytes to those before.
fn get_behind<P: Port>(
    alloc: Global,
    port: &mut P,
    coder: &mut Coder,
    number: u64,
    size: u32,
    object: &mut Vec<u8>,
) -> Result<(), GetFault>
    requires coder { shape coder.old ≡ coder_shape (P.seen port.old).origin.mode }
    requires number { IsBid number }
    requires size { (1 ≤ size) × (size ≤ BLOB_LIMIT) }
    ensures gets { GetsBehind (P.seen port.old) (P.seen port.new) number size object.old.items object.new.items result }
    ensures shape { shape coder.new ≡ shape coder.old }
{
    let blob = get(alloc, port, coder, number, size)?;
    append(object, &blob)?;
    Ok(())
}

/// Gets an object of so many bytes, 1 to `OBJECT_LIMIT`, the first blob of which has this number. Its blobs are got in order.
/// Numbers of blobs are 1 to 2^62.
///
/// # Errors
///
/// The fault of the first blob that isn't got, and no blob behind it is asked for.
pub fn get_object<P: Port>(
    alloc: Global,
    port: &mut P,
    coder: &mut Coder,
    first: u64,
    size: u32,
) -> Result<Bytes, GetFault>
    requires coder { shape coder.old ≡ coder_shape (P.seen port.old).origin.mode }
    requires size { (1 ≤ size) × (size ≤ OBJECT_LIMIT) }
    requires numbers { AreBids first (blob_count size) }
    ensures gets { ObjectGets (P.seen port.old) (P.seen port.new) first size result }
    ensures shape { shape coder.new ≡ shape coder.old }
{
    let mut object = room_for(alloc, size)?;
    'blobs: for place in 0..blob_count(size) {
        let number = first + u64::from(place);
        get_behind(
            alloc,
            port,
            coder,
            number,
            blob_size(size, place),
            &mut object,
        )?;
    }
    Ok(Bytes::from_vec(object))
}
