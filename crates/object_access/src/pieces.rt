//! How an object is cut into blobs.

ghost use Rattle.std.specs.Prelude.{◌≡◌, ◌<◌, [], length, slice_index_or};
ghost use Rattle.object_access.specs.Pieces.{blob_count, blob_size, pieces_of};

use code_mode::BLOB_LIMIT;

/// The most bytes that an object has.
pub const OBJECT_LIMIT: u32 = 16_777_216;

/// How many blobs an object of so many bytes has.
pub fn blob_count(size: u32) -> u32
    ensures { result ≡ blob_count size }
{
    size.div_ceil(BLOB_LIMIT)
}

/// How many bytes the blob at a place has, counted from 0.
pub fn blob_size(size: u32, place: u32) -> u32
    requires { place < blob_count size }
    ensures { result ≡ blob_size size place }
{
    BLOB_LIMIT.min(size - place * BLOB_LIMIT)
}

/// The bytes of the blob at a place.
pub(crate) fn piece(bytes: &[u8], place: usize) -> &[u8]
    requires { place < blob_count (length bytes.now) }
    ensures { result.now ≡ slice_index_or (pieces_of bytes.now) place [] }
{
    let limit = BLOB_LIMIT as usize;
    let rest = &bytes[place * limit..];
    &rest[..limit.min(rest.len())]
}
