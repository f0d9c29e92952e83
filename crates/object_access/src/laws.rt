//! What holds of every object.

ghost use Rattle.std.specs.Prelude.{ℕ, List};
ghost use Rattle.object_access.specs.Availability.{ObjectsAreGot};
ghost use Rattle.object_access.specs.RoundTrip.{ObjectsAreGotBack, PiecesAreTheObject, PutObjectsAreBegun};

use blob_access::laws::gets_give_the_blob;

/// The blobs of an object, joined, are its bytes. As many as `blob_count` says have the sizes that `blob_size` says, each at
/// least 1 and at most `BLOB_LIMIT`.
pub fn pieces_are_the_object()
    ensures { (bytes : List ℕ) → PiecesAreTheObject bytes }
{}

/// Wherever the put of an object leads that isn't refused, the blobs are begun with the object's bytes.
pub fn put_objects_are_begun()
    ensures { PutObjectsAreBegun }
{}

/// Of an object whose blobs are begun with its bytes no get gives other bytes, however the volume went on before it.
pub fn objects_are_got_back()
    ensures { ObjectsAreGotBack }
{}

/// An object is got whose blobs are all available, as `blob_access` says it of one blob. Else one of them has another size, units
/// moved at every try, or a look failed.
pub fn objects_are_got()
    ensures { ObjectsAreGot }
{
    gets_give_the_blob();
}
