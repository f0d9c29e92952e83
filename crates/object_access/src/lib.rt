//! Puts and gets of objects of several blobs, over any way to their volume.
//!
//! An object has 1 to `OBJECT_LIMIT` bytes and is cut in order into blobs of `BLOB_LIMIT` bytes, of which the last one may be
//! shorter. Their numbers follow each other. `put_object` puts one blob after the other and `get_object` gets them, each by the
//! call of `blob_access`; the first blob that is refused ends the call with its fault. What both ask, and what they answer,
//! stands in `specs/ObjectPut` and `specs/ObjectGet`, and how an object is cut in `specs/Pieces`.
//!
//! By the laws `put_objects_are_begun` and `objects_are_got_back` the blobs of an object whose put wasn't refused are begun
//! with its bytes wherever the volume goes from there, and no later get gives other bytes. By `objects_are_got` an object whose
//! blobs are all available is got, unless units moved at every try, a look failed, or a blob has another size.
#![tactic(auto)]

mod getting;
pub mod laws;
mod pieces;
mod putting;
#[cfg(test)]
mod tests;

pub use getting::get_object;
pub use pieces::{OBJECT_LIMIT, blob_count, blob_size};
pub use putting::put_object;
