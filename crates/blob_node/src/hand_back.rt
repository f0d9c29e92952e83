//! The files of all units go back to their shelf.

ghost use Rattle.blob_node.specs.Station.{AreOut, HandsBack};

use crate::HeldUnit;
use disk_base::Shelf;
use indexmap::IndexMap;

// Gives the file of each unit back to the shelf that handed it out.
pub(crate) fn hand_back<H: Shelf>(shelf: H, units: IndexMap<u64, HeldUnit<H::File>>) -> H
    requires { AreOut (H.seen shelf) units.entries }
    ensures { HandsBack H.seen H.File.seen shelf units.entries result }
{
    let mut shelf = shelf;
    let mut units = units;
    while let Some((word, held)) = units.pop() {
        shelf.hold(word, held.into_chunk().into_file());
    }
    shelf
}
