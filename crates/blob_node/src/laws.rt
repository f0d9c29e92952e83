//! What follows from the definitions, whatever is asked in whatever order.

ghost use Rattle.std.specs.Prelude.{◌≡◌};
ghost use Rattle.blob_node.specs.Laws.{DoneIsHeld, FencedUnitsTakeNoWrites, MarksStay};
ghost use Rattle.blob_node.specs.Station.{IsQuiet, faults_of};

use crate::Station;
use disk_base::Shelf;

/// A row that is marked or gone stays so whatever record is written, unless its unit is released.
pub fn marks_stay()
    ensures { MarksStay }
{}

/// A unit that is fenced writes no shard, mark or free, and leaves none in doubt.
pub fn fenced_units_take_no_writes()
    ensures { FencedUnitsTakeNoWrites }
{}

/// After a put or a copy that is answered Done the unit has a live row of the blob.
pub fn done_is_held()
    ensures { DoneIsHeld }
{}

/// A station on whose shelf and files no call ever fails has counted no fault.
pub fn quiet_has_no_fault<H: Shelf>(station: &Station<H>)
    ensures { IsQuiet H.seen H.File.seen station.now → faults_of H.seen H.File.seen station.now ≡ 0 }
{}
