//! The chunk of a unit that is to be made.

ghost use Rattle.std.specs.Prelude.{◌≡◌, false};
ghost use Rattle.unit_id.specs.UnitName.{packed};
ghost use Rattle.blob_node.specs.NewChunk.{Lends, StartsNew, TriesThrough, lent_file, chunk_file};

use chunk_store::{Chunk, ChunkFault};
use disk_base::{Shelf, ShelfFault};
use std::alloc::Global;
use unit_id::UnitName;

// A started chunk of a unit over a new file of the shelf, or over the one that an earlier try left. Where it gives
// up the file is on the shelf again.
pub(crate) fn new_chunk<H: Shelf>(
    alloc: Global,
    shelf: &mut H,
    unit: UnitName,
) -> Result<Chunk<H::File>, ChunkFault>
    requires { (H.seen shelf.old).is_out (packed unit) ≡ false }
    ensures starts { StartsNew H.File.seen unit (H.seen shelf.old) (H.seen shelf.new) result }
    ensures moments { TriesThrough H.seen H.File.seen unit shelf.old shelf.new (chunk_file result) }
{
    let file = match lend(alloc, shelf, unit) {
        Ok(file) => file,
        Err(ShelfFault::Failed) => return Err(ChunkFault::Fault),
        Err(ShelfFault::Memory) => return Err(ChunkFault::Memory),
        Err(ShelfFault::Exists) | Err(ShelfFault::Absent) => unreachable!(),
    };
    let mut chunk = Chunk::over(alloc, file, unit);
    match chunk.start() {
        Ok(()) => Ok(chunk),
        Err(fault) => {
            shelf.hold(unit.pack(), chunk.into_file());
            Err(fault)
        }
    }
}

// The file of a unit: a new one, or the one that is there.
fn lend<H: Shelf>(alloc: Global, shelf: &mut H, unit: UnitName) -> Result<H::File, ShelfFault>
    requires { (H.seen shelf.old).is_out (packed unit) ≡ false }
    ensures lends { Lends H.File.seen unit (H.seen shelf.old) (H.seen shelf.new) result }
    ensures moments { TriesThrough H.seen H.File.seen unit shelf.old shelf.new (lent_file result) }
{
    let word = unit.pack();
    match shelf.make(alloc, word) {
        Ok(file) => Ok(file),
        Err(ShelfFault::Exists) => shelf.open(alloc, word),
        Err(ShelfFault::Failed) => Err(ShelfFault::Failed),
        Err(ShelfFault::Memory) => Err(ShelfFault::Memory),
        Err(ShelfFault::Absent) => unreachable!(),
    }
}
