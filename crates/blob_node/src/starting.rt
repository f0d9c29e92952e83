//! The start of all units that stand on one disk.

ghost use Rattle.std.specs.Prelude.{◌≡◌, ℕ, true, is_some};
ghost use Rattle.unit_id.specs.Lists.{IsIn};
ghost use Rattle.blob_node.specs.UnitTable.{at_word};
ghost use Rattle.blob_node.specs.Starting.{StartsNext, StartsEach, StartsAll};

use crate::settled::Settled;
use crate::unit_table::UnitTable;
use chunk_store::ChunkFault;
use disk_base::Extent;
use std::alloc::Global;

// Starts all units in the order of their words, up to the first that doesn't start, and notes each record in doubt
// that is settled.
pub(crate) fn start_all<E: Extent>(
    alloc: Global,
    units: &mut UnitTable<E>,
    settled: &mut Vec<Settled>,
) -> Result<(), ChunkFault>
    ensures { StartsAll E.seen units.old units.new settled.old.items settled.new.items result }
{
    let words = units.words(alloc)?;
    start_each(units, words.as_slice(), settled)
}

// Starts the units of these words in turn.
fn start_each<E: Extent>(
    units: &mut UnitTable<E>,
    words: &[u64],
    settled: &mut Vec<Settled>,
) -> Result<(), ChunkFault>
    requires { (word : ℕ) → IsIn word words.now → is_some (at_word word units.old.units) ≡ true }
    ensures { StartsEach E.seen words.now units.old units.new settled.old.items settled.new.items result }
{
    'words: for word in words {
        start_next(units, *word, settled)?;
    }
    Ok(())
}

// Starts the unit of this word. The list gets its room first, so that nothing that is settled is lost.
fn start_next<E: Extent>(
    units: &mut UnitTable<E>,
    word: u64,
    settled: &mut Vec<Settled>,
) -> Result<(), ChunkFault>
    requires { is_some (at_word word units.old.units) ≡ true }
    ensures { StartsNext E.seen word units.old units.new settled.old.items settled.new.items result }
{
    settled.reserve(1)?;
    match units.start(word)? {
        Some(item) => settled.push_reserved(item),
        None => {}
    }
    Ok(())
}
