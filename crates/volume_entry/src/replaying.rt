//! How the bodies of a log become a table.

ghost use Rattle.std.specs.Prelude.{◌≡◌, ◌+◌, ◌<◌, ◌^◌, List, IfOk, IfSome, OnErr, None};
ghost use Rattle.unit_id.specs.Place.{Location};
ghost use Rattle.volume_entry.specs.Manager.{ManagerRecord};
ghost use Rattle.volume_entry.specs.RecordBytes.{record_of};
ghost use Rattle.volume_entry.specs.Replaying.{MakesTable, TakesBody};
ghost use Rattle.volume_entry.specs.TableParts.{part_of, shape_of};

use crate::first_homes::are_first_homes;
use crate::reading::read;
use crate::record::{LogRecord, UnitHome};
use crate::shape::Shape;
use crate::table::Table;
use std::alloc::{AllocError, Global};

/// The homes of the record of a volume's making.
fn homes_in(item: LogRecord) -> Option<Vec<UnitHome>>
    ensures some { IfSome result (λ homes. record_of item ≡ ManagerRecord.Made homes.items) }
    ensures none { result ≡ None → (homes : List Location) → record_of item ≡ ManagerRecord.Made homes → ⊥ }
{
    match item {
        LogRecord::Made { homes } => Some(homes),
        _ => None,
    }
}

impl Table {
    /// The table of a volume as the first body of its log says that it was made, where the body is such a record.
    pub fn made(
        alloc: Global,
        vid: u32,
        shape: Shape,
        body: &[u8],
    ) -> Result<Option<Table>, AllocError>
        ensures { IfOk result (MakesTable vid shape body.now) }
    {
        let Some(item) = read(alloc, vid, shape.mode, body)? else {
            return Ok(None);
        };
        let Some(homes) = homes_in(item) else {
            return Ok(None);
        };
        if !are_first_homes(shape, &homes) {
            return Ok(None);
        }
        Ok(Some(Table::fresh(alloc, homes)?))
    }

    /// Takes the record that a further body of the log spells, where it spells one that is legal behind those that the table
    /// has, and answers whether it does.
    ///
    /// # Errors
    ///
    /// Want of memory, which leaves the table as it was.
    pub fn take_body(
        &mut self,
        alloc: Global,
        vid: u32,
        shape: Shape,
        body: &[u8],
    ) -> Result<bool, AllocError>
        requires { self.old.version + 1 < 2 ^ 64 }
        ensures taken { IfOk result (TakesBody vid shape body.now (part_of self.old) (part_of self.new)) }
        ensures same { OnErr result (part_of self.new ≡ part_of self.old) }
    {
        match read(alloc, vid, shape.mode, body)? {
            Some(item) => self.take_legal(alloc, shape, &item),
            None => Ok(false),
        }
    }
}
