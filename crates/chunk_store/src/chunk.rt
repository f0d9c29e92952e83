//! The chunk itself.

ghost use Rattle.std.specs.Prelude.{◌≡◌, ◌≤◌, ◌+◌, List, true, false, None, OnOk, OnErr, IfSome, IsSomeAnd, IfErr, length};
ghost use Rattle.shard_record.specs.Rows.{row_at};
ghost use Rattle.shard_record.specs.Spelling.{HasSizes, unit_of};
ghost use Rattle.shard_record.specs.declared.record.ShardRecord.{ShardRecord};
ghost use Rattle.shard_record.specs.declared.record.ShardRecord.TheVariants.{Shard};
ghost use Rattle.chunk_store.specs.declared.answer.Put.TheVariants.{Stored};
ghost use Rattle.chunk_store.specs.declared.fault.ChunkFault.TheVariants.{Memory};
ghost use Rattle.chunk_store.specs.Kept.{row_of, kind_of, is_live, is_deleted, Lists};
ghost use Rattle.chunk_store.specs.Records.{IsChunkOf};
ghost use Rattle.chunk_store.specs.Chunk.{shown, IsSound, HasRecords, ChunkCall, StartAnswers, StartEnds, StartsWith, Starts, MayWrite, put_plan, mark_plan, free_plan, fence_plan, release_plan, Does, Adds, GetAnswers, Gets, IsReadOnly, ListAnswers};

use crate::index::{KeptRow, RowIndex};
use crate::reading::read_shard;
use crate::starting::start_rows;
use crate::writing::append_record;
use crate::{ChunkFault, Got, Put, RowKind};
use disk_base::Extent;
use gate_log::GateLog;
use shard_record::ShardRecord;
use std::alloc::Global;
use std::marker::Model;
use unit_id::{Bids, Bytes, UnitName};

/// The rows of one unit over its log.
///
/// It is seen as its unit, its log (its file, and where the next record will stand), the rows as memory
/// keeps them, whether it is shut, and for how many rows more memory has room. While it isn't shut over a
/// file that tells, the log's bodies are records of the unit, and memory reflects the rows that they leave.
#[derive(Drop)]
pub struct Chunk<E: Extent> {
    alloc: Global,
    unit: UnitName,
    log: GateLog<E>,
    index: RowIndex,
    is_shut: bool,
}

impl<E: Extent> Model for Chunk<E> {
    ghost use Rattle.chunk_store.specs.Chunk.{ChunkOver, coded_chunk, IsSoundOver};

    ghost Value = { ChunkOver E };

    ghost coded = { coded_chunk E.code };

    ghost view = { λ chunk. record {
      unit = chunk.unit;
      log = chunk.log;
      kept = chunk.index.kept;
      is_shut = chunk.is_shut;
      spare = chunk.index.spare;
    } };

    ghost invariant = { λ chunk. IsSoundOver chunk.unit chunk.index.kept (E.seen chunk.log.file) chunk.log.end chunk.is_shut };
}

impl<E: Extent> Chunk<E> {
    /// A chunk over a file, shut until it is started. It makes no call on the file and takes no memory.
    pub fn over(alloc: Global, file: E, unit: UnitName) -> Chunk<E>
        ensures unit { result.unit ≡ unit }
        ensures log { result.log ≡ record { file = file; end = None } }
        ensures shut { result.is_shut ≡ true }
    {
        Chunk {
            alloc,
            unit,
            log: GateLog::over(file),
            index: RowIndex::new(alloc),
            is_shut: true,
        }
    }

    /// Starts the chunk: starts its log, and reads all records into rows, one by one.
    ///
    /// # Errors
    ///
    /// `Damaged` comes exactly where the first record that can't be read has a wrong sum, with both sums.
    /// `Spoiled` comes exactly where it has another fault, names another unit or stands behind a release,
    /// with its place; with place 0 where the file doesn't begin as a log, and with the place of a broken
    /// chain. `Fault` comes only where the file's count of faults rose. After each of these the chunk is shut;
    /// `Memory` leaves it as it was. The file says the same as before, and so does what a crash leaves.
    pub fn start(&mut self) -> Result<(), ChunkFault>
        ensures unit { self.new.unit ≡ self.old.unit }
        ensures call { ChunkCall (E.seen self.old.log.file) (E.seen self.new.log.file) result }
        ensures answer { StartAnswers self.old.unit (E.seen self.old.log.file).content result }
        ensures ends { StartEnds (shown E.seen self.old) (shown E.seen self.new) result }
        ensures starts { IfSome (E.seen self.old.log.file).content (λ file. Starts file (E.seen self.old.log.file) (E.seen self.new.log.file)) }
        ensures records { (items : List ShardRecord) → IsSomeAnd (E.seen self.old.log.file).content (λ file. IsChunkOf file self.old.unit items) → StartsWith items (shown E.seen self.old) (shown E.seen self.new) result }
        ensures sound { IsSound (shown E.seen self.new) }
    {
        match start_rows(self.alloc, &mut self.log, self.unit) {
            Ok(index) => {
                self.index = index;
                self.is_shut = false;
                Ok(())
            }
            Err(fault) => {
                self.is_shut = fault.leaves_shut(self.is_shut);
                Err(fault)
            }
        }
    }

    /// Stores the shard of a blob of `blob_size` bytes, where the blob has no row. Both sizes are 1 to
    /// 4,194,304 bytes, and the unit isn't released.
    ///
    /// # Errors
    ///
    /// `Shut`, `Fenced` and `Full`, in this order, exactly where the chunk is so. `Fault` only where the
    /// file's count of faults rose; the chunk is then shut, and a start finds the row or not.
    pub fn put(&mut self, bid: u64, blob_size: u32, bytes: &[u8]) -> Result<Put, ChunkFault>
        requires unreleased { self.old.is_shut ≡ false → self.old.kept.is_released ≡ false }
        requires sizes { HasSizes (Shard bid self.old.unit blob_size bytes.now) }
        ensures { Does E.seen (put_plan self.old bid blob_size bytes.now) self.old self.new result }
    {
        self.check_writable()?;
        match self.index.row(bid) {
            None => self.put_new(bid, blob_size, bytes),
            Some(KeptRow::Live { .. }) => Ok(Put::Already),
            Some(KeptRow::Marked) | Some(KeptRow::Gone) => Ok(Put::Deleted),
        }
    }

    /// What the chunk has of a blob. The bytes of a shard are read back from the file.
    ///
    /// # Errors
    ///
    /// `Damaged` where the row is live and the sum of its record's bytes as read now differs, `Spoiled` where
    /// that record reads otherwise wrong; over a file that tells neither comes. `Shut` exactly where the
    /// chunk is shut, `Fault` only where the file's count of faults rose.
    pub fn get(&mut self, bid: u64) -> Result<Got, ChunkFault>
        ensures same { IsReadOnly (shown E.seen self.old) (shown E.seen self.new) }
        ensures call { ChunkCall (E.seen self.old.log.file) (E.seen self.new.log.file) result }
        ensures answer { GetAnswers self.old.unit bid self.old.is_shut (row_of self.old.kept bid) result }
        ensures told { self.old.is_shut ≡ false → (items : List ShardRecord) → HasRecords (shown E.seen self.old) items → Gets (row_at items bid) result }
    {
        if self.is_shut {
            return Err(ChunkFault::Shut);
        }
        match self.index.row(bid) {
            None => Ok(Got::Absent),
            Some(KeptRow::Marked) => Ok(Got::Marked),
            Some(KeptRow::Gone) => Ok(Got::Gone),
            Some(KeptRow::Live { place, blob_size }) => {
                let bytes = read_shard(
                    self.alloc,
                    &mut self.log,
                    self.unit,
                    bid,
                    blob_size,
                    place,
                )?;
                Ok(Got::Live { blob_size, bytes })
            }
        }
    }

    /// Marks a blob as deleted: true where its row was live or absent, false where it was marked or gone.
    /// The unit isn't released.
    ///
    /// # Errors
    ///
    /// As for `put`.
    pub fn mark(&mut self, bid: u64) -> Result<bool, ChunkFault>
        requires unreleased { self.old.is_shut ≡ false → self.old.kept.is_released ≡ false }
        ensures { Does E.seen (mark_plan self.old bid) self.old self.new result }
    {
        self.check_writable()?;
        match self.index.row(bid) {
            None | Some(KeptRow::Live { .. }) => {
                let unit = self.unit;
                self.add(&ShardRecord::Mark { bid, unit }, true)
            }
            Some(KeptRow::Marked) | Some(KeptRow::Gone) => Ok(false),
        }
    }

    /// Gives up the shard of a marked blob for good: true where it was marked, false where it was gone. The
    /// unit isn't released.
    ///
    /// # Errors
    ///
    /// `NotMarked` exactly where the row is live or absent, behind `Shut` and `Fenced`; else as for `put`.
    pub fn free(&mut self, bid: u64) -> Result<bool, ChunkFault>
        requires unreleased { self.old.is_shut ≡ false → self.old.kept.is_released ≡ false }
        ensures { Does E.seen (free_plan self.old bid) self.old self.new result }
    {
        self.check_writable()?;
        match self.index.row(bid) {
            None | Some(KeptRow::Live { .. }) => Err(ChunkFault::NotMarked),
            Some(KeptRow::Marked) => {
                let unit = self.unit;
                self.add(&ShardRecord::Free { bid, unit }, true)
            }
            Some(KeptRow::Gone) => Ok(false),
        }
    }

    /// The blobs whose row is live, and those whose row is marked or gone, each in ascending order.
    ///
    /// # Errors
    ///
    /// `Shut` exactly where the chunk is shut.
    pub fn list(&self) -> Result<(Bids, Bids), ChunkFault>
        ensures { ListAnswers self.now.is_shut (λ lists. Lists is_live self.now.kept lists.0 × Lists is_deleted self.now.kept lists.1) result }
    {
        if self.is_shut {
            return Err(ChunkFault::Shut);
        }
        Ok(self.index.listing(self.alloc)?)
    }

    /// Takes no write of a row any more, by the lock of this number. The unit isn't released.
    ///
    /// # Errors
    ///
    /// `Fenced` exactly where another lock fenced before, behind `Shut`; else as for `put`.
    pub fn fence(&mut self, lock: u64) -> Result<(), ChunkFault>
        requires unreleased { self.old.is_shut ≡ false → self.old.kept.is_released ≡ false }
        ensures { Does E.seen (fence_plan self.old lock) self.old self.new result }
    {
        if self.is_shut {
            return Err(ChunkFault::Shut);
        }
        match self.index.fence() {
            None => {
                let unit = self.unit;
                self.add(&ShardRecord::Fence { lock, unit }, ())
            }
            Some(first) => {
                if first == lock {
                    return Ok(());
                }
                Err(ChunkFault::Fenced { lock: first })
            }
        }
    }

    /// Gives up the unit with all its rows and its fence. The unit isn't released.
    ///
    /// # Errors
    ///
    /// `Shut`, `Full` and `Fault` as for `put`.
    pub fn release(&mut self) -> Result<(), ChunkFault>
        requires unreleased { self.old.is_shut ≡ false → self.old.kept.is_released ≡ false }
        ensures { Does E.seen (release_plan self.old) self.old self.new result }
    {
        if self.is_shut {
            return Err(ChunkFault::Shut);
        }
        let unit = self.unit;
        self.add(&ShardRecord::Release { unit }, ())
    }

    /// Makes room for so many rows more. The next so many records grow nothing then but their own buffers
    /// and the file's room.
    pub fn reserve(&mut self, rows: usize) -> Result<(), ChunkFault>
        ensures room { OnOk result (rows ≤ self.new.spare) }
        ensures named { IfErr result (λ fault. fault ≡ Memory) }
        ensures spare { self.old.spare ≤ self.new.spare }
        ensures same { self.new ≡ record self.old { spare = self.new.spare } }
    {
        Ok(self.index.reserve(rows)?)
    }

    /// Whether the chunk is shut: no start answered Ok since it was made, since its last write that answered
    /// `Fault`, or since its last start that was refused for another cause than memory.
    pub fn is_shut(&self) -> bool
        ensures shut { result ≡ self.now.is_shut }
        ensures sound { IsSound (shown E.seen self.now) }
    {
        self.is_shut
    }

    /// Whether the unit was released. The chunk isn't shut.
    pub fn is_released(&self) -> bool
        requires { self.now.is_shut ≡ false }
        ensures { result ≡ self.now.kept.is_released }
    {
        self.index.is_released()
    }

    /// The unit whose rows these are.
    pub fn unit(&self) -> UnitName
        ensures { result ≡ self.now.unit }
    {
        self.unit
    }

    /// What memory keeps of the row of a blob.
    pub fn row(&self, bid: u64) -> Option<RowKind>
        ensures { result ≡ kind_of (row_of self.now.kept bid) }
    {
        match self.index.row(bid) {
            None => None,
            Some(KeptRow::Live { .. }) => Some(RowKind::Live),
            Some(KeptRow::Marked) => Some(RowKind::Marked),
            Some(KeptRow::Gone) => Some(RowKind::Gone),
        }
    }

    /// The number of the lock that fenced the chunk, as memory keeps it.
    pub fn fence_lock(&self) -> Option<u64>
        ensures { result ≡ self.now.kept.fence }
    {
        self.index.fence()
    }

    /// The file, as the chunk leaves it.
    pub fn into_file(self) -> E
        ensures { result ≡ self.log.file }
    {
        self.log.into_file()
    }

    // Refuses what would write a row while the chunk is shut or fenced.
    fn check_writable(&self) -> Result<(), ChunkFault>
        ensures { MayWrite self.now.is_shut self.now.kept.fence result }
    {
        if self.is_shut {
            return Err(ChunkFault::Shut);
        }
        if let Some(lock) = self.index.fence() {
            return Err(ChunkFault::Fenced { lock });
        }
        Ok(())
    }

    // Stores the shard of a blob that has no row.
    fn put_new(&mut self, bid: u64, blob_size: u32, bytes: &[u8]) -> Result<Put, ChunkFault>
        requires open { self.old.is_shut ≡ false }
        requires unreleased { self.old.kept.is_released ≡ false }
        requires sizes { HasSizes (Shard bid self.old.unit blob_size bytes.now) }
        ensures { Adds (Shard bid self.old.unit blob_size bytes.now) Stored (shown E.seen self.old) (shown E.seen self.new) result }
    {
        let unit = self.unit;
        let bytes = Bytes::from_vec(bytes.to_vec(self.alloc)?);
        let item = ShardRecord::Shard {
            bid,
            unit,
            blob_size,
            bytes,
        };
        self.add(&item, Put::Stored)
    }

    // Writes a record and notes what it does, and then answers so.
    fn add<T: Copy>(&mut self, item: &ShardRecord, answer: T) -> Result<T, ChunkFault>
        requires open { self.old.is_shut ≡ false }
        requires unreleased { self.old.kept.is_released ≡ false }
        requires sizes { HasSizes item.now }
        requires own { unit_of item.now ≡ self.old.unit }
        ensures { Adds item.now answer (shown E.seen self.old) (shown E.seen self.new) result }
    {
        self.index.reserve(1)?;
        match append_record(self.alloc, &mut self.log, item) {
            Ok(place) => {
                self.index.note(item, place);
                Ok(answer)
            }
            Err(fault) => {
                self.is_shut = fault.is_fault();
                Err(fault)
            }
        }
    }
}
