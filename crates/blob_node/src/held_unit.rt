//! One unit on a station: its chunk, and how it answers.

ghost use Rattle.std.specs.Prelude.{◌≡◌, ℕ, false, None, is_some, MatchResult, IfErr};
ghost use Rattle.chunk_store.specs.Kept.{shut_after};
ghost use Rattle.shard_record.specs.Spelling.{HasSizes};
ghost use Rattle.shard_record.specs.declared.record.ShardRecord.TheVariants.{Shard};
ghost use Rattle.chunk_store.specs.Chunk.{IsSound, shown, ChunkCall};
ghost use Rattle.unit_id.specs.declared.request.Request.TheVariants as requests;
ghost use Rattle.unit_id.specs.Place.{Place};
ghost use Rattle.blob_node.specs.Units.{Units, with_unit};
ghost use Rattle.blob_node.specs.Holding.{nothing_written};
ghost use Rattle.blob_node.specs.HeldUnit.{IsFresh, Held, IsStartRefusal, name_of, is_create, CarriesShard, Served, GoesOn, is_released, is_found, Refused, Gives, GivesListing, of_put, of_change, of_unit, of_got, doubt_by, Worked, UnitCall, Restarted, StartsThrough};

use chunk_store::{Chunk, ChunkFault, Got, Put, RowKind};
use disk_base::{Extent, NoMemory};
use std::marker::Model;
use unit_id::{Answer, Bids, Request, UnitName};

/// A record that may have been written or not, since its write failed.
#[derive(Clone, Copy)]
pub enum Doubt {
    Shard { bid: u64 },
    Mark { bid: u64 },
    Free { bid: u64 },
    Fence { lock: u64 },
    Release,
}

/// A unit that was made on a disk, over its chunk.
///
/// Memory knows beside the chunk which record a failed write left in doubt, and whether the unit was released
/// before the chunk was shut. Over a file that tells its content the unit stands for the records that were
/// written and for what the protocol knows of it (`Held`), and each call says how it does so afterwards.
#[derive(Drop)]
pub struct HeldUnit<E: Extent> {
    chunk: Chunk<E>,
    doubt: Option<Doubt>,
    was_released: bool,
}

impl<E: Extent> Model for HeldUnit<E> {
    ghost use Rattle.blob_node.specs.HeldUnit.{UnitOver, coded_unit};

    ghost Value = { UnitOver E };

    ghost coded = { coded_unit E.code };

    ghost view = { λ unit. record { chunk = unit.chunk; doubt = unit.doubt; was_released = unit.was_released } };
}

impl<E: Extent> HeldUnit<E> {
    /// The unit of this chunk, with nothing in doubt. Over a started chunk without records it is a unit that was
    /// just made.
    pub fn over(chunk: Chunk<E>) -> HeldUnit<E>
        ensures parts { result ≡ record { chunk = chunk; doubt = None; was_released = false } }
        ensures fresh { IsFresh E.seen chunk → (units : Units) (place : Place) → Held E.seen result nothing_written (with_unit place units) place }
    {
        HeldUnit {
            chunk,
            doubt: None,
            was_released: false,
        }
    }

    /// The unit's name.
    pub fn unit(&self) -> UnitName
        ensures { result ≡ self.now.chunk.unit }
    {
        self.chunk.unit()
    }

    /// Whether the unit was released, as far as memory knows.
    pub fn is_released(&self) -> bool
        ensures { result ≡ is_released self.now }
    {
        self.was_released || (!self.chunk.is_shut() && self.chunk.is_released())
    }

    /// Whether a record is in doubt.
    pub fn is_in_doubt(&self) -> bool
        ensures { result ≡ is_some self.now.doubt }
    {
        self.doubt.is_some()
    }

    /// Whether the chunk is shut.
    pub fn is_shut(&self) -> bool
        ensures shut { result ≡ self.now.chunk.is_shut }
        ensures sound { IsSound (shown E.seen self.now.chunk) }
    {
        self.chunk.is_shut()
    }

    /// The chunk.
    pub fn into_chunk(self) -> Chunk<E>
        ensures { result ≡ self.chunk }
    {
        self.chunk
    }

    /// Starts the chunk, open or shut, and so finds a record in doubt written or not: true where it was written.
    ///
    /// # Errors
    ///
    /// `Fault` only where the file's count of faults rose, `Damaged` and `Spoiled` as the file says, which a file
    /// that tells never does. The chunk is then shut, and what was in doubt stays so; `Memory` leaves it as it was.
    /// A crash at any moment leaves the file's records, without the one in doubt or with it.
    pub fn start(&mut self) -> Result<bool, ChunkFault>
        ensures unit { self.new.chunk.unit ≡ self.old.chunk.unit }
        ensures call { ChunkCall (E.seen self.old.chunk.log.file) (E.seen self.new.chunk.log.file) result }
        ensures ends { MatchResult result (λ _. self.new.chunk.is_shut ≡ false) (λ fault. self.new.chunk.is_shut ≡ shut_after fault self.old.chunk.is_shut) }
        ensures named { IfErr result IsStartRefusal }
        ensures told { Restarted E.seen self.old self.new result }
        ensures moments { StartsThrough E.seen self.old self.new }
        ensures sound { IsSound (shown E.seen self.new.chunk) }
    {
        self.was_released = self.is_released();
        match self.chunk.start() {
            Ok(()) => {
                let found = is_found(self.doubt, &self.chunk);
                self.doubt = None;
                Ok(found)
            }
            Err(fault) => Err(fault),
        }
    }

    /// Answers a request to the unit, which isn't a create. The unit isn't known to be released. A shut chunk is
    /// started first, which settles a record in doubt, and the first part of the result says whether it was found;
    /// it is None where no chunk was started. A unit that is so found released answers `Stale` with `have`, the
    /// greatest epoch of its index on this disk. A crash at any moment leaves the file's records, without the one in
    /// doubt or with it, and once that is settled these or with the request's own.
    ///
    /// # Errors
    ///
    /// For want of memory nothing more was done than that start.
    pub fn serve(
        &mut self,
        request: &Request,
        have: u32,
    ) -> (Option<bool>, Result<Answer, NoMemory>)
        requires kind { is_create request.now ≡ false }
        requires own { name_of request.now ≡ self.old.chunk.unit }
        requires sizes { CarriesShard request.now }
        requires unreleased { is_released self.old ≡ false }
        ensures unit { self.new.chunk.unit ≡ self.old.chunk.unit }
        ensures call { UnitCall (E.seen self.old.chunk.log.file) (E.seen self.new.chunk.log.file) result.1 }
        ensures told { Served E.seen request.now have self.old self.new result.0 result.1 }
    {
        if !self.is_shut() {
            return (None, self.work(request));
        }
        match self.start() {
            Ok(found) => (Some(found), self.go_on(request, have)),
            Err(fault) => (None, refusal(fault)),
        }
    }

    // Answers a request once the chunk was started.
    fn go_on(&mut self, request: &Request, have: u32) -> Result<Answer, NoMemory>
        requires open { self.old.chunk.is_shut ≡ false }
        requires kind { is_create request.now ≡ false }
        requires own { name_of request.now ≡ self.old.chunk.unit }
        requires sizes { CarriesShard request.now }
        requires sound { IsSound (shown E.seen self.old.chunk) }
        ensures unit { self.new.chunk.unit ≡ self.old.chunk.unit }
        ensures call { UnitCall (E.seen self.old.chunk.log.file) (E.seen self.new.chunk.log.file) result }
        ensures told { GoesOn E.seen request.now have self.old self.new result }
    {
        if self.is_released() {
            return Ok(Answer::Stale { have });
        }
        self.work(request)
    }

    // Does the work of a unit whose chunk is open.
    fn work(&mut self, request: &Request) -> Result<Answer, NoMemory>
        requires open { self.old.chunk.is_shut ≡ false }
        requires kind { is_create request.now ≡ false }
        requires own { name_of request.now ≡ self.old.chunk.unit }
        requires sizes { CarriesShard request.now }
        requires unreleased { is_released self.old ≡ false }
        requires sound { IsSound (shown E.seen self.old.chunk) }
        ensures unit { self.new.chunk.unit ≡ self.old.chunk.unit }
        ensures call { UnitCall (E.seen self.old.chunk.log.file) (E.seen self.new.chunk.log.file) result }
        ensures told { Worked E.seen request.now self.old self.new result }
    {
        match request {
            Request::Create { .. } => unreachable!(),
            Request::Fence { lock, .. } => self.fence(*lock),
            Request::Put {
                bid,
                blob_size,
                bytes,
                ..
            } => self.put(*bid, *blob_size, bytes.as_slice()),
            Request::Read { bid, .. } => self.read(*bid),
            Request::List { lock, .. } => self.list(*lock),
            Request::Copy {
                bid,
                blob_size,
                bytes,
                ..
            } => self.put(*bid, *blob_size, bytes.as_slice()),
            Request::Mark { bid, .. } => self.mark(*bid),
            Request::Free { bid, .. } => self.free(*bid),
            Request::Release { .. } => self.release(),
        }
    }

    // Keeps the shard of a blob.
    fn put(&mut self, bid: u64, blob_size: u32, bytes: &[u8]) -> Result<Answer, NoMemory>
        requires open { self.old.chunk.is_shut ≡ false }
        requires unreleased { is_released self.old ≡ false }
        requires sizes { HasSizes (Shard bid self.old.chunk.unit blob_size bytes.now) }
        requires sound { IsSound (shown E.seen self.old.chunk) }
        ensures unit { self.new.chunk.unit ≡ self.old.chunk.unit }
        ensures call { UnitCall (E.seen self.old.chunk.log.file) (E.seen self.new.chunk.log.file) result }
        ensures told { (disk : ℕ) → Worked E.seen (requests.Put self.old.chunk.unit disk bid blob_size bytes.now) self.old self.new result }
        ensures copied { (disk : ℕ) → Worked E.seen (requests.Copy self.old.chunk.unit disk bid blob_size bytes.now) self.old self.new result }
    {
        let outcome = self.chunk.put(bid, blob_size, bytes);
        self.doubt = doubt_by(&outcome, Doubt::Shard { bid });
        put_answer(outcome)
    }

    // Gives the shard of a blob.
    fn read(&mut self, bid: u64) -> Result<Answer, NoMemory>
        requires open { self.old.chunk.is_shut ≡ false }
        requires sound { IsSound (shown E.seen self.old.chunk) }
        ensures unit { self.new.chunk.unit ≡ self.old.chunk.unit }
        ensures call { UnitCall (E.seen self.old.chunk.log.file) (E.seen self.new.chunk.log.file) result }
        ensures told { (disk : ℕ) → Worked E.seen (requests.Read self.old.chunk.unit disk bid) self.old self.new result }
    {
        got_answer(self.chunk.get(bid))
    }

    // Marks a blob as deleted.
    fn mark(&mut self, bid: u64) -> Result<Answer, NoMemory>
        requires open { self.old.chunk.is_shut ≡ false }
        requires unreleased { is_released self.old ≡ false }
        requires sound { IsSound (shown E.seen self.old.chunk) }
        ensures unit { self.new.chunk.unit ≡ self.old.chunk.unit }
        ensures call { UnitCall (E.seen self.old.chunk.log.file) (E.seen self.new.chunk.log.file) result }
        ensures told { (disk : ℕ) → Worked E.seen (requests.Mark self.old.chunk.unit disk bid) self.old self.new result }
    {
        let outcome = self.chunk.mark(bid);
        self.doubt = doubt_by(&outcome, Doubt::Mark { bid });
        change_answer(outcome)
    }

    // Lets the shard of a marked blob go.
    fn free(&mut self, bid: u64) -> Result<Answer, NoMemory>
        requires open { self.old.chunk.is_shut ≡ false }
        requires unreleased { is_released self.old ≡ false }
        requires sound { IsSound (shown E.seen self.old.chunk) }
        ensures unit { self.new.chunk.unit ≡ self.old.chunk.unit }
        ensures call { UnitCall (E.seen self.old.chunk.log.file) (E.seen self.new.chunk.log.file) result }
        ensures told { (disk : ℕ) → Worked E.seen (requests.Free self.old.chunk.unit disk bid) self.old self.new result }
    {
        let outcome = self.chunk.free(bid);
        self.doubt = doubt_by(&outcome, Doubt::Free { bid });
        change_answer(outcome)
    }

    // Takes no write of a row any more.
    fn fence(&mut self, lock: u64) -> Result<Answer, NoMemory>
        requires open { self.old.chunk.is_shut ≡ false }
        requires unreleased { is_released self.old ≡ false }
        requires sound { IsSound (shown E.seen self.old.chunk) }
        ensures unit { self.new.chunk.unit ≡ self.old.chunk.unit }
        ensures call { UnitCall (E.seen self.old.chunk.log.file) (E.seen self.new.chunk.log.file) result }
        ensures told { (disk : ℕ) → Worked E.seen (requests.Fence self.old.chunk.unit disk lock) self.old self.new result }
    {
        let outcome = self.chunk.fence(lock);
        self.doubt = doubt_by(&outcome, Doubt::Fence { lock });
        unit_answer(outcome)
    }

    // Gives the unit up.
    fn release(&mut self) -> Result<Answer, NoMemory>
        requires open { self.old.chunk.is_shut ≡ false }
        requires unreleased { is_released self.old ≡ false }
        requires sound { IsSound (shown E.seen self.old.chunk) }
        ensures unit { self.new.chunk.unit ≡ self.old.chunk.unit }
        ensures call { UnitCall (E.seen self.old.chunk.log.file) (E.seen self.new.chunk.log.file) result }
        ensures told { (disk : ℕ) → Worked E.seen (requests.Release self.old.chunk.unit disk) self.old self.new result }
    {
        let outcome = self.chunk.release();
        self.doubt = doubt_by(&outcome, Doubt::Release);
        unit_answer(outcome)
    }

    // Lists the blobs that have rows.
    fn list(&mut self, lock: u64) -> Result<Answer, NoMemory>
        requires open { self.old.chunk.is_shut ≡ false }
        requires sound { IsSound (shown E.seen self.old.chunk) }
        ensures same { self.new ≡ self.old }
        ensures call { UnitCall (E.seen self.old.chunk.log.file) (E.seen self.new.chunk.log.file) result }
        ensures told { (disk : ℕ) → Worked E.seen (requests.List self.old.chunk.unit disk lock) self.old self.new result }
    {
        listing_answer(lock, self.chunk.list())
    }
}

// Whether a started chunk shows that the record in doubt was written.
fn is_found<E: Extent>(doubt: Option<Doubt>, chunk: &Chunk<E>) -> bool
    requires { chunk.now.is_shut ≡ false }
    ensures { result ≡ is_found doubt chunk.now.kept }
{
    match doubt {
        None => false,
        Some(Doubt::Shard { bid }) => matches!(chunk.row(bid), Some(RowKind::Live)),
        Some(Doubt::Mark { bid }) => matches!(chunk.row(bid), Some(RowKind::Marked)),
        Some(Doubt::Free { bid }) => matches!(chunk.row(bid), Some(RowKind::Gone)),
        Some(Doubt::Fence { .. }) => chunk.fence_lock().is_some(),
        Some(Doubt::Release) => chunk.is_released(),
    }
}

// The record that a write leaves in doubt, where it failed.
fn doubt_by<T>(outcome: &Result<T, ChunkFault>, doubt: Doubt) -> Option<Doubt>
    ensures { result ≡ doubt_by doubt outcome.now }
{
    match outcome {
        Err(ChunkFault::Fault) => Some(doubt),
        _ => None,
    }
}

fn put_answer(outcome: Result<Put, ChunkFault>) -> Result<Answer, NoMemory>
    ensures { Gives of_put outcome result }
{
    match outcome {
        Ok(Put::Stored) => Ok(Answer::Done),
        Ok(Put::Already) => Ok(Answer::Already),
        Ok(Put::Deleted) => Ok(Answer::Deleted),
        Err(fault) => refusal(fault),
    }
}

fn change_answer(outcome: Result<bool, ChunkFault>) -> Result<Answer, NoMemory>
    ensures { Gives of_change outcome result }
{
    match outcome {
        Ok(true) => Ok(Answer::Done),
        Ok(false) => Ok(Answer::Already),
        Err(fault) => refusal(fault),
    }
}

// What the outcome of a call with nothing to give is answered with.
pub(crate) fn unit_answer(outcome: Result<(), ChunkFault>) -> Result<Answer, NoMemory>
    ensures { Gives of_unit outcome result }
{
    match outcome {
        Ok(()) => Ok(Answer::Done),
        Err(fault) => refusal(fault),
    }
}

fn got_answer(outcome: Result<Got, ChunkFault>) -> Result<Answer, NoMemory>
    ensures { Gives of_got outcome result }
{
    match outcome {
        Ok(Got::Live { blob_size, bytes }) => Ok(Answer::Live { blob_size, bytes }),
        Ok(Got::Marked) => Ok(Answer::Marked),
        Ok(Got::Gone) => Ok(Answer::Gone),
        Ok(Got::Absent) => Ok(Answer::Absent),
        Err(fault) => refusal(fault),
    }
}

// An open chunk refuses to list for want of memory alone.
fn listing_answer(lock: u64, outcome: Result<(Bids, Bids), ChunkFault>) -> Result<Answer, NoMemory>
    ensures { GivesListing lock outcome result }
{
    match outcome {
        Ok((live, marked)) => Ok(Answer::Listing { lock, live, marked }),
        Err(_) => Err(NoMemory),
    }
}

// What a refusal of the chunk is answered with.
pub(crate) fn refusal(fault: ChunkFault) -> Result<Answer, NoMemory>
    ensures { Refused fault result }
{
    match fault {
        ChunkFault::Fault | ChunkFault::Shut => Ok(Answer::Fault),
        ChunkFault::Damaged { kept, computed } => Ok(Answer::Damaged { kept, computed }),
        ChunkFault::Spoiled { place } => Ok(Answer::Spoiled { place }),
        ChunkFault::Full { end } => Ok(Answer::Full { end }),
        ChunkFault::NotMarked => Ok(Answer::NotMarked),
        ChunkFault::Fenced { lock } => Ok(Answer::Fenced { lock }),
        ChunkFault::Memory => Err(NoMemory),
    }
}
