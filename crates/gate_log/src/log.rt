//! The log itself.

ghost use Rattle.std.specs.Prelude.{◌≡◌, ℕ, List, None, [], length, IfSome};
ghost use Rattle.gate_log.specs.LogFile.{end_place};
ghost use Rattle.gate_log.specs.GateLog.{shown, IsSettled, IfStarted, LogCall, LogReads, StartAnswers, StartEnds, Starts, HasCome, IsUnder, BeginAnswers, BeginEnds, StepsOn, ComesOn, StepCalls, Finishes, refusal_of, IsRefused, AppendAnswers, Appends, ReadCalls, ReadAnswers, FindsInOrder};

use crate::LogFault;
use crate::device::{FIRST, LONGEST_BODY};
use crate::record::{append_to, read_record};
use crate::start::{Cursor, finish_file, open_file, read_next, start_file};
use disk_base::Extent;
use std::alloc::Global;
use std::marker::Model;
use unit_id::Bytes;

/// How many bytes the file of a log has at most.
const LONGEST_FILE: u64 = 1 << 40;

/// An append-only log of byte strings in one file.
///
/// It is seen as its file, which says by its content what the log's bodies are, and as the place where the
/// next record will stand, which only a started log has. While it is started over a file that tells, the
/// file is at rest: a closed gate stands behind the records, and a crash leaves exactly what a read gives.
#[derive(Drop)]
pub struct GateLog<E: Extent> {
    file: E,
    end: Option<u64>,
}

impl<E: Extent> Model for GateLog<E> {
    ghost use Rattle.gate_log.specs.GateLog.{LogOver, IsSettled};

    ghost Value = { LogOver E };

    ghost view = { λ log. record { file = log.file; end = log.end } };

    ghost invariant = { λ log. IsSettled (E.seen log.file) log.end };
}

impl<E: Extent> GateLog<E> {
    /// A log over a file, shut until it is started. It makes no call on the file and takes no memory.
    pub fn over(file: E) -> GateLog<E>
        ensures { result ≡ record { file = file; end = None } }
    {
        GateLog { file, end: None }
    }

    /// Starts the log: settles the file, reads its chain, and writes the head of an empty log where the
    /// file has at most 9 bytes, or a closed gate where the chain ends with the file.
    ///
    /// At Ok the log has the bodies that the file's bytes stand for. Whatever it answers, the file says the
    /// same as before, and so does what a crash at any moment inside leaves. There is one exception: where no
    /// gate stood behind the last record, a write of it that was cut short may have left an open one
    /// (`IsSameOrOpen`).
    ///
    /// # Errors
    ///
    /// `BadHead` and `BadChain` come exactly where the file says so, and `Fault` where a call on the file
    /// failed; after these the log is shut. `Memory` leaves it as it was. Nothing is written before any of
    /// them but `Fault`.
    pub fn start(&mut self) -> Result<(), LogFault>
        ensures call { LogCall (E.seen self.old.file) (E.seen self.new.file) result }
        ensures answer { StartAnswers (E.seen self.old.file).content result }
        ensures ends { StartEnds (shown E.seen self.old) (shown E.seen self.new) result }
        ensures starts { Starts (shown E.seen self.old) (shown E.seen self.new) result }
    {
        match start_file(&mut self.file) {
            Ok(end) => {
                self.end = Some(end);
                Ok(())
            }
            Err(LogFault::Memory) => Err(LogFault::Memory),
            Err(fault) => {
                self.end = None;
                Err(fault)
            }
        }
    }

    /// Begins a start that reads each byte of the file once, and gives a cursor before its first body:
    /// settles the file and reads its mark. Until `finish` or `leave` the log is shut, and nothing is written.
    ///
    /// # Errors
    ///
    /// `BadHead` comes exactly where the file says so, and `Fault` where a call on the file failed; after
    /// these the log is shut. `Memory` leaves it as it was.
    pub fn begin(&mut self) -> Result<Cursor, LogFault>
        ensures reads { LogReads (E.seen self.old.file) (E.seen self.new.file) result }
        ensures answer { BeginAnswers (E.seen self.old.file).content result }
        ensures ends { BeginEnds (shown E.seen self.old) (shown E.seen self.new) result }
    {
        let before = self.end;
        match open_file(&mut self.file) {
            Ok(len) => {
                self.end = None;
                Ok(Cursor {
                    place: FIRST,
                    len,
                    is_closed: false,
                    before,
                })
            }
            Err(LogFault::Memory) => Err(LogFault::Memory),
            Err(fault) => {
                self.end = None;
                Err(fault)
            }
        }
    }

    /// The body at a cursor's place, with the place, and the cursor goes on behind it. `None` where the chain
    /// ends: the file stands for the bodies that were read. It reads what a gate, a length and a body take.
    ///
    /// # Errors
    ///
    /// `BadChain` with this place exactly where the file says so, `Fault` where a call on the file failed, and
    /// `Memory`. None of them moves the cursor, and no answer changes how the log stands.
    pub fn next(
        &mut self,
        alloc: Global,
        cursor: &mut Cursor,
    ) -> Result<Option<(u64, Bytes)>, LogFault>
        ensures reads { LogReads (E.seen self.old.file) (E.seen self.new.file) result }
        ensures calls { StepCalls (E.seen self.old.file) (E.seen self.new.file) result }
        ensures same { self.new.end ≡ self.old.end }
        ensures steps { StepsOn cursor.old cursor.new result }
        ensures comes { IfSome (E.seen self.old.file).content (λ file. (read : List (List ℕ)) → HasCome file read cursor.old → ComesOn file read cursor.new result) }
    {
        read_next(&mut self.file, alloc, cursor)
    }

    /// Ends a start: follows what the cursor has left of the chain by its gates alone, and writes what `start`
    /// writes. At Ok the log has the bodies that the file's bytes stand for.
    ///
    /// # Errors
    ///
    /// `BadChain` comes exactly where the file says so, and `Fault` where a call on the file failed; after
    /// these the log is shut. So it is after `Memory`, and then `leave` gives it back as it was. Nothing is
    /// written before any of them but `Fault`.
    pub fn finish(&mut self, cursor: &Cursor) -> Result<(), LogFault>
        requires { IfSome (E.seen self.old.file).content (IsUnder cursor.now (E.seen self.old.file).images) }
        ensures call { LogCall (E.seen self.old.file) (E.seen self.new.file) result }
        ensures answer { StartAnswers (E.seen self.old.file).content result }
        ensures ends { StartEnds (shown E.seen self.old) (shown E.seen self.new) result }
        ensures finishes { Finishes cursor.now (shown E.seen self.old) (shown E.seen self.new) result }
    {
        match finish_file(&mut self.file, cursor) {
            Ok(end) => {
                self.end = Some(end);
                Ok(())
            }
            Err(LogFault::Memory) => Err(LogFault::Memory),
            Err(fault) => {
                self.end = None;
                Err(fault)
            }
        }
    }

    /// Gives up a start that has written nothing: the log is as it was before `begin`.
    pub fn leave(&mut self, cursor: &Cursor)
        requires { IsSettled (E.seen self.old.file) cursor.now.before }
        ensures { self.new ≡ record { file = self.old.file; end = cursor.now.before } }
    {
        self.end = cursor.before;
    }

    /// Adds a body of 1 to 4,194,400 bytes at the log's end, and answers its place.
    ///
    /// It asks for memory, and then makes four calls on the file: it writes the record behind the closed gate,
    /// settles it, opens the gate, and settles that. A crash at any moment inside leaves the file of a log of
    /// the bodies before, or of those with this one at the end; after Ok, of the latter.
    ///
    /// # Errors
    ///
    /// `BadLength`, `Shut` and `Full`, in this order, come exactly where `refusal_of` says, and change
    /// nothing. Nor does `Memory`, and no call on the file was made then. After `Fault` the log is shut, and
    /// the file has either list.
    pub fn append(&mut self, alloc: Global, body: &[u8]) -> Result<u64, LogFault>
        ensures call { LogCall (E.seen self.old.file) (E.seen self.new.file) result }
        ensures refused { IsRefused (refusal_of (length body.now) self.old.end) self.old self.new result }
        ensures answer { AppendAnswers (length body.now) (shown E.seen self.old) (shown E.seen self.new) result }
        ensures appends { Appends body.now (shown E.seen self.old) (shown E.seen self.new) result }
    {
        let count = body.len() as u64;
        let end = self.end;
        if count < 1 || count > LONGEST_BODY {
            return Err(LogFault::BadLength { len: count });
        }
        let Some(place) = end else {
            return Err(LogFault::Shut);
        };
        if place > LONGEST_FILE - 6 - count {
            return Err(LogFault::Full { end: place });
        }
        match append_to(&mut self.file, alloc, place, body) {
            Ok(()) => {
                self.end = Some(place + 5 + count);
                Ok(place)
            }
            Err(LogFault::Memory) => Err(LogFault::Memory),
            Err(fault) => {
                self.end = None;
                Err(fault)
            }
        }
    }

    /// The body at a place, and the next place, which is the place, 5 and the body's length.
    ///
    /// # Errors
    ///
    /// `Shut` comes exactly where the log isn't started, and `BadChain` with this place exactly where no
    /// whole record stands there behind an open gate and before the log's end. No answer changes the log:
    /// after `Fault` it is started as before.
    pub fn read(&mut self, alloc: Global, place: u64) -> Result<(Bytes, u64), LogFault>
        ensures reads { LogReads (E.seen self.old.file) (E.seen self.new.file) result }
        ensures calls { ReadCalls (E.seen self.old.file) (E.seen self.new.file) result }
        ensures same { self.new.end ≡ self.old.end }
        ensures answer { ReadAnswers (E.seen self.old.file).content self.old.end place result }
        ensures in_order { IfStarted (shown E.seen self.old) (λ bodies. FindsInOrder bodies place result) }
    {
        let Some(end) = self.end else {
            return Err(LogFault::Shut);
        };
        read_record(&mut self.file, alloc, place, end)
    }

    /// The place of the first record, whether there is one or not.
    pub fn first(&self) -> u64
        ensures { result ≡ end_place [] }
    {
        FIRST
    }

    /// The place where the next record will stand. `None` exactly where the log is shut.
    pub fn end(&self) -> Option<u64>
        ensures end { result ≡ self.now.end }
        ensures settled { IsSettled (E.seen self.now.file) self.now.end }
    {
        self.end
    }

    /// The file, as the log leaves it.
    pub fn into_file(self) -> E
        ensures file { result ≡ self.file }
        ensures settled { IsSettled (E.seen result) self.end }
    {
        self.file
    }
}
