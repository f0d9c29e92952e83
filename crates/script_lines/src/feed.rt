//! The lines of a source, one after another.

ghost use Rattle.std.specs.Prelude.{List, ℕ, option_to_list, ◌≡◌, ◌+◌, ◌-◌, ◌<◌, ◌≤◌, ◌==◌, slice_index, ◌++◌, [], nat_lt, true, false, length, take, drop, vec_len, if◌then◌else◌, Some, None, Ok, IfOk, OnOk, OnErr, IfSome, IsSome, IsSomeAnd, IsErrOf, option_map};
ghost use Rattle.std.specs.List.{position_or_len};
ghost use Rattle.disk_base.specs.Streams.{SourceView};
ghost use Rattle.script_lines.specs.Cuts.{buffered_in, rest_in, IsCut};
ghost use Rattle.script_lines.specs.Feeding.{FeedView, feed_of, comes, KeepsFeed, GivesLine, IsBounded, Gathers, Refills, FindsNone};
ghost use Rattle.script_lines.specs.Lines.{cut_lines, longest_line, piece_size, is_line_feed, first_line, after_line, nothing_buffered, without_return, HasNoEnd, to_come};

use disk_base::Source;
use std::alloc::{AllocError, Global};
use std::marker::Model;
use std::mem;
use thiserror::Error;
use unit_id::Bytes;

/// Why no line was given.
#[derive(Debug, Drop, Error)]
pub enum LineFault {
    /// The source failed.
    #[error("the source failed")]
    Read,
    /// The next line has more than 1,048,576 bytes.
    #[error("the line is too long")]
    TooLong,
    /// The allocator had no memory left.
    #[error("out of memory")]
    Memory,
}

impl From<AllocError> for LineFault {
    ghost use Rattle.script_lines.specs.declared.feed.LineFault.TheVariants.{Memory};

    ghost from_gives = { λ _ e. e ≡ Memory };

    fn from(_error: AllocError) -> LineFault {
        LineFault::Memory
    }
}

/// The most bytes that a line has: its line feed isn't counted, a carriage return before it is.
const LONGEST_LINE: usize = 1_048_576;

/// How many bytes are asked for at once.
const PIECE: usize = 4_096;

/// How many bytes stand before the first line feed.
fn line_end(bytes: &[u8]) -> usize
    ensures value { result ≡ position_or_len is_line_feed bytes.now }
    ensures within { result ≤ length bytes.now }
{
    for (at, byte) in bytes.iter().enumerate() {
        if *byte == b'\n' {
            return at;
        }
    }
    bytes.len()
}

/// The bytes from a place on.
fn behind(bytes: &[u8], at: usize) -> &[u8]
    requires { at ≤ length bytes.now }
    ensures { result.now ≡ drop at bytes.now }
{
    &bytes[at..]
}

/// Whether a line ends with a carriage return.
fn ends_with_return(line: &[u8]) -> bool
    ensures { result ≡ (slice_index line.now (length line.now - 1) == 13) }
{
    !line.is_empty() && line[line.len() - 1] == b'\r'
}

/// What was pulled and isn't given yet.
#[derive(Drop)]
struct Buffer {
    alloc: Global,
    /// The beginning of the next line.
    line: Vec<u8>,
    /// What was pulled last. What stands before `at` was moved to the line.
    piece: Vec<u8>,
    at: usize,
    /// The source said that the input ends behind these bytes.
    is_over: bool,
    ghost within: { at ≤ vec_len piece },
    ghost no_end: { HasNoEnd line.items },
    ghost line_fits: { vec_len line ≤ longest_line },
    ghost piece_fits: { vec_len piece ≤ piece_size },
}

impl Buffer {
    /// Moves what the piece has of the next line to the line, and passes over its line feed. Answers
    /// whether the line feed was there.
    fn gather(&mut self) -> Result<bool, LineFault>
        ensures gathers { Gathers self.old.line.items (drop self.old.at self.old.piece.items) self.new.line.items (drop self.new.at self.new.piece.items) result }
        ensures over { self.new.is_over ≡ self.old.is_over }
    {
        let rest = behind(&self.piece, self.at);
        let end = line_end(rest);
        let ended = end < rest.len();
        if end > LONGEST_LINE - self.line.len() {
            return Err(LineFault::TooLong);
        }
        self.line.extend_from_slice(&rest[..end])?;
        self.at += end + usize::from(ended);
        Ok(ended)
    }

    /// Pulls the next piece, where all of the last one was moved to the line. `false` is the end of the
    /// input.
    fn refill<S: Source>(&mut self, source: &mut S) -> Result<bool, LineFault>
        requires { drop self.old.at self.old.piece.items ≡ [] }
        ensures line { (self.new.line.items ≡ self.old.line.items) × (self.new.is_over ≡ self.old.is_over) }
        ensures refills { Refills (drop self.new.at self.new.piece.items) (S.seen source.old) (S.seen source.new) result }
        ensures told { IsSome (S.seen source.old).left → IsSome (S.seen source.new).left }
        ensures never_falls { (S.seen source.old).faults ≤ (S.seen source.new).faults }
        ensures quiet { (S.seen source.new).is_quiet ≡ (S.seen source.old).is_quiet }
    {
        self.at = 0;
        self.piece.clear();
        self.piece.reserve(PIECE)?;
        let mut room = [0u8; PIECE];
        match source.pull(&mut room) {
            Ok(count) => {
                self.piece.extend_from_slice(&room[..count])?;
                Ok(count > 0)
            }
            Err(_) => Err(LineFault::Read),
        }
    }

    /// Pulls until the next line is gathered whole. Answers whether a line feed ended it; else the input
    /// is over.
    fn find_end<S: Source>(&mut self, source: &mut S) -> Result<bool, LineFault>
        ensures cut { IfOk result (λ ended. IfSome (comes (feed_of (buffered_in self.old.line.items self.old.piece.items self.old.at self.old.is_over) (S.seen source.old))) (λ input.
            IsCut input ended self.new.line.items (to_come (rest_in self.new.piece.items self.new.at self.new.is_over) (S.seen source.new).left))) }
        ensures over { (result ≡ Ok false) → (drop self.new.at self.new.piece.items ≡ []) × (self.new.is_over ≡ true) }
        ensures none { FindsNone (feed_of (buffered_in self.old.line.items self.old.piece.items self.old.at self.old.is_over) (S.seen source.old))
            (feed_of (buffered_in self.new.line.items self.new.piece.items self.new.at self.new.is_over) (S.seen source.new)) result }
        ensures keeps { KeepsFeed (feed_of (buffered_in self.old.line.items self.old.piece.items self.old.at self.old.is_over) (S.seen source.old))
            (feed_of (buffered_in self.new.line.items self.new.piece.items self.new.at self.new.is_over) (S.seen source.new)) }
    {
        'pieces: while !self.gather()? {
            if self.is_over {
                return Ok(false);
            }
            if !self.refill(source)? {
                self.is_over = true;
                return Ok(false);
            }
        }
        Ok(true)
    }

    /// The line that was gathered, without one carriage return where a line feed ended it; `None` where
    /// nothing was gathered and no line feed was there.
    fn give(&mut self, ended: bool) -> Option<Bytes>
        ensures given { result ≡ (if ended then Some (without_return self.old.line.items) else (if length self.old.line.items == 0 then None else Some self.old.line.items)) }
        ensures taken { self.new.line.items ≡ [] }
        ensures rest { (self.new.piece.items ≡ self.old.piece.items) × (self.new.at ≡ self.old.at) × (self.new.is_over ≡ self.old.is_over) }
    {
        if !ended && self.line.is_empty() {
            return None;
        }
        let mut line = mem::replace(&mut self.line, Vec::new(self.alloc));
        if ended && ends_with_return(&line) {
            line.truncate(line.len() - 1);
        }
        Some(Bytes::from_vec(line))
    }
}

/// The bytes that were pulled from a source and not given yet: never more than a line and a piece.
#[derive(Drop)]
pub struct LineBuffer {
    buffer: Buffer,
}

impl Model for LineBuffer {
    ghost use Rattle.script_lines.specs.Lines.{Buffered};
    ghost use Rattle.script_lines.specs.Cuts.{buffered_in};

    ghost Value = { Buffered };

    ghost view = { λ held. buffered_in held.buffer.line.items held.buffer.piece.items held.buffer.at held.buffer.is_over };
}

impl LineBuffer {
    /// Nothing was pulled. Takes no memory.
    fn make(alloc: Global) -> LineBuffer
        ensures { result ≡ nothing_buffered }
    {
        LineBuffer {
            buffer: Buffer {
                alloc,
                line: Vec::new(alloc),
                piece: Vec::new(alloc),
                at: 0,
                is_over: false,
            },
        }
    }

    /// The next line of a source, which is lent to each call.
    fn next_line<S: Source>(&mut self, source: &mut S) -> Result<Option<Bytes>, LineFault>
        ensures line { GivesLine result (feed_of self.old (S.seen source.old)) (feed_of self.new (S.seen source.new)) }
        ensures keeps { KeepsFeed (feed_of self.old (S.seen source.old)) (feed_of self.new (S.seen source.new)) }
        ensures bounded { IsBounded (feed_of self.new (S.seen source.new)) }
    {
        match self.buffer.find_end(source) {
            Ok(ended) => Ok(self.buffer.give(ended)),
            Err(fault) => Err(fault),
        }
    }
}

/// Gives the lines of a source one after another, whatever pieces the source hands out. It borrows the
/// source, and holds what was pulled and not given yet.
///
/// `into_source` gives the source back: a caller that ends so knows what the source has left.
#[derive(Drop)]
pub struct Feed<'a, S: Source> {
    pub source: &'a mut S,
    pub buffer: LineBuffer,
}

impl<'a, S: Source> Feed<'a, S> {
    /// A feed that has pulled nothing. Takes no memory.
    pub fn make(alloc: Global, source: &'a mut S) -> Feed<'a, S>
        ensures same_source { result.source.ghost_name ≡ source.entry.ghost_name }
        ensures source { result.source.now ≡ source.old }
        ensures nothing { result.buffer ≡ nothing_buffered }
    {
        Feed {
            source,
            buffer: LineBuffer::make(alloc),
        }
    }

    /// The next line of the source, without its line feed and without one carriage return before it. A
    /// rest that isn't empty is the last line, and keeps its carriage return. `None` at the end of the
    /// input; the source is not asked again after it said that the input ends.
    ///
    /// # Errors
    /// `Read` where the source failed, `TooLong` where the next line has more than 1,048,576 bytes, the
    /// carriage return counted, `Memory` where the allocator had none left. No error takes anything from
    /// what is to come.
    pub fn next_line(&mut self) -> Result<Option<Bytes>, LineFault>
        ensures same_source { self.new.source.ghost_name ≡ self.old.source.ghost_name }
        ensures line { GivesLine result (feed_of self.old.buffer (S.seen self.old.source.now)) (feed_of self.new.buffer (S.seen self.new.source.now)) }
        ensures keeps { KeepsFeed (feed_of self.old.buffer (S.seen self.old.source.now)) (feed_of self.new.buffer (S.seen self.new.source.now)) }
        ensures bounded { IsBounded (feed_of self.new.buffer (S.seen self.new.source.now)) }
    {
        self.buffer.next_line(self.source)
    }

    /// The source, as the last call left it. Takes no memory.
    pub fn into_source(self) -> &'a mut S
        ensures same_source { result.ghost_name ≡ self.entry.source.ghost_name }
        ensures source { result.now ≡ self.entry.source.now }
    {
        let Feed {
            source,
            buffer: _buffer,
        } = self;
        source
    }
}

/// The lines of an input are the line at its front and the lines of what comes behind it. So `next_line`,
/// called again and again, gives all of them.
pub fn lines_come_one_by_one()
    ensures { (input : List ℕ) → cut_lines input ≡ option_to_list (first_line input) ++ cut_lines (after_line input) }
{}
