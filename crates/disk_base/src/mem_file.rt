//! A file in memory that is a disk with crashes.

ghost use Rattle.std.specs.Prelude.{◌≡◌, ◌+◌, ◌-◌, ◌*◌, ◌^◌, ◌<◌, ◌≤◌, ◌++◌, [], ◌∷◌, min, max, not, nat_lt, slice_index, length, take, drop, vec_len, vec_capacity, reverse, is_err, List, ℕ, IfOk, OnOk, OnErr, IfSome, Some, None};
ghost use Rattle.std.specs.List.{list_any};
ghost use Rattle.std.specs.Option.{option_map};
ghost use Rattle.disk_base.specs.History.{written_in, epoch_of};
ghost use Rattle.disk_base.specs.Faults.{unused, HasCause, fails_next, after_call};
ghost use Rattle.disk_base.specs.Disk.{overwritten};
ghost use Rattle.disk_base.specs.Images.{IsImage, covers, is_settled, chosen, misread, read_of, empty_file, counted, after_grow, after_write, after_sync, after_crash, view_of, is_file};
ghost use Rattle.disk_base.specs.Racks.{flipped, after_flip};

use crate::{Extent, Failed, FaultPlan, NoMemory};
use std::alloc::Global;
use std::marker::Model;

/// For how many writes and syncs `grow` makes spare.
const SPARE: usize = 8;

/// What a call changed, so that the contents before can be told.
#[derive(Drop)]
enum Change {
    /// A write at a place, of so many bytes, over a file with that end.
    Write { at: usize, count: usize, end: usize },
    /// A sync. The one before it had settled the file up to that end.
    Sync { end: usize },
}

/// A file in memory. A write that fails has done its work, and a sync that fails has settled nothing.
#[derive(Drop)]
pub struct MemFile {
    bytes: Vec<u8>,
    settled_end: usize,
    changes: Vec<Change>,
    replaced: Vec<u8>,
    room: usize,
    spare: usize,
    plan: FaultPlan,
    lies: Option<Vec<u64>>,
}

impl Model for MemFile {
    ghost use Rattle.std.specs.Prelude.{◌+◌, ◌*◌, ◌≤◌, length, reverse, vec_len, vec_capacity};
    ghost use Rattle.std.specs.Option.{option_map};
    ghost use Rattle.disk_base.specs.Images.{FileState};
    ghost use Rattle.disk_base.specs.History.{written_in, past_of};

    ghost Value = { FileState };

    ghost view = { λ file. record {
      plan = file.plan;
      lies = option_map (λ lies. lies.items) file.lies;
      present = record { bytes = file.bytes.items; settled_end = file.settled_end; written = written_in (reverse file.changes.items) };
      past = past_of (reverse file.changes.items) file.replaced.items file.bytes.items;
      room = file.room;
      spare = file.spare;
    } };

    ghost invariant = { λ file.
        (file.settled_end ≤ length file.bytes.items)
        × (length file.bytes.items ≤ file.room)
        × (file.room ≤ vec_capacity file.bytes)
        × (file.spare + vec_len file.changes ≤ vec_capacity file.changes)
        × (file.spare * file.room + vec_len file.replaced ≤ vec_capacity file.replaced)
        × (file.spare ≤ 8) };
}

impl MemFile {
    /// An empty file whose calls of these numbers fail, counted from 1; `grow` isn't counted. Takes no
    /// memory.
    pub fn new(alloc: Global, fails: Vec<u64>) -> MemFile
        ensures { result ≡ empty_file fails.items None }
    {
        MemFile {
            bytes: Vec::new(alloc),
            settled_end: 0,
            changes: Vec::new(alloc),
            replaced: Vec::new(alloc),
            room: 0,
            spare: 0,
            plan: FaultPlan::new(fails),
            lies: None,
        }
    }

    /// An empty file that gives one bit wrong in each read of these places and tells nothing of its
    /// content. No call on it fails. Takes no memory.
    pub fn lying(alloc: Global, flips: Vec<u64>) -> MemFile
        ensures { result ≡ empty_file [] (Some flips.items) }
    {
        MemFile {
            bytes: Vec::new(alloc),
            settled_end: 0,
            changes: Vec::new(alloc),
            replaced: Vec::new(alloc),
            room: 0,
            spare: 0,
            plan: FaultPlan::new(Vec::new(alloc)),
            lies: Some(flips),
        }
    }

    // The file as it is handed out once more: its calls and faults are counted anew.
    pub(crate) fn handed_out_again(self, fails: Vec<u64>) -> MemFile
        ensures { result ≡ record self { plan = unused fails.items } }
    {
        let mut file = self;
        file.plan = FaultPlan::new(fails);
        file
    }

    pub(crate) fn faults(&self) -> u64
        ensures { result ≡ self.now.plan.faults }
    {
        self.plan.faults()
    }

    /// The bytes as they are now, also of a lying file. Takes no memory and is no call on the device.
    pub fn as_slice(&self) -> &[u8]
        ensures { result.now ≡ self.now.present.bytes }
    {
        &self.bytes
    }

    /// The file that a crash leaves: the bytes that aren't settled are, in order of place, those of the
    /// choice, and zero where it is used up. Takes no memory, and forgets what was before.
    pub fn crash(self, choice: &[u8]) -> MemFile
        ensures value { result ≡ after_crash choice.now self }
        ensures image { IsImage self.present result.present.bytes }
    {
        self.left_after(choice)
    }

    // Flips one bit, if the file has it. All of the file is settled then, and what was before is forgotten.
    pub(crate) fn flip(&mut self, bit: u64)
        ensures { self.new ≡ after_flip bit self.old }
    {
        flip_bit(&mut self.bytes, bit);
        let end = self.bytes.len();
        self.settled_end = end;
        self.changes.clear();
        self.replaced.clear();
    }

    // How many bytes aren't settled.
    pub(crate) fn loose_count(&self) -> usize {
        let mut count = 0;
        for place in 0..self.bytes.len() {
            if !stands(self.settled_end, &self.changes, place) {
                count += 1;
            }
        }
        count
    }

    // The file that a crash leaves.
    fn left_after(self, choice: &[u8]) -> MemFile
        ensures { result ≡ after_crash choice.now self }
    {
        let mut file = self;
        choose(&mut file.bytes, file.settled_end, &file.changes, choice);
        file.settled_end = file.bytes.len();
        file.changes.clear();
        file.replaced.clear();
        file
    }
}

// Flips one bit, counted from the lowest bit of the first byte, if there is such a byte.
fn flip_bit(bytes: &mut [u8], bit: u64)
    ensures { bytes.new ≡ flipped bit bytes.old }
{
    let place = (bit / 8) as usize;
    if place < bytes.len() {
        bytes[place] ^= 1 << (bit % 8);
    }
}

// Replaces each byte that isn't settled by the next one of the choice, or by zero.
fn choose(bytes: &mut [u8], settled_end: usize, changes: &[Change], choice: &[u8])
    ensures { let epoch = epoch_of bytes.old settled_end changes.now in bytes.new ≡ chosen epoch 0 bytes.old choice.now }
{
    let mut used = 0;
    for place in 0..bytes.len() {
        if !stands(settled_end, changes, place) {
            bytes[place] = byte_or_zero(choice, used);
            used += 1;
        }
    }
}

// The byte at this place, or zero past the end.
fn byte_or_zero(bytes: &[u8], place: usize) -> u8
    ensures { result ≡ slice_index bytes.now place }
{
    if place < bytes.len() { bytes[place] } else { 0 }
}

// Whether the byte at this place was settled and not written since.
fn stands(settled_end: usize, changes: &[Change], place: usize) -> bool
    ensures { (bytes : List ℕ) → result ≡ is_settled (epoch_of bytes settled_end changes.now) place }
{
    place < settled_end && !is_loose(changes, place)
}

// Whether the byte at this place was written since the last sync.
fn is_loose(changes: &[Change], place: usize) -> bool
    ensures { result ≡ list_any (covers place) (written_in (reverse changes.now)) }
{
    let mut rest = changes;
    while let Some((last, older)) = rest.split_last() {
        let Change::Write { at, count, end: _ } = last else {
            return false;
        };
        if *at <= place && place - *at < *count {
            return true;
        }
        rest = older;
    }
    false
}

// Puts bytes over those from this place on, and past the end.
fn put(content: &mut Vec<u8>, at: usize, bytes: &[u8])
    requires place { at ≤ length content.old.items }
    requires room { at + length bytes.now ≤ vec_capacity content.old }
    ensures items { content.new.items ≡ overwritten content.old.items at bytes.now }
    ensures capacity { vec_capacity content.old ≤ vec_capacity content.new }
{
    let over = bytes.len().min(content.len() - at);
    content[at..at + over].copy_from_slice(&bytes[..over]);
    let _ = content.extend_from_slice(&bytes[over..]);
}

// Keeps the bytes that so many others from this place on will replace.
fn keep(replaced: &mut Vec<u8>, content: &[u8], at: usize, count: usize)
    requires place { at ≤ length content.now }
    requires room { length content.now + vec_len replaced.old ≤ vec_capacity replaced.old }
    ensures items { replaced.new.items ≡ replaced.old.items ++ take count (drop at content.now) }
    ensures capacity { vec_capacity replaced.old ≤ vec_capacity replaced.new }
{
    let over = count.min(content.len() - at);
    let _ = replaced.extend_from_slice(&content[at..at + over]);
}

// Notes one more change.
fn note(changes: &mut Vec<Change>, change: Change)
    requires { vec_len changes.old < vec_capacity changes.old }
    ensures items { changes.new.items ≡ changes.old.items ++ change ∷ [] }
    ensures len { vec_len changes.new ≡ vec_len changes.old + 1 }
    ensures capacity { vec_capacity changes.old ≤ vec_capacity changes.new }
{
    let _ = changes.push(change);
}

// Gives the lowest bit of the bytes at these places wrong.
fn misreport(out: &mut [u8], at: usize, lies: &[u64])
    requires { at + length out.old < 2 ^ 64 }
    ensures { out.new ≡ misread lies.now at out.old }
{
    for k in 0..out.len() {
        if lies.contains(&((at + k) as u64)) {
            out[k] ^= 1;
        }
    }
}

impl Extent for MemFile {
    ghost seen = { view_of };

    ghost is_file = { is_file };

    /// Fails exactly at the chosen calls.
    fn len(&mut self) -> Result<u64, Failed>
        ensures fails { is_err result ≡ fails_next self.old.plan }
        ensures after { self.new ≡ counted self.old }
        ensures length { IfOk result (λ n. n ≡ length self.old.present.bytes) }
        ensures cause { HasCause self.old.plan.faults self.new.plan.faults result }
    {
        if self.plan.count_call(false) {
            return Err(Failed);
        }
        Ok(self.bytes.len() as u64)
    }

    /// Fails exactly at the chosen calls. A lying file gives one bit wrong at the places of its lies.
    fn read_at(&mut self, at: u64, out: &mut [u8]) -> Result<usize, Failed>
        ensures fails { is_err result ≡ fails_next self.old.plan }
        ensures after { self.new ≡ counted self.old }
        ensures same_room { length out.new ≡ length out.old }
        ensures count { IfOk result (λ n. n ≡ min (length out.old) (length self.old.present.bytes - at)) }
        ensures bytes { IfOk result (λ n. take n out.new ≡ read_of self.old.lies at (take n (drop at self.old.present.bytes))) }
        ensures cause { HasCause self.old.plan.faults self.new.plan.faults result }
    {
        if self.plan.count_call(false) {
            return Err(Failed);
        }
        let start = self.bytes.len().min(at as usize);
        let rest = &self.bytes[start..];
        let count = out.len().min(rest.len());
        let front = &mut out[..count];
        front.copy_from_slice(&rest[..count]);
        if let Some(lies) = &self.lies {
            misreport(front, start, lies);
        }
        Ok(count)
    }

    /// Takes memory for the bytes, for what 8 writes may replace, and for 8 changes.
    fn grow(&mut self, end: u64) -> Result<(), NoMemory>
        ensures ok { OnOk result (self.new ≡ after_grow end self.old) }
        ensures err { OnErr result (self.new ≡ self.old) }
        ensures spare { self.old.spare ≤ self.new.spare }
    {
        let room = self.room.max(end as usize);
        let kept = room.checked_mul(SPARE).ok_or(NoMemory)?;
        self.bytes.reserve(room - self.bytes.len())?;
        self.changes.reserve(SPARE)?;
        self.replaced.reserve(kept)?;
        self.room = room;
        self.spare = SPARE;
        Ok(())
    }

    /// Does the whole write, and fails exactly at the chosen calls.
    fn write_at(&mut self, at: u64, bytes: &[u8]) -> Result<(), Failed>
        requires room { at + length bytes.now ≤ self.old.room }
        requires spare { 0 < self.old.spare }
        ensures fails { is_err result ≡ fails_next self.old.plan }
        ensures after { self.new ≡ after_write at bytes.now self.old }
        ensures settled { self.old.present.settled_end ≤ length self.old.present.bytes }
        ensures cause { HasCause self.old.plan.faults self.new.plan.faults result }
    {
        let failed = self.plan.count_call(false);
        let end = self.bytes.len();
        let at = end.min(at as usize);
        keep(&mut self.replaced, &self.bytes, at, bytes.len());
        put(&mut self.bytes, at, bytes);
        let count = bytes.len();
        note(&mut self.changes, Change::Write { at, count, end });
        self.spare -= 1;
        if failed { Err(Failed) } else { Ok(()) }
    }

    /// Settles the file, or fails, exactly at the chosen calls, and settles nothing.
    fn sync(&mut self) -> Result<(), Failed>
        requires { 0 < self.old.spare }
        ensures fails { is_err result ≡ fails_next self.old.plan }
        ensures ok { OnOk result (self.new ≡ after_sync self.old) }
        ensures err { OnErr result (self.new ≡ counted self.old) }
        ensures cause { HasCause self.old.plan.faults self.new.plan.faults result }
    {
        if self.plan.count_call(false) {
            return Err(Failed);
        }
        let end = self.settled_end;
        note(&mut self.changes, Change::Sync { end });
        self.settled_end = self.bytes.len();
        self.spare -= 1;
        Ok(())
    }
}
