//! What memory keeps of a volume's puts.

ghost use Rattle.std.specs.Prelude.{ℕ, ◌≡◌, ◌<◌, ◌≤◌, Bool, List, length, true, false, cond, get_or, OnOk, OnErr, IsOk};
ghost use Rattle.unit_id.specs.Lists.{count_below};
ghost use Rattle.unit_id.specs.Messages.{request_of, answer_of};
ghost use Rattle.unit_id.specs.Place.{Place, Location};
ghost use Rattle.unit_id.specs.Request.{Request as ToldRequest};
ghost use Rattle.code_mode.specs.Mode.{put_quorum, total_count};
ghost use Rattle.code_mode.specs.VolumeShape.{volume_shape};
ghost use Rattle.volume_world.specs.State.{Puts, State, fresh};
ghost use Rattle.volume_world.specs.BlobStatus.{is_begun, is_open};
ghost use Rattle.volume_world.specs.Move.{accepts, opened, puts_hear};
ghost use Rattle.volume_world.specs.Replying.{RepliesEnd};
ghost use Rattle.volume_world.specs.FixedRows.{most_units};
ghost use Rattle.volume_world.specs.PutBook.{Books, EndsWith, IsPut, IsAccepted, opened_put, puts_ended, status_told};

use crate::Reply;
use code_mode::Mode;
use disk_base::NoMemory;
use indexmap::IndexMap;
use std::alloc::Global;
use std::marker::Model;
use unit_id::{Answer, Request};

/// How many units a volume can have.
const PLACES: usize = 27;

/// How a put that was begun stands.
#[derive(Clone, Copy)]
pub(crate) enum PutStatus {
    Open,
    Acked,
    Failed,
}

/// A put: how it stands, the lease end that its begin saw, and by index whether its shard was accepted.
#[derive(Drop)]
pub(crate) struct PutState {
    status: PutStatus,
    end: u64,
    accepted: [bool; PLACES],
}

/// How many of the first flags are set.
fn count_set(flags: &[bool], total: u32) -> u32
    requires { total ≤ length flags.now }
    ensures { result ≡ count_below total (λ index. get_or flags.now index false) }
{
    let mut count = 0;
    for index in 0..total {
        if flags[index as usize] {
            count += 1;
        }
    }
    count
}

/// Whether so many acceptances are enough.
fn is_quorum(mode: Mode, accepted: u32) -> bool
    ensures enough { result ≡ true → put_quorum mode ≤ accepted }
    ensures few { result ≡ false → accepted < put_quorum mode }
{
    accepted >= mode.quorum()
}

impl PutState {
    /// A put that begins.
    fn opened(end: u64) -> PutState
        ensures { result ≡ opened_put end }
    {
        PutState {
            status: PutStatus::Open,
            end,
            accepted: [false; PLACES],
        }
    }

    fn is_open(&self) -> bool
        ensures { result ≡ is_open (status_told self.now.status) }
    {
        match self.status {
            PutStatus::Open => true,
            PutStatus::Acked | PutStatus::Failed => false,
        }
    }

    /// Notes that the unit of this index accepted the put, where it is open.
    fn accept(&mut self, index: u8)
        ensures { IsAccepted index self.old self.new }
    {
        if self.is_open() && usize::from(index) < PLACES {
            self.accepted[usize::from(index)] = true;
        }
    }

    /// Ends the put at this time: it is acknowledged where its lease still runs and a quorum accepted it.
    fn close(&mut self, mode: Mode, now: u64) -> Reply
        ensures ends { (disks bid : ℕ) (s : State) → s.time ≡ now → status_told self.old.status ≡ s.puts.status bid → IsPut (total_count mode) self.old (s.puts.end bid) (s.puts.accepted bid)
            → EndsWith (volume_shape mode disks) bid s result }
        ensures status { (bid : ℕ) (puts : Puts) → status_told self.old.status ≡ puts.status bid
            → status_told self.new.status ≡ (puts_ended bid result puts).status bid }
        ensures rest { self.new ≡ record self.old { status = self.new.status } }
        ensures reply { RepliesEnd result }
    {
        if !self.is_open() {
            return Reply::NotOpen;
        }
        if self.end <= now {
            self.status = PutStatus::Failed;
            return Reply::LeaseOver { end: self.end, now };
        }
        let accepted = count_set(&self.accepted, mode.total());
        if !is_quorum(mode, accepted) {
            self.status = PutStatus::Failed;
            return Reply::Quorum { accepted };
        }
        self.status = PutStatus::Acked;
        Reply::Acked { accepted }
    }
}

/// Puts by blob.
type Kept = IndexMap<u64, PutState>;

fn accept_in(kept: &mut Kept, bid: u64, index: u8)
    ensures { (total : ℕ) (puts : Puts) (place : Place) → total ≤ most_units → place.index ≡ index → Books total kept.old.entries puts
        → Books total kept.new.entries (accepts place bid puts) }
{
    if let Some(put) = kept.get_mut(&bid) {
        put.accept(index);
    }
}

fn end_in(kept: &mut Kept, mode: Mode, bid: u64, now: u64) -> Reply
    ensures ends { (disks : ℕ) (s : State) → s.time ≡ now → Books (total_count mode) kept.old.entries s.puts
        → EndsWith (volume_shape mode disks) bid s result × Books (total_count mode) kept.new.entries (puts_ended bid result s.puts) }
    ensures reply { RepliesEnd result }
{
    match kept.get_mut(&bid) {
        Some(put) => put.close(mode, now),
        None => Reply::NotOpen,
    }
}

/// Whether this answer to a put says that the unit has the shard.
fn is_acceptance(answer: &Answer) -> bool
    ensures { (place : Place) (bid : ℕ) (puts : Puts) → puts_hear (ToldRequest.Put place bid) (answer_of answer.now) puts ≡ cond result (accepts place bid puts) puts }
{
    match answer {
        Answer::Done | Answer::Already => true,
        Answer::Live { .. }
        | Answer::Marked
        | Answer::Gone
        | Answer::Absent
        | Answer::Listing { .. }
        | Answer::Stale { .. }
        | Answer::NoUnit
        | Answer::Fenced { .. }
        | Answer::Deleted
        | Answer::NotMarked
        | Answer::Broken
        | Answer::Full { .. }
        | Answer::Fault
        | Answer::Damaged { .. }
        | Answer::Spoiled { .. } => false,
    }
}

/// The puts of a volume that were begun, by blob. It is seen as their list, and as the number of puts for which it has room
/// besides.
#[derive(Drop)]
pub(crate) struct PutBook {
    kept: Kept,
}

impl Model for PutBook {
    ghost use Rattle.volume_world.specs.PutBook.{KeptPuts};

    ghost Value = { KeptPuts };

    ghost use Rattle.indexmap.specs.IndexMap.{spare};

    ghost view = { λ book. record { puts = book.kept.entries; spare = spare book.kept } };
}

impl PutBook {
    /// No puts. Takes no memory.
    pub(crate) fn none(alloc: Global) -> PutBook
        ensures { (total : ℕ) (homes : List Location) (is_made : Place → Bool) → Books total result.puts (fresh homes is_made).puts }
    {
        PutBook {
            kept: IndexMap::new(alloc),
        }
    }

    /// Makes room for one put more.
    pub(crate) fn reserve(&mut self) -> Result<(), NoMemory>
        ensures same { self.new.puts ≡ self.old.puts }
        ensures room { OnOk result (1 ≤ self.new.spare) }
    {
        self.kept.reserve(1)?;
        Ok(())
    }

    /// Whether a put of this blob was begun.
    pub(crate) fn is_begun(&self, bid: u64) -> bool
        ensures { (total : ℕ) (puts : Puts) → Books total self.now.puts puts → result ≡ is_begun (puts.status bid) }
    {
        self.kept.contains_key(&bid)
    }

    /// Begins a put, under a lease that ends then. Where there is room it takes no memory.
    pub(crate) fn begin(&mut self, bid: u64, end: u64) -> Result<(), NoMemory>
        ensures begun { OnOk result ((total : ℕ) (puts : Puts) (payload : List ℕ) → Books total self.old.puts puts → Books total self.new.puts (opened bid payload end puts)) }
        ensures same { OnErr result (self.new.puts ≡ self.old.puts) }
        ensures succeeds { 1 ≤ self.old.spare → IsOk result }
    {
        self.kept.insert(bid, PutState::opened(end))?;
        Ok(())
    }

    /// Notes that the unit of this index accepted the put of this blob, where it is open.
    pub(crate) fn accept(&mut self, bid: u64, index: u8)
        ensures { (total : ℕ) (puts : Puts) (place : Place) → total ≤ most_units → place.index ≡ index → Books total self.old.puts puts
            → Books total self.new.puts (accepts place bid puts) }
    {
        accept_in(&mut self.kept, bid, index);
    }

    /// Hears the answer to a request.
    pub(crate) fn hear(&mut self, request: &Request, answer: &Answer)
        ensures { (total : ℕ) (puts : Puts) → total ≤ most_units → Books total self.old.puts puts
            → Books total self.new.puts (puts_hear (request_of request.now) (answer_of answer.now) puts) }
    {
        match request {
            Request::Put { unit, bid, .. } => {
                if is_acceptance(answer) {
                    self.accept(*bid, unit.index);
                }
            }
            Request::Create { .. }
            | Request::Fence { .. }
            | Request::Read { .. }
            | Request::List { .. }
            | Request::Copy { .. }
            | Request::Mark { .. }
            | Request::Free { .. }
            | Request::Release { .. } => {}
        }
    }

    /// Ends the put of this blob at this time.
    pub(crate) fn end(&mut self, mode: Mode, bid: u64, now: u64) -> Reply
        ensures ends { (disks : ℕ) (s : State) → s.time ≡ now → Books (total_count mode) self.old.puts s.puts
            → EndsWith (volume_shape mode disks) bid s result × Books (total_count mode) self.new.puts (puts_ended bid result s.puts) }
        ensures reply { RepliesEnd result }
    {
        end_in(&mut self.kept, mode, bid, now)
    }
}
