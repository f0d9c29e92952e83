//! Sweeps of a volume that stands in for a whole one.

ghost use Rattle.std.specs.Prelude.{◌≡◌, ◌<◌, IfSome};
ghost use Rattle.blob_delete.specs.StandIn.{IsAnswer, stand_home, stand_seen, stand_units, stand_view};

use crate::{DeleteFault, Swept, sweep};
use code_mode::Mode;
use std::alloc::Global;
use std::test::Fail;
use unit_id::{Answer, Home, Homes, Moves, Request, UnitName};
use volume_entry::{LockView, View};
use volume_world::{
    Event, Port, Reply, StepFault, Trace, TraceAnswer, TraceEvent, TraceReply, TraceRequest,
};

/// The blob that is swept.
const BID: u64 = 5;

/// How many entries a history takes.
const LONGEST: usize = 4_294_967_293;

/// What the manager makes of the commit.
#[derive(Clone, Copy)]
enum Commit {
    Done,
    Already,
    TooFew,
    Locked,
    NotAsked,
}

/// A volume of six units that answers as it is told to. Disk 0 is none.
#[derive(Drop)]
struct StandIn {
    entries: Vec<Trace>,
    locked: bool,
    broken: u32,
    lost_mark: u32,
    lost_free: u32,
    commit: Commit,
}

fn home(broken: u32, index: u8) -> Home
    requires { index < 6 }
    ensures { result ≡ stand_home broken index }
{
    let unit = UnitName {
        vid: 1,
        index,
        epoch: 1,
    };
    let disk = u32::from(index) + 1;
    Home {
        unit,
        disk,
        broken: disk == broken,
    }
}

fn homes(broken: u32) -> Homes
    ensures { result ≡ stand_units broken }
{
    let mut homes = Homes::empty();
    homes.push(home(broken, 0));
    homes.push(home(broken, 1));
    homes.push(home(broken, 2));
    homes.push(home(broken, 3));
    homes.push(home(broken, 4));
    homes.push(home(broken, 5));
    homes
}

fn view(locked: bool, broken: u32) -> View
    ensures { result ≡ stand_seen locked broken }
{
    let held = if locked {
        Some(LockView {
            task: 7,
            lock: 1,
            moves: Moves::empty(),
            swapped: false,
        })
    } else {
        None
    };
    View {
        now: 0,
        version: 1,
        lease: 0,
        held,
        units: homes(broken),
    }
}

/// An event that is answered by the same reply, as the history keeps both.
fn plain(event: TraceEvent, reply: TraceReply) -> Trace
    ensures { result ≡ record { event = event; reply = reply } }
{
    Trace { event, reply }
}

impl StandIn {
    /// The reply to a commit.
    fn committed(&self, bid: u64) -> (Reply, Trace)
        ensures { IsAnswer (Event.Commit bid) result.0 result.1 }
    {
        let event = TraceEvent::Commit { bid };
        match self.commit {
            Commit::Done => (Reply::Done, plain(event, TraceReply::Done)),
            Commit::Already => (Reply::Already, plain(event, TraceReply::Already)),
            Commit::TooFew => (
                Reply::TooFewMarks { have: 3 },
                plain(event, TraceReply::TooFewMarks { have: 3 }),
            ),
            Commit::Locked => (
                Reply::Locked { task: 9 },
                plain(event, TraceReply::Locked { task: 9 }),
            ),
            Commit::NotAsked => (Reply::NotAsked, plain(event, TraceReply::NotAsked)),
        }
    }

    /// The reply to a mark or a free; none to other requests.
    fn sent(&self, request: &Request) -> Option<(Reply, Trace)>
        ensures { IfSome result (λ given. IsAnswer (Event.Send request.now) given.0 given.1) }
    {
        let (request, lost) = match request {
            Request::Mark { unit, disk, bid } => (
                TraceRequest::Mark {
                    unit: *unit,
                    disk: *disk,
                    bid: *bid,
                },
                *disk == self.lost_mark,
            ),
            Request::Free { unit, disk, bid } => (
                TraceRequest::Free {
                    unit: *unit,
                    disk: *disk,
                    bid: *bid,
                },
                *disk == self.lost_free,
            ),
            _ => return None,
        };
        let event = TraceEvent::Send { request };
        if lost {
            return Some((Reply::Unheard, plain(event, TraceReply::Unheard)));
        }
        let answer = TraceAnswer::Done;
        Some((
            Reply::Heard {
                answer: Answer::Done,
            },
            plain(event, TraceReply::Heard { answer }),
        ))
    }

    /// The reply to an event, and the entry of both; none to events that no sweep asks for.
    fn answered(&self, event: &Event) -> Option<(Reply, Trace)>
        ensures { IfSome result (λ given. IsAnswer event.now given.0 given.1) }
    {
        match event {
            Event::Look => {
                let kept = view(self.locked, self.broken);
                let shown = view(self.locked, self.broken);
                Some((
                    Reply::Seen { view: shown },
                    plain(TraceEvent::Look, TraceReply::Seen { view: kept }),
                ))
            }
            Event::Commit { bid } => Some(self.committed(*bid)),
            Event::Send { request } => self.sent(request),
            _ => None,
        }
    }
}

impl Port for StandIn {
    ghost seen = { λ port. stand_view port.entries.items };

    fn step(&mut self, event: Event) -> Result<Reply, StepFault> {
        if self.entries.len() >= LONGEST {
            return Err(StepFault::HistoryFull);
        }
        let Some((reply, trace)) = self.answered(&event) else {
            return Err(StepFault::Memory);
        };
        self.entries.push(trace)?;
        Ok(reply)
    }

    fn mode(&self) -> Mode {
        Mode::Ec3P3
    }

    fn vid(&self) -> u32 {
        1
    }

    fn is_way(&self) {
        let _ = &self.entries;
    }
}

/// What a sweep came to, for the tables.
#[derive(Clone, Copy, Debug, PartialEq, Eq)]
enum Outcome {
    Swept(Swept),
    Locked(u64),
    NotAsked,
    Other,
}

/// A sweep over a stand-in: its outcome, and how many events it asked for.
fn swept(alloc: Global, stand_in: StandIn) -> (Outcome, usize) {
    let mut port = stand_in;
    let outcome = match sweep(alloc, &mut port, BID) {
        Ok(swept) => Outcome::Swept(swept),
        Err(DeleteFault::Locked { task }) => Outcome::Locked(task),
        Err(DeleteFault::NotAsked) => Outcome::NotAsked,
        Err(_) => Outcome::Other,
    };
    (outcome, port.entries.len())
}

/// A stand-in with an unlocked volume that loses no message.
fn sound(alloc: Global, commit: Commit) -> StandIn {
    StandIn {
        entries: Vec::new(alloc),
        locked: false,
        broken: 0,
        lost_mark: 0,
        lost_free: 0,
        commit,
    }
}

#[test]
fn commits_answer(rt: HostRuntime) {
    let alloc = rt.alloc();
    let table = [
        (Commit::Done, Outcome::Swept(Swept::Freed), 14),
        (Commit::Already, Outcome::Swept(Swept::Freed), 14),
        (Commit::TooFew, Outcome::Swept(Swept::Waits { marks: 3 }), 8),
        (Commit::Locked, Outcome::Locked(9), 8),
        (Commit::NotAsked, Outcome::NotAsked, 8),
    ];
    for (commit, outcome, asked) in table {
        assert_eq!(rt; swept(alloc, sound(alloc, commit)), (outcome, asked));
    }
}

#[test]
fn units_and_locks_answer(rt: HostRuntime) {
    let alloc = rt.alloc();
    let done = Commit::Done;
    let committed = Outcome::Swept(Swept::Committed);
    let mut locked = sound(alloc, done);
    locked.locked = true;
    assert_eq!(rt; swept(alloc, locked), (Outcome::Locked(7), 1));
    let mut broken = sound(alloc, done);
    broken.broken = 2;
    assert_eq!(rt; swept(alloc, broken), (committed, 12));
    let mut unmarked = sound(alloc, done);
    unmarked.lost_mark = 6;
    assert_eq!(rt; swept(alloc, unmarked), (committed, 13));
    let mut unfreed = sound(alloc, done);
    unfreed.lost_free = 1;
    assert_eq!(rt; swept(alloc, unfreed), (committed, 14));
}
