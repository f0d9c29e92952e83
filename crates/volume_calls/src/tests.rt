//! Calls on a volume that stands in for a whole one.

ghost use Rattle.std.specs.Prelude.{◌≡◌, ◌<◌, IfSome};
ghost use Rattle.volume_calls.specs.StandIn.{IsAnswer, stand_home, stand_seen, stand_units, stand_view};

use crate::{
    AskFault, Flushed, LogFault, RestartFault, ask, break_disk, flush, look, plan, restart,
    restart_manager, tick,
};
use blob_node::Fate;
use code_mode::Mode;
use std::alloc::Global;
use std::test::Fail;
use unit_id::{Home, Homes, UnitName};
use volume_entry::View;
use volume_world::{Event, Port, Reply, StepFault, Trace, TraceEvent, TraceReply};

/// How many entries a history takes.
const LONGEST: usize = 4_294_967_293;

/// What the volume replies where it has a choice.
#[derive(Clone, Copy)]
enum Says {
    Done,
    Already,
    NotBegun,
    Damaged,
    Spoiled,
}

/// A volume of six units with so many late items, the first of which are requests.
#[derive(Drop)]
struct StandIn {
    entries: Vec<Trace>,
    says: Says,
    late: usize,
    requests: usize,
}

fn home(index: u8) -> Home
    requires { index < 6 }
    ensures { result ≡ stand_home index }
{
    let unit = UnitName {
        vid: 1,
        index,
        epoch: 1,
    };
    Home {
        unit,
        disk: u32::from(index) + 1,
        broken: false,
    }
}

fn homes() -> Homes
    ensures { result ≡ stand_units }
{
    let mut homes = Homes::empty();
    homes.push(home(0));
    homes.push(home(1));
    homes.push(home(2));
    homes.push(home(3));
    homes.push(home(4));
    homes.push(home(5));
    homes
}

fn view() -> View
    ensures { result ≡ stand_seen }
{
    View {
        now: 7,
        version: 1,
        lease: 10,
        held: None,
        units: homes(),
    }
}

/// An event that is answered by the same reply, as the history keeps both.
fn plain(event: TraceEvent, reply: TraceReply) -> Trace
    ensures { result ≡ record { event = event; reply = reply } }
{
    Trace { event, reply }
}

impl StandIn {
    /// A late item arrives, requests first.
    fn flushed(&self) -> (Reply, Trace)
        ensures { IsAnswer Event.FlushOne result.0 result.1 }
    {
        let event = TraceEvent::FlushOne;
        if self.entries.len() >= self.late {
            return match self.says {
                Says::Spoiled => (
                    Reply::Spoiled { place: 8 },
                    plain(event, TraceReply::Spoiled { place: 8 }),
                ),
                _ => (Reply::NothingLate, plain(event, TraceReply::NothingLate)),
            };
        }
        let request = self.entries.len() < self.requests;
        (
            Reply::Flushed { request },
            plain(event, TraceReply::Flushed { request }),
        )
    }

    /// The chunks of a disk start anew.
    fn restarted(&self, disk: u32) -> (Reply, Trace)
        ensures { IsAnswer (Event.Restart disk) result.0 result.1 }
    {
        let event = TraceEvent::Restart { disk };
        match self.says {
            Says::Damaged => (
                Reply::Damaged {
                    kept: 1,
                    computed: 2,
                },
                plain(
                    event,
                    TraceReply::Damaged {
                        kept: 1,
                        computed: 2,
                    },
                ),
            ),
            Says::Spoiled => (
                Reply::Spoiled { place: 8 },
                plain(event, TraceReply::Spoiled { place: 8 }),
            ),
            _ => (Reply::Done, plain(event, TraceReply::Done)),
        }
    }

    /// The manager's log starts anew.
    fn manager_restarted(&self) -> (Reply, Trace)
        ensures { IsAnswer Event.RestartManager result.0 result.1 }
    {
        let event = TraceEvent::RestartManager;
        match self.says {
            Says::Spoiled => (
                Reply::Spoiled { place: 8 },
                plain(event, TraceReply::Spoiled { place: 8 }),
            ),
            _ => (Reply::Done, plain(event, TraceReply::Done)),
        }
    }

    /// A look at the volume.
    fn looked(&self) -> (Reply, Trace)
        ensures { IsAnswer Event.Look result.0 result.1 }
    {
        let event = TraceEvent::Look;
        match self.says {
            Says::Spoiled => (
                Reply::Spoiled { place: 8 },
                plain(event, TraceReply::Spoiled { place: 8 }),
            ),
            _ => {
                let kept = view();
                (
                    Reply::Seen { view: view() },
                    plain(event, TraceReply::Seen { view: kept }),
                )
            }
        }
    }

    /// The deletion of a blob is asked for.
    fn asked(&self, bid: u64) -> (Reply, Trace)
        ensures { IsAnswer (Event.Ask bid) result.0 result.1 }
    {
        let event = TraceEvent::Ask { bid };
        match self.says {
            Says::Already => (Reply::Already, plain(event, TraceReply::Already)),
            Says::NotBegun => (Reply::NotBegun, plain(event, TraceReply::NotBegun)),
            Says::Spoiled => (
                Reply::Spoiled { place: 8 },
                plain(event, TraceReply::Spoiled { place: 8 }),
            ),
            _ => (Reply::Done, plain(event, TraceReply::Done)),
        }
    }

    /// The reply to an event, and the entry of both; none to events that no call asks for.
    fn answered(&self, event: &Event) -> Option<(Reply, Trace)>
        ensures { IfSome result (λ given. IsAnswer event.now given.0 given.1) }
    {
        match event {
            Event::Tick { by } => Some((
                Reply::Now { now: 7 },
                plain(TraceEvent::Tick { by: *by }, TraceReply::Now { now: 7 }),
            )),
            Event::Break { disk } => Some((
                Reply::Done,
                plain(TraceEvent::Break { disk: *disk }, TraceReply::Done),
            )),
            Event::Plan { disk, fate, count } => Some((
                Reply::Done,
                plain(
                    TraceEvent::Plan {
                        disk: *disk,
                        fate: *fate,
                        count: *count,
                    },
                    TraceReply::Done,
                ),
            )),
            Event::FlushOne => Some(self.flushed()),
            Event::Restart { disk } => Some(self.restarted(*disk)),
            Event::RestartManager => Some(self.manager_restarted()),
            Event::Look => Some(self.looked()),
            Event::Ask { bid } => Some(self.asked(*bid)),
            _ => None,
        }
    }
}

impl Port for StandIn {
    ghost seen = { λ port. stand_view port.entries.items };

    fn step(&mut self, event: Event) -> Result<Reply, StepFault> {
        if self.entries.len() >= LONGEST {
            return Err(StepFault::HistoryFull);
        }
        let Some((reply, trace)) = self.answered(&event) else {
            return Err(StepFault::Memory);
        };
        self.entries.push(trace)?;
        Ok(reply)
    }

    fn mode(&self) -> Mode {
        Mode::Ec3P3
    }

    fn vid(&self) -> u32 {
        1
    }

    fn is_way(&self) {
        let _ = &self.entries;
    }
}

/// A stand-in with nothing late.
fn saying(alloc: Global, says: Says) -> StandIn {
    StandIn {
        entries: Vec::new(alloc),
        says,
        late: 0,
        requests: 0,
    }
}

/// The time after a tick, and how many events it took.
fn ticked(alloc: Global) -> (Option<u64>, usize) {
    let mut port = saying(alloc, Says::Done);
    let time = tick(&mut port, 3).ok();
    (time, port.entries.len())
}

/// Whether a disk breaks and fates are planned, and how many events both took.
fn broken_and_planned(alloc: Global) -> (bool, bool, usize) {
    let mut port = saying(alloc, Says::Done);
    let broken = break_disk(&mut port, 6).is_ok();
    let planned = plan(&mut port, 1, Fate::Lose, 4).is_ok();
    (broken, planned, port.entries.len())
}

/// What a flush comes to with so many late items, the first of which are requests, and how many events it took.
fn flushed(
    alloc: Global,
    says: Says,
    late: usize,
    requests: usize,
) -> (Result<Flushed, LogFault>, usize) {
    let mut port = StandIn {
        entries: Vec::new(alloc),
        says,
        late,
        requests,
    };
    let flushed = flush(&mut port);
    (flushed, port.entries.len())
}

/// The time and the number of units that a look shows, and how many events it took.
fn looked_at(alloc: Global, says: Says) -> (Result<(u64, usize), LogFault>, usize) {
    let mut port = saying(alloc, says);
    let seen = match look(&mut port) {
        Ok(view) => Ok((view.now, view.units.len())),
        Err(fault) => Err(fault),
    };
    (seen, port.entries.len())
}

fn restarted(alloc: Global, says: Says) -> Result<(), RestartFault> {
    restart(&mut saying(alloc, says), 2)
}

fn manager_restarted(alloc: Global, says: Says) -> Result<(), LogFault> {
    restart_manager(&mut saying(alloc, says))
}

fn asked(alloc: Global, says: Says) -> Result<(), AskFault> {
    ask(&mut saying(alloc, says), 5)
}

#[test]
fn clocks_disks_and_fates(rt: HostRuntime) {
    let alloc = rt.alloc();
    assert_eq!(rt; ticked(alloc), (Some(7), 1));
    assert_eq!(rt; broken_and_planned(alloc), (true, true, 2));
}

#[test]
fn late_items(rt: HostRuntime) {
    let alloc = rt.alloc();
    let five = Flushed {
        requests: 3,
        answers: 2,
    };
    let none = Flushed {
        requests: 0,
        answers: 0,
    };
    assert_eq!(rt; flushed(alloc, Says::Done, 5, 3), (Ok(five), 6));
    assert_eq!(rt; flushed(alloc, Says::Done, 0, 0), (Ok(none), 1));
    assert_eq!(rt;
        flushed(alloc, Says::Spoiled, 2, 2),
        (Err(LogFault::Spoiled { place: 8 }), 3)
    );
}

#[test]
fn looks(rt: HostRuntime) {
    let alloc = rt.alloc();
    assert_eq!(rt; looked_at(alloc, Says::Done), (Ok((7, 6)), 1));
    assert_eq!(rt;
        looked_at(alloc, Says::Spoiled),
        (Err(LogFault::Spoiled { place: 8 }), 1)
    );
}

#[test]
fn restarts(rt: HostRuntime) {
    let alloc = rt.alloc();
    let damaged = RestartFault::Damaged {
        kept: 1,
        computed: 2,
    };
    assert_eq!(rt; restarted(alloc, Says::Done), Ok(()));
    assert_eq!(rt; restarted(alloc, Says::Damaged), Err(damaged));
    assert_eq!(rt;
        restarted(alloc, Says::Spoiled),
        Err(RestartFault::Spoiled { place: 8 })
    );
    assert_eq!(rt; manager_restarted(alloc, Says::Done), Ok(()));
    assert_eq!(rt;
        manager_restarted(alloc, Says::Spoiled),
        Err(LogFault::Spoiled { place: 8 })
    );
}

#[test]
fn deletions(rt: HostRuntime) {
    let alloc = rt.alloc();
    assert_eq!(rt; asked(alloc, Says::Done), Ok(()));
    assert_eq!(rt; asked(alloc, Says::Already), Ok(()));
    assert_eq!(rt; asked(alloc, Says::NotBegun), Err(AskFault::NotBegun));
    assert_eq!(rt;
        asked(alloc, Says::Spoiled),
        Err(AskFault::Spoiled { place: 8 })
    );
}
