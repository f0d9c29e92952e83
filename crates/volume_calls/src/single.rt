//! Calls that ask for one event.

ghost use Rattle.std.specs.Prelude.{◌≡◌, Some, None, Ok};
ghost use Rattle.volume_entry.specs.Manager.{IsBid, IsDisk};
ghost use Rattle.volume_world.specs.Way.{Origin, shape_of};
ghost use Rattle.volume_world.specs.Replying.{RepliesAsk, RepliesDone, RepliesLook, RepliesRestart, RepliesRestartManager, RepliesTick};
ghost use Rattle.volume_calls.specs.CallForm.{cut_by, Asks};
ghost use Rattle.volume_calls.specs.CutOff.{ask_cut, log_cut, restart_cut, step_cut};
ghost use Rattle.volume_calls.specs.SingleCalls.{ask_tells, done_tells, look_tells, manager_tells, restart_tells, tick_tells};

use crate::{AskFault, LogFault, RestartFault};
use blob_node::Fate;
use volume_entry::View;
use volume_world::{Event, Port, Reply, StepFault};

fn time_of(reply: Reply) -> u64
    requires { RepliesTick reply }
    ensures { tick_tells reply ≡ Some (Ok result) }
{
    match reply {
        Reply::Now { now } => now,
        _ => unreachable!(),
    }
}

fn done(reply: Reply) -> Result<(), StepFault>
    requires { RepliesDone reply }
    ensures whole { cut_by step_cut result ≡ None }
    ensures told { done_tells reply ≡ Some result }
{
    match reply {
        Reply::Done => Ok(()),
        _ => unreachable!(),
    }
}

fn restarted(reply: Reply) -> Result<(), RestartFault>
    requires { RepliesRestart reply }
    ensures whole { cut_by restart_cut result ≡ None }
    ensures told { restart_tells reply ≡ Some result }
{
    match reply {
        Reply::Done => Ok(()),
        Reply::Fault => Err(RestartFault::Fault),
        Reply::Damaged { kept, computed } => Err(RestartFault::Damaged { kept, computed }),
        Reply::Spoiled { place } => Err(RestartFault::Spoiled { place }),
        _ => unreachable!(),
    }
}

fn manager_restarted(reply: Reply) -> Result<(), LogFault>
    requires { RepliesRestartManager reply }
    ensures whole { cut_by log_cut result ≡ None }
    ensures told { manager_tells reply ≡ Some result }
{
    match reply {
        Reply::Done => Ok(()),
        Reply::Fault => Err(LogFault::Fault),
        Reply::Spoiled { place } => Err(LogFault::Spoiled { place }),
        _ => unreachable!(),
    }
}

fn shown(reply: Reply) -> Result<View, LogFault>
    requires { (origin : Origin) × RepliesLook origin reply }
    ensures whole { cut_by log_cut result ≡ None }
    ensures told { look_tells reply ≡ Some result }
{
    match reply {
        Reply::Seen { view } => Ok(view),
        Reply::Fault => Err(LogFault::Fault),
        Reply::Spoiled { place } => Err(LogFault::Spoiled { place }),
        _ => unreachable!(),
    }
}

fn asked(reply: Reply) -> Result<(), AskFault>
    requires { RepliesAsk reply }
    ensures whole { cut_by ask_cut result ≡ None }
    ensures told { ask_tells reply ≡ Some result }
{
    match reply {
        Reply::Done | Reply::Already => Ok(()),
        Reply::NotBegun => Err(AskFault::NotBegun),
        Reply::Fault => Err(AskFault::Fault),
        Reply::Spoiled { place } => Err(AskFault::Spoiled { place }),
        _ => unreachable!(),
    }
}

/// The volume's clock goes on by so many ticks: its time then.
///
/// # Errors
///
/// `HistoryFull` only where the history is full. After it or `Memory` the event isn't done.
pub fn tick<P: Port>(port: &mut P, by: u32) -> Result<u64, StepFault>
    ensures { Asks (Event.Tick by) tick_tells step_cut (P.seen port.old) (P.seen port.new) result }
{
    match port.step(Event::Tick { by }) {
        Ok(reply) => Ok(time_of(reply)),
        Err(fault) => Err(fault),
    }
}

/// A disk breaks for good. Disks count from 1.
///
/// # Errors
///
/// `HistoryFull` only where the history is full. After it or `Memory` the event isn't done.
pub fn break_disk<P: Port>(port: &mut P, disk: u32) -> Result<(), StepFault>
    requires { IsDisk (shape_of (P.seen port.old).origin) disk }
    ensures { Asks (Event.Break disk) done_tells step_cut (P.seen port.old) (P.seen port.new) result }
{
    match port.step(Event::Break { disk }) {
        Ok(reply) => done(reply),
        Err(fault) => Err(fault),
    }
}

/// The next `count` requests to the disk, behind those planned already, are to have this fate. Disks count from 1.
///
/// # Errors
///
/// `HistoryFull` only where the history is full. After it or `Memory` the event isn't done.
pub fn plan<P: Port>(port: &mut P, disk: u32, fate: Fate, count: u32) -> Result<(), StepFault>
    requires { IsDisk (shape_of (P.seen port.old).origin) disk }
    ensures { Asks (Event.Plan disk fate count) done_tells step_cut (P.seen port.old) (P.seen port.new) result }
{
    match port.step(Event::Plan { disk, fate, count }) {
        Ok(reply) => done(reply),
        Err(fault) => Err(fault),
    }
}

/// The station of a disk starts its chunks anew. Disks count from 1.
///
/// # Errors
///
/// `Fault`, `Damaged` and `Spoiled` exactly where the event replied so. After `HistoryFull` or `Memory` the event isn't
/// done, though a record in doubt may be settled.
pub fn restart<P: Port>(port: &mut P, disk: u32) -> Result<(), RestartFault>
    requires { IsDisk (shape_of (P.seen port.old).origin) disk }
    ensures { Asks (Event.Restart disk) restart_tells restart_cut (P.seen port.old) (P.seen port.new) result }
{
    match port.step(Event::Restart { disk }) {
        Ok(reply) => restarted(reply),
        Err(fault) => Err(RestartFault::from(fault)),
    }
}

/// The manager's log starts anew.
///
/// # Errors
///
/// `Fault` and `Spoiled` exactly where the event replied so. After `HistoryFull` or `Memory` the event isn't done.
pub fn restart_manager<P: Port>(port: &mut P) -> Result<(), LogFault>
    ensures { Asks Event.RestartManager manager_tells log_cut (P.seen port.old) (P.seen port.new) result }
{
    match port.step(Event::RestartManager) {
        Ok(reply) => manager_restarted(reply),
        Err(fault) => Err(LogFault::from(fault)),
    }
}

/// The volume as it stands.
///
/// # Errors
///
/// `Fault` and `Spoiled` exactly where the event replied so. After `HistoryFull` or `Memory` the event isn't done, though
/// the manager's log may be started.
pub fn look<P: Port>(port: &mut P) -> Result<View, LogFault>
    ensures { Asks Event.Look look_tells log_cut (P.seen port.old) (P.seen port.new) result }
{
    match port.step(Event::Look) {
        Ok(reply) => shown(reply),
        Err(fault) => Err(LogFault::from(fault)),
    }
}

/// Asks for the deletion of a blob; it may have been asked for before. Blob numbers are 1 to 2^62.
///
/// # Errors
///
/// `NotBegun`, `Fault` and `Spoiled` exactly where the event replied so. After `HistoryFull` or `Memory` the event isn't
/// done, though the manager's log may be started.
pub fn ask<P: Port>(port: &mut P, bid: u64) -> Result<(), AskFault>
    requires { IsBid bid }
    ensures { Asks (Event.Ask bid) ask_tells ask_cut (P.seen port.old) (P.seen port.new) result }
{
    match port.step(Event::Ask { bid }) {
        Ok(reply) => asked(reply),
        Err(fault) => Err(AskFault::from(fault)),
    }
}
