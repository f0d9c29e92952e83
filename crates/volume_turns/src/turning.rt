//! One command over a way.

ghost use Rattle.std.specs.Prelude.{◌≡◌, ◌≤◌, length};
ghost use Rattle.rs_code.specs.Shape.{shape};
ghost use Rattle.code_mode.specs.declared.stripe.TheConstants.{BLOB_LIMIT};
ghost use Rattle.volume_entry.specs.Manager.{IsBid, IsDisk};
ghost use Rattle.volume_world.specs.Way.{shape_of};
ghost use Rattle.blob_access.specs.Coding.{coder_shape};
ghost use Rattle.object_access.specs.declared.pieces.TheConstants.{OBJECT_LIMIT};
ghost use Rattle.object_access.specs.Pieces.{blob_count, AreBids};
ghost use Rattle.volume_turns.specs.declared.command.VolumeCommand.TheVariants as commands;
ghost use Rattle.volume_turns.specs.Turn.{FitsCommand, Plays};

use crate::answering::{
    ask_reply, broken_reply, fetched_reply, flush_reply, got_reply, manager_reply, planned_reply,
    put_reply, restart_reply, seen_reply, tick_reply,
};
use crate::{VolumeCommand, VolumeReply};
use blob_access::get;
use blob_node::Fate;
use object_access::{get_object, put_object};
use rs_code::Coder;
use std::alloc::Global;
use volume_calls::{ask, break_disk, flush, look, plan, restart, restart_manager, tick};
use volume_world::{Port, StepFault};

fn play_look<P: Port>(port: &mut P) -> Result<VolumeReply, StepFault>
    ensures { Plays (P.seen port.old) (P.seen port.new) commands.Look result }
{
    seen_reply(look(port))
}

fn play_put<P: Port>(
    alloc: Global,
    port: &mut P,
    coder: &mut Coder,
    first: u64,
    object: &[u8],
) -> Result<VolumeReply, StepFault>
    requires coder { shape coder.old ≡ coder_shape (P.seen port.old).origin.mode }
    requires size { (1 ≤ length object.now) × (length object.now ≤ OBJECT_LIMIT) }
    requires numbers { AreBids first (blob_count (length object.now)) }
    ensures plays { Plays (P.seen port.old) (P.seen port.new) (commands.Put first object.now) result }
    ensures shape { shape coder.new ≡ shape coder.old }
{
    put_reply(put_object(alloc, port, coder, first, object))
}

fn play_get<P: Port>(
    alloc: Global,
    port: &mut P,
    coder: &mut Coder,
    first: u64,
    size: u32,
) -> Result<VolumeReply, StepFault>
    requires coder { shape coder.old ≡ coder_shape (P.seen port.old).origin.mode }
    requires size { (1 ≤ size) × (size ≤ OBJECT_LIMIT) }
    requires numbers { AreBids first (blob_count size) }
    ensures plays { Plays (P.seen port.old) (P.seen port.new) (commands.Get first size) result }
    ensures shape { shape coder.new ≡ shape coder.old }
{
    got_reply(get_object(alloc, port, coder, first, size))
}

fn play_fetch<P: Port>(
    alloc: Global,
    port: &mut P,
    coder: &mut Coder,
    bid: u64,
    size: u32,
) -> Result<VolumeReply, StepFault>
    requires coder { shape coder.old ≡ coder_shape (P.seen port.old).origin.mode }
    requires number { IsBid bid }
    requires size { (1 ≤ size) × (size ≤ BLOB_LIMIT) }
    ensures plays { Plays (P.seen port.old) (P.seen port.new) (commands.Fetch bid size) result }
    ensures shape { shape coder.new ≡ shape coder.old }
{
    fetched_reply(get(alloc, port, coder, bid, size))
}

fn play_ask<P: Port>(port: &mut P, bid: u64) -> Result<VolumeReply, StepFault>
    requires { IsBid bid }
    ensures { Plays (P.seen port.old) (P.seen port.new) (commands.Ask bid) result }
{
    ask_reply(ask(port, bid))
}

fn play_tick<P: Port>(port: &mut P, by: u32) -> Result<VolumeReply, StepFault>
    ensures { Plays (P.seen port.old) (P.seen port.new) (commands.Tick by) result }
{
    tick_reply(tick(port, by))
}

fn play_break<P: Port>(port: &mut P, disk: u32) -> Result<VolumeReply, StepFault>
    requires { IsDisk (shape_of (P.seen port.old).origin) disk }
    ensures { Plays (P.seen port.old) (P.seen port.new) (commands.Break disk) result }
{
    broken_reply(break_disk(port, disk))
}

fn play_plan<P: Port>(
    port: &mut P,
    disk: u32,
    fate: Fate,
    count: u32,
) -> Result<VolumeReply, StepFault>
    requires { IsDisk (shape_of (P.seen port.old).origin) disk }
    ensures { Plays (P.seen port.old) (P.seen port.new) (commands.Plan disk fate count) result }
{
    planned_reply(plan(port, disk, fate, count))
}

fn play_flush<P: Port>(port: &mut P) -> Result<VolumeReply, StepFault>
    ensures { Plays (P.seen port.old) (P.seen port.new) commands.Flush result }
{
    flush_reply(flush(port))
}

fn play_restart<P: Port>(port: &mut P, disk: u32) -> Result<VolumeReply, StepFault>
    requires { IsDisk (shape_of (P.seen port.old).origin) disk }
    ensures { Plays (P.seen port.old) (P.seen port.new) (commands.Restart disk) result }
{
    restart_reply(restart(port, disk))
}

fn play_restart_manager<P: Port>(port: &mut P) -> Result<VolumeReply, StepFault>
    ensures { Plays (P.seen port.old) (P.seen port.new) commands.RestartManager result }
{
    manager_reply(restart_manager(port))
}

/// Plays one command: its steps in the order that `specs/Turn` says, and the reply that they decide.
///
/// # Errors
///
/// `HistoryFull` only where the history is full. After it or `Memory` the command breaks off where it stood, and has no
/// reply.
pub fn play<P: Port>(
    alloc: Global,
    port: &mut P,
    coder: &mut Coder,
    command: &VolumeCommand,
) -> Result<VolumeReply, StepFault>
    requires coder { shape coder.old ≡ coder_shape (P.seen port.old).origin.mode }
    requires command { FitsCommand (P.seen port.old).origin command.now }
    ensures plays { Plays (P.seen port.old) (P.seen port.new) command.now result }
    ensures shape { shape coder.new ≡ shape coder.old }
{
    match command {
        VolumeCommand::Look => play_look(port),
        VolumeCommand::Put { first, object } => {
            play_put(alloc, port, coder, *first, object.as_slice())
        }
        VolumeCommand::Get { first, size } => play_get(alloc, port, coder, *first, *size),
        VolumeCommand::Fetch { bid, size } => play_fetch(alloc, port, coder, *bid, *size),
        VolumeCommand::Ask { bid } => play_ask(port, *bid),
        VolumeCommand::Tick { by } => play_tick(port, *by),
        VolumeCommand::Break { disk } => play_break(port, *disk),
        VolumeCommand::Plan { disk, fate, count } => play_plan(port, *disk, *fate, *count),
        VolumeCommand::Flush => play_flush(port),
        VolumeCommand::Restart { disk } => play_restart(port, *disk),
        VolumeCommand::RestartManager => play_restart_manager(port),
    }
}
