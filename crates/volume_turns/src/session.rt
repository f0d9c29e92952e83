//! Commands in order over a way.

ghost use Rattle.std.specs.Prelude.{◌≡◌};
ghost use Rattle.rs_code.specs.Shape.{shape};
ghost use Rattle.blob_access.specs.Coding.{coder_shape};
ghost use Rattle.volume_turns.specs.Session.{AllFitCommands, PlaysAll};

use crate::turning::play;
use crate::{VolumeCommand, VolumeReply};
use rs_code::Coder;
use std::alloc::Global;
use volume_world::{Port, StepFault};

/// Plays commands in order: the reply to each.
///
/// # Errors
///
/// The fault of the first command that breaks off, and none behind it is played; or `Memory` where a reply has no room. So
/// `HistoryFull` comes only where the history is full.
pub fn play_all<P: Port>(
    alloc: Global,
    port: &mut P,
    coder: &mut Coder,
    commands: &[VolumeCommand],
) -> Result<Vec<VolumeReply>, StepFault>
    requires coder { shape coder.old ≡ coder_shape (P.seen port.old).origin.mode }
    requires commands { AllFitCommands (P.seen port.old).origin commands.now }
    ensures plays { PlaysAll (P.seen port.old) (P.seen port.new) commands.now result }
    ensures shape { shape coder.new ≡ shape coder.old }
{
    let mut replies = Vec::with_capacity(alloc, commands.len())?;
    'turns: for command in commands {
        let reply = play(alloc, port, coder, command)?;
        replies.push(reply)?;
    }
    Ok(replies)
}
