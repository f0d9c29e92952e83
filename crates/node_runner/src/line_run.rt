//! One line of a run: it is read, answered, and its text is pushed.

ghost use Rattle.std.specs.Prelude.{◌≡◌, ◌≤◌};
ghost use Rattle.script_lines.specs.Feeding.{feed_of, KeepsFeed};
ghost use Rattle.node_runner.specs.Progress.{run_of, AnswersCommand, TellsLine, EndsLine, PushesAll};

use crate::command::Command;
use crate::ending::Ending;
use crate::kept::Kept;
use crate::print::print_reply;
use crate::read::{CommandFault, read_command};
use disk_base::{Failed, NoMemory, Sink, Source};
use script_lines::Feed;
use std::alloc::Global;
use unit_id::Bytes;

/// The text of the reply to a command, for which a turn is begun.
fn answer(alloc: Global, kept: &mut Kept, command: Command) -> Result<Bytes, NoMemory>
    ensures { AnswersCommand command result kept.old kept.new }
{
    match kept.answer(command) {
        Ok(reply) => print_reply(alloc, &reply),
        Err(NoMemory) => Err(NoMemory),
    }
}

/// The text of a line: of the reply to its command, and none where it is passed over.
fn answer_line(alloc: Global, kept: &mut Kept, line: &[u8]) -> Result<Bytes, CommandFault>
    ensures { TellsLine line.now result kept.old kept.new }
{
    let Some(command) = read_command(alloc, line, false)? else {
        return Ok(Bytes::from_vec(Vec::new(alloc)));
    };
    match answer(alloc, kept, command) {
        Ok(text) => Ok(text),
        Err(NoMemory) => Err(CommandFault::Memory),
    }
}

/// Pushes bytes until the sink has all of them.
fn push_all<K: Sink>(sink: &mut K, bytes: &[u8]) -> Result<(), Failed>
    ensures { PushesAll bytes.now (K.seen sink.old) (K.seen sink.new) result }
{
    let mut done = 0;
    while done < bytes.len() {
        done += sink.push(&bytes[done..])?;
    }
    Ok(())
}

/// Runs the next line: reads it, answers it, and pushes its text, before another line is read.
///
/// # Errors
/// How the run ends where no line ran whole; the end of the input is such an end.
pub fn run_line<S: Source, K: Sink>(
    alloc: Global,
    feed: &mut Feed<S>,
    kept: &mut Kept,
    sink: &mut K,
) -> Result<(), Ending>
    ensures same_source { feed.new.source.ghost_name ≡ feed.old.source.ghost_name }
    ensures line { EndsLine result
        (run_of (feed_of feed.old.buffer (S.seen feed.old.source.now)) kept.old (K.seen sink.old))
        (run_of (feed_of feed.new.buffer (S.seen feed.new.source.now)) kept.new (K.seen sink.new)) }
    ensures feed { KeepsFeed (feed_of feed.old.buffer (S.seen feed.old.source.now)) (feed_of feed.new.buffer (S.seen feed.new.source.now)) }
    ensures counts { (K.seen sink.old).faults ≤ (K.seen sink.new).faults }
{
    let line = match feed.next_line() {
        Ok(Some(line)) => line,
        Ok(None) => return Err(Ending::Whole),
        Err(fault) => return Err(Ending::from(fault)),
    };
    let text = answer_line(alloc, kept, line.as_slice())?;
    match push_all(sink, text.as_slice()) {
        Ok(()) => Ok(()),
        Err(_) => Err(Ending::WriteFault),
    }
}
