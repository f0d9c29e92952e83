//! A run of a script, from its bytes to the printed bytes.

ghost use Rattle.std.specs.Prelude.{◌≡◌, ◌≤◌, [], true, false, map};
ghost use Rattle.std.specs.String.{string_bytes};
ghost use Rattle.script_lines.specs.Feeding.{feed_of, KeepsFeed};
ghost use Rattle.script_lines.specs.Lines.{nothing_buffered};
ghost use Rattle.node_runner.specs.Session.{fresh, handed_out, ShowsWhatWasPut};
ghost use Rattle.node_runner.specs.Beginning.{are_right_words, is_early, is_unread};
ghost use Rattle.node_runner.specs.Run.{status_of, Runs};
ghost use Rattle.node_runner.specs.Progress.{Stops, HasMore, RunsLines, KeepsCounts, Closes};

use crate::ending::Ending;
use crate::kept::Kept;
use crate::line_run::run_line;
use crate::root::begin;
use crate::session::Session;
use disk_base::{Farm, Sink, Source};
use script_lines::Feed;
use std::alloc::Global;

/// The most lines of a script.
const MOST_LINES: u64 = 1_000_000;

/// How a run ended, how far it came, and what its commands did.
#[derive(Drop)]
pub struct Outcome {
    /// 0 to 7, as `run` says.
    pub status: u8,
    /// How many lines ran whole, blank lines and comments counted.
    pub lines: u64,
    /// The session of the commands that were begun.
    pub session: Session,
}

/// Reads once more, behind the last line that may be, and answers how the run ends there.
fn read_last<S: Source>(feed: &mut Feed<S>) -> Ending
    ensures same_source { feed.new.source.ghost_name ≡ feed.old.source.ghost_name }
    ensures stops { Stops result (feed_of feed.old.buffer (S.seen feed.old.source.now)) (feed_of feed.new.buffer (S.seen feed.new.source.now)) HasMore }
    ensures feed { KeepsFeed (feed_of feed.old.buffer (S.seen feed.old.source.now)) (feed_of feed.new.buffer (S.seen feed.new.source.now)) }
{
    match feed.next_line() {
        Ok(Some(_)) => Ending::BadLine,
        Ok(None) => Ending::Whole,
        Err(fault) => Ending::from(fault),
    }
}

/// How many lines of a run ran whole, and how it ended.
#[derive(Drop)]
struct Ended {
    lines: u64,
    ending: Ending,
}

/// Runs line after line.
fn run_from<S: Source, K: Sink>(
    alloc: Global,
    feed: &mut Feed<S>,
    kept: &mut Kept,
    sink: &mut K,
) -> Ended
    requires { (feed.old.buffer ≡ nothing_buffered) × (kept.old.store ≡ fresh) × (kept.old.turns ≡ []) }
    ensures same_source { feed.new.source.ghost_name ≡ feed.old.source.ghost_name }
    ensures ends { RunsLines (S.seen feed.old.source.now) (S.seen feed.new.source.now) (K.seen sink.old) (K.seen sink.new)
        result.ending result.lines (handed_out kept.new.store kept.new.turns) }
{
    for lines in 0..MOST_LINES {
        match run_line(alloc, feed, kept, sink) {
            Ok(()) => {}
            Err(ending) => return Ended { lines, ending },
        }
    }
    let ending = read_last(feed);
    Ended {
        lines: MOST_LINES,
        ending,
    }
}

/// Runs all lines of a source.
fn run_lines<S: Source, K: Sink>(alloc: Global, source: &mut S, sink: &mut K) -> (Ended, Session)
    ensures { RunsLines (S.seen source.old) (S.seen source.new) (K.seen sink.old) (K.seen sink.new) result.0.ending result.0.lines result.1 }
{
    let mut feed = Feed::make(alloc, source);
    let mut kept = Kept::make(alloc);
    let ended = run_from(alloc, &mut feed, &mut kept, sink);
    let _source = feed.into_source();
    (ended, kept.into_session())
}

/// How a run ends whose lines ended so. Where they ended well, at a bad line or at a failed pull, the
/// sink is asked to hand on what it holds, and its failure is the end instead.
fn close<K: Sink>(sink: &mut K, ending: Ending) -> Ending
    requires { is_early ending ≡ false }
    ensures late { is_early result ≡ false }
    ensures ends { Closes ending result (K.seen sink.old) (K.seen sink.new) }
    ensures count { (K.seen sink.old).faults ≤ (K.seen sink.new).faults }
{
    if !ending.is_closed() {
        return ending;
    }
    match sink.finish() {
        Ok(()) => ending,
        Err(_) => Ending::WriteFault,
    }
}

/// The outcome of a run that ended so before its first line. Takes no memory.
fn unread(alloc: Global, ending: Ending) -> Outcome
    ensures { (result.status ≡ status_of ending) × (result.lines ≡ 0) × (result.session ≡ handed_out fresh []) }
{
    Outcome {
        status: ending.status(),
        lines: 0,
        session: Kept::make(alloc).into_session(),
    }
}

/// Runs a script: makes the root ready, then reads its lines from the source, one after another, and pushes
/// the text of each reply to the sink before the next line is read. `words` are the words behind the program's
/// name: one root, of which the farm has the shelves. Nothing is kept there yet. It holds one line, the names
/// and the blobs.
///
/// The status is
/// - 0 where the input was read to its end and every line ran,
/// - 1 where line `lines` + 1 is the first that isn't in the language: it is too long, spells no command,
///   or stands behind the 1,000,000th,
/// - 2 where the words aren't one word or it begins with `-`; the farm isn't asked then,
/// - 3 where the source failed,
/// - 4 where the sink failed,
/// - 5 where the allocator had no memory left,
/// - 6 where the farm failed as it was asked for the root,
/// - 7 where the root has content. A root that an earlier run left has, and none can be opened yet.
///
/// With 2, 6 and 7 nothing is read or written. No shelf is taken out of the farm.
///
/// The session says of each command that was begun, in order, what it did. Its last one may be of the line behind
/// those that ran: with status 4, where a part of that line's text was written, and with status 5, where memory
/// ran out inside it.
///
/// Behind the last line the sink's `finish` is called once, for 0, 1 and 3, and its failure is 4
/// instead. What was written is known where the source tells what it has left and the sink what it
/// holds.
pub fn run<S: Source, K: Sink, F: Farm>(
    alloc: Global,
    words: &[String],
    source: &mut S,
    sink: &mut K,
    farm: &mut F,
) -> Outcome
    ensures runs { Runs F.Disk.seen (map string_bytes words.now) (S.seen source.old) (S.seen source.new) (K.seen sink.old) (K.seen sink.new)
        (F.seen farm.old) (F.seen farm.new) result }
    ensures untouched { is_unread result.status ≡ true → (source.new ≡ source.old) × (sink.new ≡ sink.old) × (result.lines ≡ 0) }
    ensures unasked { are_right_words (map string_bytes words.now) ≡ false → farm.new ≡ farm.old }
    ensures integrity { ShowsWhatWasPut }
{
    match begin(words, farm) {
        Ok(()) => {}
        Err(ending) => return unread(alloc, ending),
    }
    let (ended, session) = run_lines(alloc, source, sink);
    let ending = close(sink, ended.ending);
    Outcome {
        status: ending.status(),
        lines: ended.lines,
        session,
    }
}
