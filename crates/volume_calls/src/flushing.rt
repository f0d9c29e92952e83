//! The flush of a volume's late items.

ghost use Rattle.std.specs.Prelude.{◌≡◌, ◌+◌, ◌^◌, ◌<◌, None};
ghost use Rattle.volume_world.specs.Replying.{RepliesFlush};
ghost use Rattle.volume_calls.specs.declared.flushing.Flushed.{Flushed as FlushedView};
ghost use Rattle.volume_calls.specs.CallForm.{cut_by};
ghost use Rattle.volume_calls.specs.CutOff.{log_cut};
ghost use Rattle.volume_calls.specs.Flushes.{after_flush, counted, Flushes};
ghost use Rattle.volume_calls.specs.FlushParts.{told, Arrives};

use crate::LogFault;
use volume_world::{Event, Port, Reply};

/// How many late items arrived: requests that were handled, and answers that were heard.
#[derive(Clone, Copy, Debug, PartialEq, Eq)]
pub struct Flushed {
    pub requests: u64,
    pub answers: u64,
}

/// Whether the item that arrived was a request, where one was left.
fn arrived(reply: Reply) -> Result<Option<bool>, LogFault>
    requires { RepliesFlush reply }
    ensures whole { cut_by log_cut result ≡ None }
    ensures told { (so_far : FlushedView) → told so_far result ≡ after_flush so_far reply }
{
    match reply {
        Reply::Flushed { request } => Ok(Some(request)),
        Reply::NothingLate => Ok(None),
        Reply::Fault => Err(LogFault::Fault),
        Reply::Spoiled { place } => Err(LogFault::Spoiled { place }),
        _ => unreachable!(),
    }
}

/// Has the first late item arrive, where one is left.
fn flush_one<P: Port>(port: &mut P) -> Result<Option<bool>, LogFault>
    ensures { Arrives (P.seen port.old) (P.seen port.new) result }
{
    match port.step(Event::FlushOne) {
        Ok(reply) => arrived(reply),
        Err(fault) => Err(LogFault::from(fault)),
    }
}

/// One more item arrived: a request, or an answer.
fn counted(so_far: Flushed, request: bool) -> Flushed
    requires { so_far.requests + so_far.answers < 2 ^ 32 }
    ensures { result ≡ counted so_far request }
{
    if request {
        Flushed {
            requests: so_far.requests + 1,
            answers: so_far.answers,
        }
    } else {
        Flushed {
            requests: so_far.requests,
            answers: so_far.answers + 1,
        }
    }
}

/// Has late items arrive, the first one each time, until none is left: how many did. Each is an entry of the history, so
/// the counts stay below 2^32.
///
/// # Errors
///
/// `Fault` and `Spoiled` exactly where an event of this call replied so, which is then the last one. After an error the
/// items that arrived before it have arrived, though the answer doesn't count them.
pub fn flush<P: Port>(port: &mut P) -> Result<Flushed, LogFault>
    ensures { Flushes (P.seen port.old) (P.seen port.new) result }
{
    let mut flushed = Flushed {
        requests: 0,
        answers: 0,
    };
    'items: while let Some(request) = flush_one(port)? {
        flushed = counted(flushed, request);
    }
    Ok(flushed)
}
