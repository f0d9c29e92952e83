//! Plays stories of volumes over files in memory, which standard input tells, and prints what goes otherwise than they say.
//!
//! A story is a list of lines. Blank lines, and lines that begin with `#`, are passed over.
//!
//!     story NAME
//!     for VARIABLE in VALUE..      (at most twice: the story is played for each choice of values)
//!     volume MODE disks D          (and behind it at most one of the four below)
//!     ROW -> WANTED                (each row is one event or one call, and what it has to tell)
//!
//! Each choice has a volume of its own. Behind it may stand `lying`, whose log of the manager tells nothing, so that shards can be put
//! or copied by hand; `log-fails CALL,..` and `disk-fails DISK CALL,..`, calls on the log or on the files of a disk that fail; or
//! `epoch EPOCH`, with which the unit of index 0 begins.
//! In a row `$VARIABLE` stands for its value, and `$VARIABLE.1` and `$VARIABLE.2` for what stands before and behind the slash
//! in it. A row behind `at VALUE` is played only where the variable AT has that value. UNIT is INDEX EPOCH DISK, and TARGETS are
//! INDEX:DISK with commas between. The rows are:
//!
//! - events: `tick BY`, `plan DISK FATE COUNT`, `lease`, `begin BID TEXT`, `end BID`, `flush`, `lock TASK TARGETS`,
//!   `retarget TASK INDEX DISK`, `swap TASK`, `unlock TASK`, `break DISK`, `ask BID`, `commit BID`, `restart DISK`,
//!   `restart manager`, `look`, and `send` with `create UNIT`, `fence UNIT LOCK`, `list UNIT LOCK`, `release UNIT`, `read UNIT BID`,
//!   `mark UNIT BID`, `free UNIT BID`, `put UNIT BID SIZE TEXT` or `copy UNIT BID SIZE TEXT`, of a shard that begins with TEXT;
//! - calls: `put BID TEXT`, `get BID TEXT`, `puts FROM TO TEXT`, `gets FROM TO TEXT`, `sweep BID`,
//!   `advance TASK KIND TARGETS`, `reserve ENTRIES`;
//! - questions: `entries`, how many the history has, and `home INDEX`, the epoch and the disk of a unit by one more look.
//!
//! What doesn't fit the volume tells `unfit`. For each story a line tells how many rows were played; a row that went
//! otherwise has a line of its own, and the program then ends with status 1. It does so too at a line that isn't in the language.
#![tactic(auto)]

mod calls;
mod counting;
mod events;
mod play;
mod requests;
mod setting;
mod story;
mod words;

use anyhow::Result;
use counting::Tally;
use play::play_all;
use std::alloc::Global;
use std::io::Read;
use std::process::ExitCode;

/// The whole of standard input.
fn script(rt: &HostRuntime, alloc: Global) -> Result<String> {
    let mut text = String::new(alloc);
    rt.stdin().lock().read_to_string(&mut text)?;
    Ok(text)
}

fn run(rt: &HostRuntime) -> Result<Tally> {
    let text = script(rt, rt.alloc())?;
    play_all(rt, rt.alloc(), text.as_str())
}

fn main(rt: HostRuntime) -> ExitCode {
    match run(&rt) {
        Ok(tally) => {
            let printed = println!(&rt;
                "{} stories, {} rows, {} wrong",
                tally.stories, tally.rows, tally.wrong
            );
            if printed.is_ok() && tally.is_clean() {
                ExitCode::SUCCESS
            } else {
                ExitCode::FAILURE
            }
        }
        Err(error) => {
            let _ = rt.eprintln(&error);
            ExitCode::FAILURE
        }
    }
}
