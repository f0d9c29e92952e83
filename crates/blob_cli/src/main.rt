//! The program `blobstore ROOT`: runs the script of standard input over the folder ROOT, which has to be empty, and prints its
//! answers to standard output. It ends with the run's status, and says on standard error why a run didn't go through.
#![tactic(auto)]

mod report;
mod streams;
#[cfg(test)]
mod tests;

use dir_farm::DirFarm;
use node_runner::run;
use report::Report;
use std::process::ExitCode;
use std::{env, io};
use streams::{ReaderSource, WriterSink};

/// The words after the program's name.
fn words_of(rt: &HostRuntime) -> io::Result<Vec<String>> {
    let mut words = Vec::new(rt.alloc());
    for word in env::args(rt)?.skip(1) {
        words.push(word)?;
    }
    Ok(words)
}

/// How a run ends that couldn't begin: out of memory, or since its words are no text.
fn without_run(error: &io::Error) -> Report {
    let status = if error.kind() == io::ErrorKind::OutOfMemory {
        5
    } else {
        2
    };
    Report { status, lines: 0 }
}

/// Runs the script, and answers what is to be said of that.
fn run_script(rt: &HostRuntime) -> io::Result<Report> {
    let words = words_of(rt)?;
    let mut farm = DirFarm::new(rt.clone()?);
    let mut source = ReaderSource::new(rt.stdin());
    let mut sink = WriterSink::new(rt.stdout());
    let outcome = run(rt.alloc(), &words, &mut source, &mut sink, &mut farm);
    Ok(Report::of(&outcome))
}

fn main(rt: HostRuntime) -> ExitCode {
    let report = match run_script(&rt) {
        Ok(report) => report,
        Err(error) => without_run(&error),
    };
    if report.is_needed() {
        // Where standard error can't be written to, the status alone says it.
        let _ = rt.eprintln(&report);
    }
    ExitCode::from(report.status)
}
