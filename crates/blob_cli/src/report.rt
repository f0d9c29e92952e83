//! What the program says of a run that didn't go through.

use node_runner::Outcome;
use std::fmt;

/// The line for standard error on a run's end. It has no text for a run that went through.
#[derive(Clone, Copy)]
pub struct Report {
    pub status: u8,
    pub lines: u64,
}

impl Report {
    /// What is to be said of a run that ended so.
    pub fn of(outcome: &Outcome) -> Report {
        Report {
            status: outcome.status,
            lines: outcome.lines,
        }
    }

    /// Whether there is anything to say.
    pub fn is_needed(&self) -> bool {
        self.status != 0
    }
}

impl fmt::Display for Report {
    fn fmt<W: fmt::Write>(&self, f: &mut fmt::Formatter<W>) -> fmt::Result {
        let lines = self.lines;
        match self.status {
            0 => Ok(()),
            1 => {
                let bad = lines.saturating_add(1);
                write!(f, "blobstore: bad line {bad}")
            }
            2 => write!(
                f,
                "blobstore: usage: blobstore [--workers K] [--make SEED] ROOT"
            ),
            3 => write!(f, "blobstore: read fault after line {lines}"),
            4 => write!(f, "blobstore: write fault after line {lines}"),
            6 => write!(f, "blobstore: root"),
            7 => write!(f, "blobstore: root not empty"),
            _ => write!(f, "blobstore: no memory after line {lines}"),
        }
    }
}
