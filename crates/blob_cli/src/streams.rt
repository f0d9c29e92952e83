//! Standard input and output as the source and the sink of a run.

ghost use Rattle.std.specs.Prelude.{None, false};

use disk_base::{Failed, Sink, Source};
use std::io::{Read, Write};

/// A reader as a source. It tells nothing of what the reader has left, and counts the reads that failed.
#[derive(Drop)]
pub struct ReaderSource<R> {
    reader: R,
    faults: u64,
}

impl<R: Read> ReaderSource<R> {
    /// The source that reads from here. No read has failed yet.
    pub fn new(reader: R) -> ReaderSource<R> {
        ReaderSource { reader, faults: 0 }
    }
}

impl<R: Read> Source for ReaderSource<R> {
    ghost seen = { λ source. record { left = None; faults = source.faults; is_quiet = false } };

    fn pull(&mut self, out: &mut [u8]) -> Result<usize, Failed> {
        match self.reader.read(out) {
            Ok(count) => Ok(count),
            Err(_) => {
                self.faults = self.faults.saturating_add(1); // a read failed
                Err(Failed)
            }
        }
    }

    ghost quiet_has_no_fault = { λ _ never. Prim.cc };
}

/// A writer as a sink. It tells nothing of what the writer holds, counts the calls that failed, and knows
/// whether it was flushed since the last write.
#[derive(Drop)]
pub struct WriterSink<W> {
    writer: W,
    faults: u64,
    is_handed_on: bool,
}

impl<W: Write> WriterSink<W> {
    /// The sink that writes here. No call has failed yet.
    pub fn new(writer: W) -> WriterSink<W> {
        WriterSink {
            writer,
            faults: 0,
            is_handed_on: true,
        }
    }

    /// The writer, as the last call left it.
    #[cfg(test)]
    pub fn into_writer(self) -> W
    where
        W: Drop,
    {
        self.writer
    }
}

impl<W: Write> Sink for WriterSink<W> {
    ghost seen = { λ sink. record { held = None; faults = sink.faults; is_handed_on = sink.is_handed_on } };

    fn push(&mut self, bytes: &[u8]) -> Result<usize, Failed> {
        match self.writer.write(bytes) {
            Ok(0) | Err(_) => {
                self.faults = self.faults.saturating_add(1); // a write failed
                Err(Failed)
            }
            Ok(count) => {
                self.is_handed_on = false;
                Ok(count)
            }
        }
    }

    fn finish(&mut self) -> Result<(), Failed> {
        match self.writer.flush() {
            Ok(()) => {
                self.is_handed_on = true;
                Ok(())
            }
            Err(_) => {
                self.faults = self.faults.saturating_add(1); // a flush failed
                Err(Failed)
            }
        }
    }
}
