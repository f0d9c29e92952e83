//! The words for standard error, and the adapters over memory.

use crate::report::Report;
use crate::streams::{ReaderSource, WriterSink};
use disk_base::{Sink, Source};
use std::io::{self, Write};
use std::test::Fail;

#[test]
fn each_status_has_its_line(rt: HostRuntime) -> Result<(), Fail> {
    let table = [
        (0, false, ""),
        (1, true, "blobstore: bad line 8"),
        (
            2,
            true,
            "blobstore: usage: blobstore [--workers K] [--make SEED] ROOT",
        ),
        (3, true, "blobstore: read fault after line 7"),
        (4, true, "blobstore: write fault after line 7"),
        (5, true, "blobstore: no memory after line 7"),
        (6, true, "blobstore: root"),
        (7, true, "blobstore: root not empty"),
    ];
    for (status, is_needed, line) in table {
        let report = Report { status, lines: 7 };
        assert_eq!(rt; report.is_needed(), is_needed, "{status}");
        let said = format!(in rt.alloc(); "{report}")?;
        assert_eq!(rt; said.as_str(), line, "{status}");
    }
    Ok(())
}

#[test]
fn a_reader_is_a_source(rt: HostRuntime) -> Result<(), Fail> {
    let mut source = ReaderSource::new(b"abc".as_slice());
    let mut room = [0u8; 2];
    for (count, first) in [(2, b'a'), (1, b'c'), (0, b'c')] {
        let pulled = source.pull(&mut room);
        assert!(rt; matches!(pulled, Ok(n) if n == count));
        assert_eq!(rt; room[0], first);
    }
    Ok(())
}

/// A writer that takes few bytes at a time and counts them, and counts how often it was flushed.
#[derive(Drop)]
struct Meter {
    most: usize,
    taken: usize,
    flushes: usize,
}

impl Write for Meter {
    fn write(&mut self, bytes: &[u8]) -> io::Result<usize> {
        let count = bytes.len().min(self.most);
        self.taken = self.taken.saturating_add(count);
        Ok(count)
    }

    fn flush(&mut self) -> io::Result<()> {
        self.flushes = self.flushes.saturating_add(1);
        Ok(())
    }
}

#[test]
fn a_writer_is_a_sink(rt: HostRuntime) -> Result<(), Fail> {
    let mut sink = WriterSink::new(Meter {
        most: 2,
        taken: 0,
        flushes: 0,
    });
    for (text, count) in [("abc", 2), ("c", 1), ("abcdef", 2)] {
        let pushed = sink.push(text.as_bytes());
        assert!(rt; matches!(pushed, Ok(n) if n == count), "{text}");
    }
    assert!(rt; sink.finish().is_ok());
    let meter = sink.into_writer();
    assert_eq!(rt; (meter.taken, meter.flushes), (5, 1));
    Ok(())
}

#[test]
fn a_writer_that_takes_nothing_has_failed(rt: HostRuntime) -> Result<(), Fail> {
    let mut sink = WriterSink::new(Meter {
        most: 0,
        taken: 0,
        flushes: 0,
    });
    assert!(rt; sink.push(b"a").is_err());
    Ok(())
}
