//! Lines of sources, against examples.

ghost use Rattle.std.specs.Prelude.{Some};
ghost use Rattle.disk_base.specs.Faults.{is_quiet, quiet_is_zero};

use disk_base::{Failed, MemSource, Source};
use script_lines::{Feed, LineFault, lines_come_one_by_one};
use std::alloc::{AllocError, Global};
use std::test::Fail;
use unit_id::Bytes;

/// A source that hands out one byte at a time.
#[derive(Drop)]
struct Drip {
    inner: MemSource,
}

impl Source for Drip {
    ghost seen = { λ drip. record { left = Some drip.inner.left; faults = drip.inner.plan.faults; is_quiet = is_quiet drip.inner.plan } };

    ghost quiet_has_no_fault = { λ drip quiet. quiet_is_zero drip.inner.plan quiet };

    fn pull(&mut self, out: &mut [u8]) -> Result<usize, Failed> {
        self.inner.pull(&mut out[..1])
    }
}

/// A source that hands out these bytes one at a time, and fails at the pulls of these numbers.
fn slow_source(alloc: Global, input: &[u8], fails: &[u64]) -> Result<Drip, AllocError> {
    let bytes = input.to_vec(alloc)?;
    let fails = fails.to_vec(alloc)?;
    Ok(Drip {
        inner: MemSource::new(alloc, bytes, fails),
    })
}

/// Adds a line with a bar behind it, or the mark of a fault, to a text; whether more can come.
fn add(text: &mut Vec<u8>, answer: Result<Option<Bytes>, LineFault>) -> Result<bool, AllocError> {
    match answer {
        Ok(Some(line)) => {
            text.extend_from_slice(line.as_slice())?;
            text.push(b'|')?;
        }
        Ok(None) => return Ok(false),
        Err(LineFault::Read) => text.push(b'!')?,
        Err(LineFault::TooLong) => text.push(b'?')?,
        Err(LineFault::Memory) => return Err(AllocError),
    }
    Ok(true)
}

/// The lines of a source, each with a bar behind it, and the faults between them.
fn barred<S: Source>(alloc: Global, source: &mut S) -> Result<Vec<u8>, AllocError> {
    let mut feed = Feed::make(alloc, source);
    let mut text = Vec::new(alloc);
    for _ in 0..9 {
        if !add(&mut text, feed.next_line())? {
            break;
        }
    }
    Ok(text)
}

/// Whether a source of these bytes, handed out at once, has these lines.
fn splits(alloc: Global, input: &[u8], want: &[u8]) -> Result<bool, AllocError> {
    let bytes = input.to_vec(alloc)?;
    let mut source = MemSource::new(alloc, bytes, Vec::new(alloc));
    Ok(barred(alloc, &mut source)?.as_slice() == want)
}

/// Whether a source of these bytes, handed out one by one with these faults, has these lines.
fn drips(alloc: Global, input: &[u8], fails: &[u64], want: &[u8]) -> Result<bool, AllocError> {
    let mut source = slow_source(alloc, input, fails)?;
    Ok(barred(alloc, &mut source)?.as_slice() == want)
}

/// Inputs, and their lines with a bar behind each.
fn inputs() -> [(&'static [u8], &'static [u8]); 11] {
    [
        (b"", b""),
        (b"\n", b"|"),
        (b"a\nb\n", b"a|b|"),
        (b"a\nb", b"a|b|"),
        (b"a\r\nb\r\n", b"a|b|"),
        (b"a\r\r\n", b"a\r|"),
        (b"a\nb\r", b"a|b\r|"),
        (b"\r\n\n", b"||"),
        (b"a\rb\n", b"a\rb|"),
        (b"\n\n\nx", b"|||x|"),
        (b" a \n", b" a |"),
    ]
}

/// The first input with other lines.
fn missplit(alloc: Global) -> Result<Option<&'static [u8]>, AllocError> {
    for (input, want) in inputs() {
        if !splits(alloc, input, want)? || !drips(alloc, input, &[], want)? {
            return Ok(Some(input));
        }
    }
    Ok(None)
}

#[test]
fn lines_of_any_pieces(rt: HostRuntime) -> Result<(), Fail> {
    assert_eq!(rt; missplit(rt.alloc())?, None);
    Ok(())
}

#[test]
fn the_law_can_be_called(_rt: HostRuntime) {
    lines_come_one_by_one();
}

#[test]
fn faults_lose_no_byte(rt: HostRuntime) -> Result<(), Fail> {
    assert!(rt; drips(rt.alloc(), b"ab\nc", &[1, 3, 6], b"!!ab|!c|")?);
    Ok(())
}

/// How many bytes a line that was given has.
fn len_of(answer: Result<Option<Bytes>, LineFault>) -> Option<usize> {
    match answer {
        Ok(Some(line)) => Some(line.len()),
        _ => None,
    }
}

/// How many bytes the first line has of an input of so many bytes with this end.
fn first_len(alloc: Global, count: usize, end: &[u8]) -> Result<Option<usize>, AllocError> {
    let mut input = vec![in alloc; b'#'; count]?;
    input.extend_from_slice(end)?;
    let mut source = MemSource::new(alloc, input, Vec::new(alloc));
    let mut feed = Feed::make(alloc, &mut source);
    Ok(len_of(feed.next_line()))
}

/// How many bytes an input has before its end, its end, and how many bytes its first line has.
type Limit = (usize, &'static [u8], Option<usize>);

/// Inputs at the limit.
fn limits() -> [Limit; 5] {
    [
        (1_048_576, b"\nx", Some(1_048_576)),
        (1_048_576, b"", Some(1_048_576)),
        (1_048_575, b"\r\n", Some(1_048_575)),
        (1_048_577, b"\n", None),
        (1_048_576, b"\r\n", None),
    ]
}

/// The first of them with another line.
fn mismeasured(alloc: Global) -> Result<Option<Limit>, AllocError> {
    for (count, end, want) in limits() {
        if first_len(alloc, count, end)? != want {
            return Ok(Some((count, end, want)));
        }
    }
    Ok(None)
}

#[test]
fn lines_have_a_mebibyte_at_most(rt: HostRuntime) -> Result<(), Fail> {
    assert_eq!(rt; mismeasured(rt.alloc())?, None);
    Ok(())
}
