//! Runs of whole scripts, with their texts written out.
//!
//! A helper gives the first row of its table that a run doesn't come to, or tells whether one comes to its own.

ghost use Rattle.std.specs.Prelude.{None, refl, true, false};
ghost use Rattle.disk_base.specs.Faults.{is_quiet, quiet_is_zero};

use code_mode::Payload;
use disk_base::{Failed, Farm, MemFarm, MemSink, MemSource, Sink, Source};
use node_runner::{Outcome, run};
use std::alloc::{AllocError, Global};
use std::cell::Cell;
use std::test::Fail;

/// A source that hands out at most so many bytes at once.
#[derive(Drop)]
struct Sips {
    source: MemSource,
    most: usize,
}

impl Source for Sips {
    ghost seen = { λ sips. record { left = None; faults = sips.source.plan.faults; is_quiet = is_quiet sips.source.plan } };

    ghost quiet_has_no_fault = { λ sips. quiet_is_zero sips.source.plan };

    fn pull(&mut self, out: &mut [u8]) -> Result<usize, Failed> {
        let most = self.most.clamp(1, out.len());
        self.source.pull(&mut out[..most])
    }
}

/// A sink that takes at most so many bytes at once.
#[derive(Drop)]
struct Narrow {
    sink: MemSink,
    most: usize,
}

impl Sink for Narrow {
    ghost seen = { λ narrow. record { held = None; faults = narrow.sink.plan.faults; is_handed_on = narrow.sink.is_handed_on } };

    fn push(&mut self, bytes: &[u8]) -> Result<usize, Failed> {
        let most = self.most.clamp(1, bytes.len());
        self.sink.push(&bytes[..most])
    }

    fn finish(&mut self) -> Result<(), Failed> {
        self.sink.finish()
    }
}

/// What a run is given: its script, how many bytes the source hands out at once and which of its pulls
/// fails, how many bytes the sink takes at once, how many in all, and which of its calls fails.
#[derive(Drop)]
struct Given<'a> {
    script: &'a [u8],
    pulled: usize,
    pull_fails: u64,
    pushed: usize,
    room: usize,
    push_fails: u64,
}

/// What a run came to: its status, how many lines ran whole, and how many commands were begun and volumes made.
pub(crate) type Numbers = (u8, u64, usize, usize);

/// The numbers of an outcome.
fn numbers(outcome: &Outcome) -> Numbers {
    let session = &outcome.session;
    (
        outcome.status,
        outcome.lines,
        session.turns.len(),
        session.pasts.len(),
    )
}

/// The numbers of a run.
pub(crate) fn run_over<S: Source, K: Sink, F: Farm>(
    alloc: Global,
    words: &[String],
    source: &mut S,
    sink: &mut K,
    farm: &mut F,
) -> Numbers {
    numbers(&run(alloc, words, source, sink, farm))
}

/// The words of a program.
fn words(alloc: Global, words: &[&str]) -> Result<Vec<String>, AllocError> {
    let mut own = Vec::new(alloc);
    for word in words {
        own.push(String::from_str(alloc, word)?)?;
    }
    Ok(own)
}

/// The numbers of a run with these words over an empty root.
fn run_with<S: Source, K: Sink>(
    alloc: Global,
    own: &[&str],
    source: &mut S,
    sink: &mut K,
) -> Result<Numbers, AllocError> {
    let words = words(alloc, own)?;
    let mut farm = MemFarm::new(alloc, Vec::new(alloc));
    Ok(run_over(alloc, &words, source, sink, &mut farm))
}

/// The source of a run.
fn source(alloc: Global, given: &Given<'_>) -> Result<Sips, AllocError> {
    let bytes = given.script.to_vec(alloc)?;
    let fails = vec![in alloc; given.pull_fails]?;
    Ok(Sips {
        source: MemSource::new(alloc, bytes, fails),
        most: given.pulled,
    })
}

/// The sink of a run.
fn sink(alloc: Global, given: &Given<'_>) -> Result<Narrow, AllocError> {
    let fails = vec![in alloc; given.push_fails]?;
    match MemSink::new(alloc, given.room, fails) {
        Ok(sink) => Ok(Narrow {
            sink,
            most: given.pushed,
        }),
        Err(_) => Err(AllocError),
    }
}

/// Whether a run over this source and sink comes to these numbers, and writes this text.
fn writes(
    alloc: Global,
    source: &mut Sips,
    sink: &mut Narrow,
    want: (Numbers, &[u8]),
) -> Result<bool, AllocError> {
    let numbers = run_with(alloc, &["root"], source, sink)?;
    Ok(numbers == want.0 && sink.sink.as_slice() == want.1)
}

/// Whether a run comes to these numbers, and writes this text.
fn comes_to(
    alloc: Global,
    given: &Given<'_>,
    numbers: Numbers,
    text: &[u8],
) -> Result<bool, AllocError> {
    let mut source = source(alloc, given)?;
    let mut sink = sink(alloc, given)?;
    writes(alloc, &mut source, &mut sink, (numbers, text))
}

/// What a run is given that meets no fault.
fn plain(script: &[u8]) -> Given<'_> {
    Given {
        script,
        pulled: 4096,
        pull_fails: 0,
        pushed: 65536,
        room: 262_144,
        push_fails: 0,
    }
}

/// Whether a run of this script that meets no fault comes to these numbers, and writes this text.
fn answers(
    alloc: Global,
    script: &[u8],
    numbers: Numbers,
    text: &[u8],
) -> Result<bool, AllocError> {
    comes_to(alloc, &plain(script), numbers, text)
}

const HELLO: &str = "disks 9\nvolume EC6P3\nput a 68656c6c6f\nget a\n";

const HELLO_TEXT: &str = "disks 9\nvolume 1 EC6P3\nput a vid 1 bid 1 size 5\ngot a 68656c6c6f\n";

/// A script, its text, and its status, lines, commands and volumes.
type Row = (&'static str, &'static str, Numbers);

/// Scripts whose commands are done.
fn answered() -> [Row; 7] {
    [
        (HELLO, HELLO_TEXT, (0, 4, 4, 1)),
        ("", "", (0, 0, 0, 0)),
        ("disks 9\nhop\ndisks 9\n", "disks 9\n", (1, 1, 1, 0)),
        ("disks 9\ndisks 9\r", "disks 9\n", (1, 1, 1, 0)),
        (
            "disks 6\nvolume EC3P3\nput f fill 0 1\nget f\n",
            "disks 6\nvolume 1 EC3P3\nput f vid 1 bid 1 size 1\ngot f 14\n",
            (0, 4, 4, 1),
        ),
        (
            "disks 6\nvolume EC3P3\nput f fill 1 1\nget f\n",
            "disks 6\nvolume 1 EC3P3\nput f vid 1 bid 1 size 1\ngot f 6c\n",
            (0, 4, 4, 1),
        ),
        (
            "disks 9\r\n\r\n# a comment\r\nvolume EC6P3\r\nput a AB\r\nget a",
            "disks 9\nvolume 1 EC6P3\nput a vid 1 bid 1 size 1\ngot a ab\n",
            (0, 6, 4, 1),
        ),
    ]
}

/// Scripts with commands that are refused.
fn refused() -> [Row; 5] {
    [
        (
            "volume EC6P3\n",
            "refused volume EC6P3 few-disks 0 9\n",
            (0, 1, 1, 0),
        ),
        (
            "disks 9\ndisks 8\ndisks 0\n",
            "disks 9\nrefused disks given 9\nrefused disks given 9\n",
            (0, 3, 3, 0),
        ),
        (
            "disks 0\ndisks 65\ndisks 64\nvolume EC15P12\nvolume EC3P3\n",
            "refused disks limit\nrefused disks limit\ndisks 64\nvolume 1 EC15P12\nrefused volume EC3P3 limit\n",
            (0, 5, 5, 1),
        ),
        (
            "put a 00\nput a\nput a fill 1 4194305\n",
            "refused put a no-volume\nrefused put a empty\nrefused put a too-large\n",
            (0, 3, 3, 0),
        ),
        (
            "disks 9\nvolume EC6P3\nput a 68656c6c6f\nget a\nput a 00\nput b\nget z\nput c fill 1 16777217\nput d 0102\nget a\nget d\n",
            "disks 9\nvolume 1 EC6P3\nput a vid 1 bid 1 size 5\ngot a 68656c6c6f\nrefused put a name-taken\nrefused put b empty\nrefused get z no-name\nrefused put c too-large\nput d vid 1 bid 2 size 2\ngot a 68656c6c6f\ngot d 0102\n",
            (0, 11, 11, 1),
        ),
    ]
}

/// The first script of these rows that is answered otherwise.
fn misanswered(alloc: Global, rows: &[Row]) -> Result<Option<&'static str>, AllocError> {
    for (script, text, numbers) in rows {
        if !answers(alloc, script.as_bytes(), *numbers, text.as_bytes())? {
            return Ok(Some(*script));
        }
    }
    Ok(None)
}

#[test]
fn scripts_are_answered(rt: HostRuntime) -> Result<(), Fail> {
    assert_eq!(rt; misanswered(rt.alloc(), &answered())?, None);
    assert_eq!(rt; misanswered(rt.alloc(), &refused())?, None);
    Ok(())
}

/// Whether a run with these words over no input comes to this status, and to nothing.
fn ends_with(alloc: Global, own: &[&str], status: u8) -> Result<bool, AllocError> {
    let mut source = MemSource::new(alloc, Vec::new(alloc), Vec::new(alloc));
    let Ok(mut sink) = MemSink::new(alloc, 8, Vec::new(alloc)) else {
        return Err(AllocError);
    };
    Ok(run_with(alloc, own, &mut source, &mut sink)? == (status, 0, 0, 0))
}

/// Words of the program that are no root.
fn wrong_words() -> [&'static [&'static str]; 4] {
    [&[], &["root", "root"], &["-"], &["--help"]]
}

/// The first of them with which a run ends otherwise.
fn taken_words(alloc: Global) -> Result<Option<&'static [&'static str]>, AllocError> {
    for words in wrong_words() {
        if !ends_with(alloc, words, 2)? {
            return Ok(Some(words));
        }
    }
    Ok(None)
}

#[test]
fn words_are_one_root(rt: HostRuntime) -> Result<(), Fail> {
    assert_eq!(rt; taken_words(rt.alloc())?, None);
    assert!(rt; ends_with(rt.alloc(), &["root"], 0)?);
    assert!(rt; ends_with(rt.alloc(), &["a-b"], 0)?);
    Ok(())
}

/// At once pulled, the pull that fails, at once pushed, room, and the call on the sink that fails.
type Faults = (usize, u64, usize, usize, u64);

/// Faults that a run of the first script meets; its status, lines, commands and volumes; and how much of its
/// text is written. In pieces of 8 bytes the lines of 8, 13, 17 and 6 bytes end in pieces 1, 3, 5 and 6, and
/// the pull behind them finds the end. The text of the lines ends at 8, 23, 48 and 65.
fn faults() -> [(Faults, Numbers, usize); 20] {
    [
        ((1, 0, 1, 65, 0), (0, 4, 4, 1), 65),
        ((8, 1, 99, 65, 0), (3, 0, 0, 0), 0),
        ((8, 2, 99, 65, 0), (3, 1, 1, 0), 8),
        ((8, 3, 99, 65, 0), (3, 1, 1, 0), 8),
        ((8, 4, 99, 65, 0), (3, 2, 2, 1), 23),
        ((8, 5, 99, 65, 0), (3, 2, 2, 1), 23),
        ((8, 6, 99, 65, 0), (3, 3, 3, 1), 48),
        ((8, 7, 99, 65, 0), (3, 4, 4, 1), 65),
        ((8, 8, 99, 65, 0), (0, 4, 4, 1), 65),
        ((99, 0, 99, 65, 1), (4, 0, 1, 0), 0),
        ((99, 0, 99, 65, 2), (4, 1, 2, 1), 8),
        ((99, 0, 99, 65, 3), (4, 2, 3, 1), 23),
        ((99, 0, 99, 65, 4), (4, 3, 4, 1), 48),
        ((99, 0, 99, 65, 5), (4, 4, 4, 1), 65),
        ((99, 0, 99, 65, 6), (0, 4, 4, 1), 65),
        ((99, 0, 99, 8, 0), (4, 1, 2, 1), 8),
        ((99, 0, 99, 22, 0), (4, 1, 2, 1), 8),
        ((99, 0, 1, 22, 0), (4, 1, 2, 1), 22),
        ((99, 0, 1, 64, 0), (4, 3, 4, 1), 64),
        ((99, 0, 7, 65, 4), (4, 1, 2, 1), 15),
    ]
}

/// Whether a run of the first script under faults comes to these numbers, and writes so much of the text.
fn meets(
    alloc: Global,
    given: Faults,
    numbers: Numbers,
    written: usize,
) -> Result<bool, AllocError> {
    let (pulled, pull_fails, pushed, room, push_fails) = given;
    let given = Given {
        script: HELLO.as_bytes(),
        pulled,
        pull_fails,
        pushed,
        room,
        push_fails,
    };
    let text = HELLO_TEXT.as_bytes();
    comes_to(alloc, &given, numbers, &text[..written.min(text.len())])
}

/// The first faults that a run doesn't meet so.
fn unmet(alloc: Global) -> Result<Option<Faults>, AllocError> {
    for (given, numbers, written) in faults() {
        if !meets(alloc, given, numbers, written)? {
            return Ok(Some(given));
        }
    }
    Ok(None)
}

#[test]
fn pieces_and_faults_are_met(rt: HostRuntime) -> Result<(), Fail> {
    assert_eq!(rt; unmet(rt.alloc())?, None);
    Ok(())
}

/// Whether a run whose call on the sink of this number fails, the last behind its lines, ends with a write fault
/// behind so many lines. The pull of the other number fails too.
fn fails_to_close(
    alloc: Global,
    script: &[u8],
    fails: (u64, u64),
    lines: u8,
) -> Result<bool, AllocError> {
    let mut given = plain(script);
    given.pull_fails = fails.0;
    given.push_fails = fails.1;
    let mut source = source(alloc, &given)?;
    let mut sink = sink(alloc, &given)?;
    let numbers = run_with(alloc, &["root"], &mut source, &mut sink)?;
    Ok(numbers == (4, u64::from(lines), usize::from(lines), 0))
}

#[test]
fn a_close_that_fails_is_a_write_fault(rt: HostRuntime) -> Result<(), Fail> {
    assert!(rt; fails_to_close(rt.alloc(), b"hop\n", (0, 1), 0)?);
    assert!(rt; fails_to_close(rt.alloc(), b"disks 9\n", (2, 2), 1)?);
    assert!(rt; fails_to_close(rt.alloc(), b"", (1, 1), 0)?);
    Ok(())
}

/// A source that hands out one line a pull, and sees whether each line before was answered by then.
#[derive(Drop)]
struct OneByOne<'a> {
    lines: &'a [&'a str],
    pulls: usize,
    pushes: &'a Cell<usize>,
    is_ahead: bool,
}

impl Source for OneByOne<'_> {
    ghost seen = { λ _. record { left = None; faults = 0; is_quiet = false } };

    ghost quiet_has_no_fault = { λ _ _. refl };

    fn pull(&mut self, out: &mut [u8]) -> Result<usize, Failed> {
        if self.pushes.get() != self.pulls {
            self.is_ahead = true;
        }
        if self.pulls >= self.lines.len() {
            return Ok(0);
        }
        let line = self.lines[self.pulls].as_bytes();
        let count = line.len().min(out.len());
        out[..count].copy_from_slice(&line[..count]);
        self.pulls += 1;
        Ok(count)
    }
}

/// A sink that takes all, and counts its pushes.
#[derive(Drop)]
struct Counted<'a> {
    pushes: &'a Cell<usize>,
}

impl Sink for Counted<'_> {
    ghost seen = { λ _. record { held = None; faults = 0; is_handed_on = true } };

    fn push(&mut self, bytes: &[u8]) -> Result<usize, Failed> {
        self.pushes.set(self.pushes.get().saturating_add(1));
        Ok(bytes.len())
    }

    fn finish(&mut self) -> Result<(), Failed> {
        Ok(())
    }
}

/// The lines of a script.
fn one_by_one() -> [&'static str; 4] {
    ["disks 9\n", "volume EC6P3\n", "put a 00\n", "get a\n"]
}

/// Whether a run of these lines, from a source that sees the pushes, answers each before it pulls the next.
fn answers_one_by_one(alloc: Global) -> Result<bool, AllocError> {
    let pushes = Cell::new(0);
    let lines = one_by_one();
    let mut source = OneByOne {
        lines: &lines,
        pulls: 0,
        pushes: &pushes,
        is_ahead: false,
    };
    let mut sink = Counted { pushes: &pushes };
    let numbers = run_with(alloc, &["root"], &mut source, &mut sink)?;
    Ok(numbers == (0, 4, 4, 1) && source.pulls == 4 && !source.is_ahead)
}

#[test]
fn each_line_is_answered_before_the_next_is_read(rt: HostRuntime) -> Result<(), Fail> {
    assert!(rt; answers_one_by_one(rt.alloc())?);
    Ok(())
}

/// A script whose second line is a comment that is too long.
fn long_script(alloc: Global) -> Result<Vec<u8>, AllocError> {
    let mut script = b"disks 9\n".to_vec(alloc)?;
    script.resize(1_048_585, b'#')?;
    script.push(b'\n')?;
    Ok(script)
}

/// Whether a run of it stops behind its first line.
fn is_too_long(alloc: Global) -> Result<bool, AllocError> {
    let script = long_script(alloc)?;
    answers(alloc, &script, (1, 1, 1, 0), b"disks 9\n")
}

#[test]
fn a_line_that_is_too_long_is_bad(rt: HostRuntime) -> Result<(), Fail> {
    assert!(rt; is_too_long(rt.alloc())?);
    Ok(())
}

/// The digits of 65,537 fill bytes of seed 5.
fn large_digits(alloc: Global) -> Result<String, AllocError> {
    let fill = Payload::Fill {
        seed: 5,
        len: 65_537,
    };
    match fill.bytes(alloc) {
        Ok(bytes) => hex::encode(alloc, bytes.as_slice()),
        Err(_) => Err(AllocError),
    }
}

/// The text of a script that puts and gets these bytes.
fn large_text(alloc: Global) -> Result<Vec<u8>, AllocError> {
    let digits = large_digits(alloc)?;
    let head = b"disks 9\nvolume 1 EC6P3\nput a vid 1 bid 1 size 65537\ngot a ";
    let mut text = head.to_vec(alloc)?;
    text.extend_from_slice(digits.as_bytes())?;
    text.push(b'\n')?;
    Ok(text)
}

/// Whether a run of it is answered so.
fn is_large_got(alloc: Global) -> Result<bool, AllocError> {
    let text = large_text(alloc)?;
    let script = b"disks 9\nvolume EC6P3\nput a fill 5 65537\nget a\n";
    answers(alloc, script, (0, 4, 4, 1), &text)
}

#[test]
fn a_large_object_is_got(rt: HostRuntime) -> Result<(), Fail> {
    assert!(rt; is_large_got(rt.alloc())?);
    Ok(())
}
