//! Worked files, calls that fail, crashes, and files that were cut or changed.

ghost use Rattle.std.specs.Prelude.{◌≤◌, length};

use disk_base::{Extent, MemFile};
use gate_log::{
    Cursor, GateLog, LogFault, nothing_counts_behind_a_closed_gate, the_gate_alone_adds_a_body,
};
use std::alloc::Global;
use std::test::Fail;

/// A file with two bodies, `ab` and `c`.
const TWO: [u8; 22] = *b"BLOBLOG1\x01\x00\x00\x00\x02ab\x01\x00\x00\x00\x01c\x00";

/// What stands for a bad head where a number tells what a file says; a count of bodies stands for itself.
const BAD_HEAD: u64 = 100;

/// What stands for a bad chain, with the place added.
const BAD_CHAIN: u64 = 200;

/// What the worked file says, cut to each length in turn.
const CUTS: [u64; 23] = [
    0, 0, 0, 0, 0, 0, 0, 0, 0, 0, 208, 208, 208, 208, 208, 1, 215, 215, 215, 215, 215, 2, 2,
];

/// Writes these bytes to an empty file and settles them, by two calls.
fn fill(file: &mut MemFile, bytes: &[u8]) -> Result<(), LogFault> {
    file.grow(bytes.len() as u64)?;
    file.write_at(0, bytes)?;
    Ok(file.sync()?)
}

/// A file with these bytes, all of them settled: it has made two calls.
fn file_with(alloc: Global, bytes: &[u8], fails: Vec<u64>) -> Result<MemFile, LogFault> {
    let mut file = MemFile::new(alloc, fails);
    fill(&mut file, bytes)?;
    Ok(file)
}

/// How many bodies a started log has, read from its first place to its end.
fn count_bodies(alloc: Global, log: &mut GateLog<MemFile>) -> Result<u64, LogFault> {
    let mut place = log.first();
    for count in 0..9 {
        if log.end() == Some(place) {
            return Ok(count);
        }
        let (_body, next) = log.read(alloc, place)?;
        place = next;
    }
    Ok(u64::MAX)
}

/// What a start says of the file of a log, as one number.
fn start_says(alloc: Global, log: &mut GateLog<MemFile>) -> Result<u64, LogFault> {
    match log.start() {
        Ok(()) => count_bodies(alloc, log),
        Err(LogFault::BadHead) => Ok(BAD_HEAD),
        Err(LogFault::BadChain { place }) => Ok(BAD_CHAIN.saturating_add(place)),
        Err(_) => Ok(u64::MAX),
    }
}

/// What a start says of a file.
fn says(alloc: Global, file: MemFile) -> Result<u64, LogFault> {
    let mut log = GateLog::over(file);
    start_says(alloc, &mut log)
}

/// What a start says of a file with these bytes.
fn bytes_say(alloc: Global, bytes: &[u8]) -> Result<u64, LogFault> {
    says(alloc, file_with(alloc, bytes, Vec::new(alloc))?)
}

/// The last byte of a body, which has as many as a body may have.
fn last_of(body: &[u8]) -> u8
    requires some { 1 ≤ length body.now }
    requires few { length body.now ≤ 4194400 }
{
    body[body.len() - 1]
}

/// The last byte of the first body of a log, over a file that may tell nothing.
fn last_of_first<E: Extent>(alloc: Global, log: &mut GateLog<E>) -> Result<u8, LogFault> {
    match log.read(alloc, 8) {
        Ok((body, _next)) => Ok(last_of(body.as_slice())),
        Err(fault) => Err(fault),
    }
}

/// The last byte of the body `ab` as it is read once a log is started and has it.
fn last_of_appended(alloc: Global, log: &mut GateLog<MemFile>) -> Result<u8, LogFault> {
    log.start()?;
    log.append(alloc, b"ab")?;
    last_of_first(alloc, log)
}

/// The last byte of the body `ab` over a file that reads a bit of it wrong.
fn last_of_lie(alloc: Global) -> Result<u8, LogFault> {
    let mut log = GateLog::over(MemFile::lying(alloc, vec![in alloc; 14]?));
    last_of_appended(alloc, &mut log)
}

#[test]
fn a_body_is_read_over_a_lying_file(rt: HostRuntime) -> Result<(), Fail> {
    assert_eq!(rt; last_of_lie(rt.alloc())?, b'c');
    Ok(())
}

/// Whether both calls of a log that isn't started are refused.
fn refuses_all(alloc: Global, log: &mut GateLog<MemFile>) -> bool {
    log.end().is_none()
        && matches!(log.append(alloc, b"ab"), Err(LogFault::Shut))
        && matches!(log.read(alloc, 8), Err(LogFault::Shut))
}

/// Whether a log has its first place at 8 and refuses all before its start, and is started.
fn begins(alloc: Global, log: &mut GateLog<MemFile>) -> bool {
    log.first() == 8 && refuses_all(alloc, log) && log.start().is_ok()
}

/// Whether a body of no bytes is refused, and changes nothing.
fn refuses_nothing(alloc: Global, log: &mut GateLog<MemFile>) -> bool {
    matches!(log.append(alloc, b""), Err(LogFault::BadLength { len: 0 })) && log.end() == Some(8)
}

/// Whether the first body is appended at its place, with the end behind it.
fn appends(alloc: Global, log: &mut GateLog<MemFile>) -> bool {
    matches!(log.append(alloc, b"ab"), Ok(8)) && log.end() == Some(15)
}

/// Whether the first body stands at its place, with the next place behind it.
fn has_first(alloc: Global, log: &mut GateLog<MemFile>) -> bool {
    match log.read(alloc, 8) {
        Ok((body, next)) => body.as_slice() == b"ab".as_slice() && next == 15,
        Err(_) => false,
    }
}

/// Whether no body is found at a place.
fn refuses(alloc: Global, log: &mut GateLog<MemFile>, place: u64) -> bool {
    match log.read(alloc, place) {
        Err(LogFault::BadChain { place: told }) => told == place,
        _ => false,
    }
}

/// Whether no body is found but at the first place.
fn has_no_other(alloc: Global, log: &mut GateLog<MemFile>) -> bool {
    refuses(alloc, log, 0)
        && refuses(alloc, log, 9)
        && refuses(alloc, log, 13)
        && refuses(alloc, log, 15)
        && refuses(alloc, log, 99)
}

/// Whether a log that has begun takes a body, and has it alone.
fn grows(alloc: Global, log: &mut GateLog<MemFile>) -> bool {
    refuses_nothing(alloc, log)
        && appends(alloc, log)
        && has_first(alloc, log)
        && has_no_other(alloc, log)
}

/// Whether the file of a log has these bytes.
fn is_file(log: GateLog<MemFile>, want: &[u8]) -> bool {
    log.into_file().as_slice() == want
}

/// Whether a log over an empty file begins, and has the file of no bodies then.
fn is_begun(alloc: Global) -> bool {
    let mut log = GateLog::over(MemFile::new(alloc, Vec::new(alloc)));
    begins(alloc, &mut log) && is_file(log, b"BLOBLOG1\x00")
}

/// Whether a log over an empty file begins and grows, and has the file of one body then.
fn is_grown(alloc: Global) -> bool {
    let mut log = GateLog::over(MemFile::new(alloc, Vec::new(alloc)));
    begins(alloc, &mut log)
        && grows(alloc, &mut log)
        && is_file(log, b"BLOBLOG1\x01\x00\x00\x00\x02ab\x00")
}

#[test]
fn a_log_begins_and_grows(rt: HostRuntime) {
    assert!(rt; is_grown(rt.alloc()));
    assert!(rt; is_begun(rt.alloc()));
}

/// A log over an empty file whose call of this number fails.
fn failing(alloc: Global, call: u64) -> Result<GateLog<MemFile>, LogFault> {
    let fails = Vec::from_slice(alloc, &[call])?;
    Ok(GateLog::over(MemFile::new(alloc, fails)))
}

/// Whether a log is started, and its first append fails.
fn fails_to_append(alloc: Global, log: &mut GateLog<MemFile>) -> bool {
    log.start().is_ok() && matches!(log.append(alloc, b"ab"), Err(LogFault::Fault))
}

/// What a file says whose first append failed at this call, after a crash that leaves this byte where it can.
fn after_crash(alloc: Global, call: u64, choice: u8) -> Result<u64, LogFault> {
    let mut log = failing(alloc, call)?;
    if !fails_to_append(alloc, &mut log) {
        return Err(LogFault::Shut);
    }
    says(alloc, log.into_file().crash(&[choice; 7]))
}

/// What is found after the first append of a log has failed, once it is started again.
fn started_again(alloc: Global, log: &mut GateLog<MemFile>) -> Result<u64, LogFault> {
    if !fails_to_append(alloc, log) || !refuses_all(alloc, log) {
        return Err(LogFault::Shut);
    }
    log.start()?;
    count_bodies(alloc, log)
}

/// What is found after an append that failed at this call, once the log is started again.
fn after_start(alloc: Global, call: u64) -> Result<u64, LogFault> {
    let mut log = failing(alloc, call)?;
    started_again(alloc, &mut log)
}

/// Whether an append that failed at this call leaves so many bodies as it is, and these after a crash that
/// leaves 0, 1 or 7 as the gate.
fn leaves(alloc: Global, call: u64, as_it_is: u64, wants: [u64; 3]) -> Result<bool, LogFault> {
    Ok(
        after_crash(alloc, call, 0)? == wants[0]
            && after_crash(alloc, call, 1)? == wants[1]
            && after_crash(alloc, call, 7)? == wants[2]
            && after_start(alloc, call)? == as_it_is,
    )
}

/// Whether each of the four calls of the first append leaves the list before it or the one after it.
fn all_leave(alloc: Global) -> Result<bool, LogFault> {
    Ok(
        leaves(alloc, 5, 0, [0, 0, 0])?
            && leaves(alloc, 6, 0, [0, 0, 0])?
            && leaves(alloc, 7, 1, [0, 1, 0])?
            && leaves(alloc, 8, 1, [0, 1, 0])?,
    )
}

/// Whether a log whose call of this number fails answers Ok to the calls that end before it alone: the start,
/// which makes 4 calls, and two appends, each of which makes 4 more.
fn answers(alloc: Global, log: &mut GateLog<MemFile>, call: u64) -> bool {
    log.start().is_ok() == (call > 4)
        && log.append(alloc, b"ab").is_ok() == (call > 8)
        && log.append(alloc, b"c").is_err()
}

/// Whether a log over an empty file whose call of this number fails answers so.
fn is_answered(alloc: Global, call: u64) -> Result<bool, LogFault> {
    let mut log = failing(alloc, call)?;
    Ok(answers(alloc, &mut log, call))
}

/// Whether so it is for each of the first nine calls. The ninth is the first of the second append.
fn nine_are_answered(alloc: Global) -> Result<bool, LogFault> {
    for call in 1..10 {
        if !is_answered(alloc, call)? {
            return Ok(false);
        }
    }
    Ok(true)
}

#[test]
fn a_failed_call_and_a_crash_leave_before_or_after(rt: HostRuntime) -> Result<(), Fail> {
    assert!(rt; all_leave(rt.alloc())?);
    assert!(rt; nine_are_answered(rt.alloc())?);
    Ok(())
}

/// Whether the worked file says what it must, cut to each length in turn.
fn cuts_are_told(alloc: Global) -> Result<bool, LogFault> {
    for len in 0..23usize {
        if bytes_say(alloc, &TWO[..len.min(22)])? != CUTS[len] {
            return Ok(false);
        }
    }
    Ok(true)
}

/// The worked file with one bit changed.
fn changed_at(place: usize, bit: u8) -> [u8; 22] {
    let mut bytes = TWO;
    bytes[place.min(21)] ^= 1 << bit.min(7);
    bytes
}

/// What the worked file says where a bit is changed at a place: the lowest three, and the others.
fn wants_at(place: usize) -> [u64; 4] {
    match place {
        0..=7 => [100; 4],
        8 => [0; 4],
        9..=11 => [208; 4],
        12 => [1, 208, 219, 208],
        13..=14 => [2; 4],
        15 => [1; 4],
        16..=19 => [215; 4],
        20 => [2; 4],
        _ => [221, 2, 2, 2],
    }
}

/// Whether the worked file says what it must with each bit of a place changed.
fn bits_are_told(alloc: Global, place: usize) -> Result<bool, LogFault> {
    let wants = wants_at(place);
    for bit in 0..8u8 {
        if bytes_say(alloc, &changed_at(place, bit))? != wants[usize::from(bit.min(3))] {
            return Ok(false);
        }
    }
    Ok(true)
}

/// Whether the worked file says what it must with each bit changed.
fn changes_are_told(alloc: Global) -> Result<bool, LogFault> {
    for place in 0..22usize {
        if !bits_are_told(alloc, place)? {
            return Ok(false);
        }
    }
    Ok(true)
}

#[test]
fn a_file_that_was_cut_or_changed_is_told(rt: HostRuntime) -> Result<(), Fail> {
    assert_eq!(rt; bytes_say(rt.alloc(), &[0; 10])?, BAD_HEAD);
    assert!(rt; cuts_are_told(rt.alloc())?);
    assert!(rt; changes_are_told(rt.alloc())?);
    Ok(())
}

/// Whether a log starts over the front of the worked file, where this call of the start fails.
fn starts(alloc: Global, len: usize, call: u64) -> Result<bool, LogFault> {
    let fails = Vec::from_slice(alloc, &[call.saturating_add(2)])?;
    let mut log = GateLog::over(file_with(alloc, &TWO[..len.min(22)], fails)?);
    Ok(log.start().is_ok())
}

/// Whether a start over the front of the worked file makes so many calls.
fn makes_calls(alloc: Global, len: usize, calls: u64) -> Result<bool, LogFault> {
    for call in 1..10 {
        if starts(alloc, len, call)? != (call > calls) {
            return Ok(false);
        }
    }
    Ok(true)
}

/// Calls the laws, which have no other caller.
fn call_laws() {
    nothing_counts_behind_a_closed_gate();
    the_gate_alone_adds_a_body();
}

#[test]
fn a_start_makes_few_calls(rt: HostRuntime) -> Result<(), Fail> {
    call_laws();
    // It settles, asks for the length, and reads the mark and the three gates of two records. Over a file
    // that ends with its chain it reads two gates, writes one and settles it.
    assert!(rt; makes_calls(rt.alloc(), 22, 6)?);
    assert!(rt; makes_calls(rt.alloc(), 21, 7)?);
    Ok(())
}

/// A log over the front of the worked file.
fn over_front(alloc: Global, len: usize) -> Result<GateLog<MemFile>, LogFault> {
    let front = &TWO[..len.min(22)];
    Ok(GateLog::over(file_with(alloc, front, Vec::new(alloc))?))
}

/// The place and the length of the body that a start reads next, or zeros where the chain ends.
fn step(
    alloc: Global,
    log: &mut GateLog<MemFile>,
    cursor: &mut Cursor,
) -> Result<(u64, usize), LogFault> {
    match log.next(alloc, cursor)? {
        Some((place, body)) => Ok((place, body.len())),
        None => Ok((0, 0)),
    }
}

/// Whether a start reads both bodies of the worked file step by step, and then the end of the chain.
fn reads_both(alloc: Global, log: &mut GateLog<MemFile>) -> Result<bool, LogFault> {
    let mut cursor = log.begin()?;
    Ok(
        step(alloc, log, &mut cursor)? == (8, 2)
            && step(alloc, log, &mut cursor)? == (15, 1)
            && step(alloc, log, &mut cursor)? == (0, 0),
    )
}

/// Whether a start over the front of the worked file reads so.
fn goes_on(alloc: Global, len: usize) -> Result<bool, LogFault> {
    let mut log = over_front(alloc, len)?;
    reads_both(alloc, &mut log)
}

/// Whether a log is shut by the begin of a start, and ends as before once that is left.
fn is_left(log: &mut GateLog<MemFile>) -> Result<bool, LogFault> {
    let cursor = log.begin()?;
    let begun = log.end();
    log.leave(&cursor);
    Ok(begun.is_none() && log.end() == Some(21))
}

/// Whether a log ends behind its bodies once a start is finished.
fn is_finished(log: &mut GateLog<MemFile>) -> Result<bool, LogFault> {
    let cursor = log.begin()?;
    log.finish(&cursor)?;
    Ok(log.end() == Some(21))
}

/// Whether a log that is started ends so, as a start is left and then finished.
fn ends(log: &mut GateLog<MemFile>) -> Result<bool, LogFault> {
    log.start()?;
    Ok(is_left(log)? && is_finished(log)?)
}

/// Whether a log over the worked file ends so.
fn both_end(alloc: Global) -> Result<bool, LogFault> {
    let mut log = over_front(alloc, 22)?;
    ends(&mut log)
}

#[test]
fn a_start_goes_from_body_to_body(rt: HostRuntime) -> Result<(), Fail> {
    assert!(rt; goes_on(rt.alloc(), 22)?);
    assert!(rt; goes_on(rt.alloc(), 21)?);
    assert!(rt; both_end(rt.alloc())?);
    Ok(())
}
