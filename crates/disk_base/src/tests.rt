//! Each public call once with ample memory, failing calls by number, and what a crash leaves.
//!
//! A helper answers a value in place of an error, so that no file or farm lives across an early return. Where
//! memory runs out, that value is none that a test wants.

ghost use Rattle.std.specs.Prelude.{◌≡◌, true};

use super::switch_order::switch_over;
use super::*;
use std::alloc::Global;
use std::test::Fail;

// The numbers of failing calls.
fn list(alloc: Global, fails: &[u64]) -> Vec<u64> {
    match Vec::from_slice(alloc, fails) {
        Ok(fails) => fails,
        Err(_) => Vec::new(alloc),
    }
}

fn pull(source: &mut MemSource, out: &mut [u8; 4]) -> usize {
    source.pull(out).unwrap_or(99)
}

// What four pulls answer, and what they leave in the same four bytes.
fn pulls(source: &mut MemSource) -> ([usize; 4], [u8; 4]) {
    let mut out = [0; 4];
    let counts = [
        pull(source, &mut out),
        pull(source, &mut out),
        pull(source, &mut out),
        pull(source, &mut out),
    ];
    (counts, out)
}

fn push(sink: &mut MemSink, bytes: &[u8]) -> usize {
    if bytes.is_empty() {
        return 0;
    }
    sink.push(bytes).unwrap_or(99)
}

// What four pushes answer, and which of two finishes behind them fail.
fn pushes(sink: &mut MemSink) -> ([usize; 4], [bool; 2]) {
    let counts = [
        push(sink, b"ab"),
        push(sink, b"c"),
        push(sink, b"cd"),
        push(sink, b"c"),
    ];
    (counts, [sink.finish().is_err(), sink.finish().is_err()])
}

// Whether a sink of three bytes answers so, and holds what it took.
fn is_filled(alloc: Global) -> bool {
    match MemSink::new(alloc, 3, list(alloc, &[2, 6])) {
        Ok(mut sink) => {
            pushes(&mut sink) == ([2, 99, 99, 1], [false, true])
                && sink.as_slice() == b"abc".as_slice()
        }
        Err(_) => false,
    }
}

// Whether a write fails.
fn write(file: &mut MemFile, at: u8, bytes: &[u8; 3]) -> bool {
    match file.grow(at as u64 + 3) {
        Ok(()) => file.write_at(at as u64, bytes).is_err(),
        Err(_) => true,
    }
}

// Whether a sync fails.
fn sync(file: &mut MemFile) -> bool {
    match file.grow(0) {
        Ok(()) => file.sync().is_err(),
        Err(_) => true,
    }
}

// Which of four calls fail, and what is read at place 1 then.
fn calls(file: &mut MemFile) -> ([bool; 4], [u8; 2]) {
    let mut out = [0; 2];
    let failed = [
        write(file, 0, b"abc"),
        sync(file),
        file.len().is_err(),
        file.read_at(1, &mut out).is_err(),
    ];
    (failed, out)
}

// The failing call, which of four calls fail, and what is read.
fn failing_calls() -> [(u64, [bool; 4], [u8; 2]); 5] {
    [
        (1, [true, false, false, false], *b"bc"),
        (2, [false, true, false, false], *b"bc"),
        (3, [false, false, true, false], *b"bc"),
        (4, [false, false, false, true], [0, 0]),
        (5, [false, false, false, false], *b"bc"),
    ]
}

// Whether a crash leaves this of a write of `abc`, a sync, a write of `XYZ` at 1, and a sync.
fn leaves(alloc: Global, fails: &[u64], choice: &[u8], left: &[u8; 4]) -> bool {
    let mut file = MemFile::new(alloc, list(alloc, fails));
    let _ = write(&mut file, 0, b"abc");
    let _ = sync(&mut file);
    let _ = write(&mut file, 1, b"XYZ");
    let _ = sync(&mut file);
    file.crash(choice).as_slice() == left.as_slice()
}

// The same for one failing call.
fn leaves_at(alloc: Global, failing: u64, choice: [u8; 3], left: [u8; 4]) -> bool {
    leaves(alloc, &[failing], &choice, &left)
}

// The failing call, the bytes of the choice, and what the crash leaves.
fn crashes() -> [(u64, [u8; 3], [u8; 4]); 5] {
    [
        (9, [1, 7, 0], *b"aXYZ"),
        (4, [1, 7, 0], [b'a', 1, 7, 0]),
        (4, [0, 1, 7], [b'a', 0, 1, 7]),
        (3, [1, 7, 0], *b"aXYZ"),
        (2, [1, 7, 0], *b"aXYZ"),
    ]
}

// What a make answers: 0 for a file whose first call works, 1 for one whose first call fails, 2 where the
// name exists, 3 where the call fails, 4 for want of memory. The file is handed back.
fn make(shelf: &mut MemShelf, alloc: Global, name: u64) -> u8 {
    match shelf.make(alloc, name) {
        Ok(mut file) => {
            let answer = file.len().is_err() as u8;
            shelf.hold(name, file);
            answer
        }
        Err(ShelfFault::Exists) => 2,
        Err(ShelfFault::Failed) => 3,
        Err(_) => 4,
    }
}

// Whether makes of these names answer so, one after another.
fn makes(shelf: &mut MemShelf, alloc: Global, rows: &[(u64, u8)]) -> bool {
    for (name, answer) in rows {
        if make(shelf, alloc, *name) != *answer {
            return false;
        }
    }
    true
}

// 1 where the root isn't empty, 2 where the call fails, 3 for want of memory.
fn code(fault: FarmFault) -> u8 {
    match fault {
        FarmFault::NotEmpty => 1,
        FarmFault::Failed => 2,
        FarmFault::Memory => 3,
    }
}

// 4 where makes on the shelf of this disk and volume answer so, and 0 where not. The shelf is handed back.
fn makes_in(farm: &mut MemFarm, alloc: Global, place: (u32, u32), rows: &[(u64, u8)]) -> u8 {
    if farm.is_out(place.0, place.1) {
        return 9;
    }
    match farm.shelf(place.0, place.1) {
        Ok(mut shelf) => {
            let are_so = makes(&mut shelf, alloc, rows);
            farm.hold(place.0, place.1, shelf);
            are_so as u8 * 4
        }
        Err(fault) => code(fault),
    }
}

// 4 where the admin's file is there, and 0 where the root is empty.
fn root(farm: &mut MemFarm) -> u8 {
    match farm.root("root") {
        Ok(there) => there as u8 * 4,
        Err(fault) => code(fault),
    }
}

fn farm_answers(farm: &mut MemFarm, alloc: Global) -> [u8; 5] {
    [
        root(farm),
        makes_in(farm, alloc, (0, 1), &[(9, 3), (9, 0)]),
        makes_in(farm, alloc, (0, 1), &[(9, 3), (9, 0)]),
        makes_in(farm, alloc, (0, 1), &[(9, 2), (8, 1)]),
        root(farm),
    ]
}

// 0 for Ok, 1 where the name is absent, 2 where the call fails.
fn refusal(fault: Option<ShelfFault>) -> u8 {
    match fault {
        None => 0,
        Some(ShelfFault::Absent) => 1,
        Some(ShelfFault::Failed) => 2,
        Some(_) => 9,
    }
}

fn remove(shelf: &mut MemShelf, name: u64) -> u8 {
    if shelf.is_out(name) {
        return 9;
    }
    refusal(shelf.remove(name).err())
}

// What an open answers. The file is handed back.
fn reopen(shelf: &mut MemShelf, alloc: Global, name: u64) -> u8 {
    if shelf.is_out(name) {
        return 9;
    }
    match shelf.open(alloc, name) {
        Ok(file) => {
            shelf.hold(name, file);
            0
        }
        Err(fault) => refusal(Some(fault)),
    }
}

// Whether two makes answer Ok; what two opens answer, and four removes between them; and the names that are left.
fn come_and_go(shelf: &mut MemShelf, alloc: Global) -> (bool, [u8; 6], [u64; 2]) {
    let made = makes(shelf, alloc, &[(9, 0), (4, 0)]);
    let answers = [
        reopen(shelf, alloc, 7),
        remove(shelf, 7),
        remove(shelf, 9),
        remove(shelf, 9),
        remove(shelf, 9),
        reopen(shelf, alloc, 4),
    ];
    (made, answers, names(shelf, alloc))
}

// The first two names, and 99 where there are none.
fn first_two(names: &[u64]) -> [u64; 2] {
    match names {
        [] => [99, 99],
        [name] => [*name, 99],
        [name, next, ..] => [*name, *next],
    }
}

fn names(shelf: &mut MemShelf, alloc: Global) -> [u64; 2] {
    match shelf.names(alloc) {
        Ok(names) => first_two(&names),
        Err(_) => [0; 2],
    }
}

// The first four bytes of a file, and 0 past its end. The file stays out.
fn bytes(shelf: &mut MemShelf, alloc: Global, name: u64) -> [u8; 4] {
    let mut out = [0; 4];
    if shelf.is_out(name) {
        return out;
    }
    if let Ok(mut file) = shelf.open(alloc, name) {
        let _ = file.read_at(0, &mut out);
    }
    out
}

// Whether a mark was set beside a whole file.
fn switched<H: Shelf>(shelf: &mut H, alloc: Global) -> bool
    requires { (H.seen shelf.old).is_told ≡ true }
{
    match shelf.make(alloc, 2) {
        Ok(mut mark) => switch_over(shelf, alloc, 1, b"abc", 2, &mut mark),
        Err(_) => false,
    }
}

fn mark_is_set(shelf: &mut MemShelf, alloc: Global) -> (bool, [u64; 2], [u8; 4]) {
    let done = switched(shelf, alloc);
    (done, names(shelf, alloc), bytes(shelf, alloc, 1))
}

// Makes a file of the bytes `abc`. If they are settled, `XYZ` is then written from place 1 on.
fn make_file(shelf: &mut MemShelf, alloc: Global, name: u64, settled: bool) {
    if let Ok(mut file) = shelf.make(alloc, name) {
        let _ = write(&mut file, 0, b"abc");
        if settled {
            let _ = sync(&mut file);
            let _ = write(&mut file, 1, b"XYZ");
        }
        shelf.hold(name, file);
    }
}

// Makes the files 5 and 3 on a shelf, each with three bytes that aren't settled.
fn make_files(farm: &mut MemFarm, alloc: Global) {
    if farm.is_out(1, 7) {
        return;
    }
    if let Ok(mut shelf) = farm.shelf(1, 7) {
        make_file(&mut shelf, alloc, 5, true);
        make_file(&mut shelf, alloc, 3, false);
        farm.hold(1, 7, shelf);
    }
}

// The first two names of a shelf, and the bytes of their files.
type Found = ([u64; 2], [u8; 4], [u8; 4]);

fn found_on(shelf: &mut MemShelf, alloc: Global) -> Found {
    let names = names(shelf, alloc);
    let first = bytes(shelf, alloc, names[0]);
    let second = bytes(shelf, alloc, names[1]);
    (names, first, second)
}

fn found(farm: &mut MemFarm, alloc: Global) -> Found {
    if farm.is_out(1, 7) {
        return ([0; 2], [0; 4], [0; 4]);
    }
    match farm.shelf(1, 7) {
        Ok(mut shelf) => found_on(&mut shelf, alloc),
        Err(_) => ([0; 2], [0; 4], [0; 4]),
    }
}

// What is found after a crash with this choice.
fn found_after(alloc: Global, choice: &[u8; 6]) -> Found {
    let mut farm = MemFarm::new(alloc, Vec::new(alloc));
    make_files(&mut farm, alloc);
    found(&mut farm.crash(choice), alloc)
}

// What is found after one bit of file 5 is flipped.
fn found_flipped(alloc: Global) -> Found {
    let mut farm = MemFarm::new(alloc, Vec::new(alloc));
    make_files(&mut farm, alloc);
    farm.flip(1, 7, 5, 9);
    found(&mut farm, alloc)
}

// Whether a crash that leaves these bits leaves them where nothing was settled, and all else as it was.
fn opens_again(alloc: Global, bits: u8) -> bool {
    let [a, b, c] = [bits & 1, bits >> 1 & 1, bits >> 2 & 1];
    let [d, e, f] = [bits >> 3 & 1, bits >> 4 & 1, bits >> 5 & 1];
    found_after(alloc, &[a, b, c, d, e, f]) == ([3, 5], [a, b, c, 0], [b'a', d, e, f])
}

// What a make answers for a file of this name on the shelf of disk 0 and volume 0, and then the root.
fn root_with(alloc: Global, name: u64) -> [u8; 2] {
    let mut farm = MemFarm::new(alloc, Vec::new(alloc));
    [
        makes_in(&mut farm, alloc, (0, 0), &[(name, 0)]),
        root(&mut farm),
    ]
}

#[test]
fn streams_fail_at_their_calls(rt: HostRuntime) -> Result<(), Fail> {
    let bytes = b"abcdef".to_vec(rt.alloc())?;
    let found = pulls(&mut MemSource::new(rt.alloc(), bytes, list(rt.alloc(), &[2])));
    assert!(rt; found == ([4, 99, 2, 0], *b"efcd"));
    Ok(())
}

#[test]
fn sinks_fail_at_their_calls_and_past_their_room(rt: HostRuntime) -> Result<(), Fail> {
    assert!(rt; is_filled(rt.alloc()));
    Ok(())
}

#[test]
fn files_fail_at_their_calls(rt: HostRuntime) -> Result<(), Fail> {
    for (failing, failed, read) in failing_calls() {
        let found = calls(&mut MemFile::new(rt.alloc(), list(rt.alloc(), &[failing])));
        assert!(rt; found == (failed, read), "call {failing}");
    }
    let found = calls(&mut MemFile::lying(rt.alloc(), list(rt.alloc(), &[2])));
    assert!(rt; found == ([false; 4], [b'b', b'b']));
    Ok(())
}

#[test]
fn a_crash_leaves_what_was_settled(rt: HostRuntime) -> Result<(), Fail> {
    for (failing, choice, left) in crashes() {
        assert!(rt;
            leaves_at(rt.alloc(), failing, choice, left),
            "call {failing}"
        );
    }
    assert!(rt; leaves(rt.alloc(), &[2, 4], b"pq", b"pq\0\0"));
    Ok(())
}

#[test]
fn shelves_number_their_calls(rt: HostRuntime) -> Result<(), Fail> {
    let fails = list(rt.alloc(), &[3, 0x1_0000_0001, 0x3_0000_0001]);
    let rows = [(5, 1), (5, 2), (6, 3), (6, 0), (5, 2), (7, 1), (8, 0)];
    let are_so = makes(&mut MemShelf::new(rt.alloc(), fails), rt.alloc(), &rows);
    assert!(rt; are_so);
    Ok(())
}

#[test]
fn farms_number_their_calls(rt: HostRuntime) -> Result<(), Fail> {
    let fails = list(rt.alloc(), &[2, 0x1_0000_0000_0001, 0x2_0001_0000_0001]);
    let answers = farm_answers(&mut MemFarm::new(rt.alloc(), fails), rt.alloc());
    assert!(rt; answers == [0, 2, 4, 4, 1]);
    Ok(())
}

#[test]
fn names_come_and_go(rt: HostRuntime) -> Result<(), Fail> {
    let fails = list(rt.alloc(), &[5]);
    let answers = come_and_go(&mut MemShelf::new(rt.alloc(), fails), rt.alloc());
    assert!(rt; answers == (true, [1, 1, 2, 0, 1, 0], [4, 99]));
    Ok(())
}

#[test]
fn a_mark_is_set_beside_a_whole_file(rt: HostRuntime) -> Result<(), Fail> {
    let alloc = rt.alloc();
    let found = mark_is_set(&mut MemShelf::new(alloc, Vec::new(alloc)), alloc);
    assert!(rt; found == (true, [1, 2], *b"abc\0"));
    Ok(())
}

#[test]
fn a_farm_opens_again_after_a_crash(rt: HostRuntime) -> Result<(), Fail> {
    for bits in 0u8..64 {
        assert!(rt; opens_again(rt.alloc(), bits), "choice {bits}");
    }
    assert!(rt; found_flipped(rt.alloc()).2 == *b"aZYZ");
    Ok(())
}

#[test]
fn a_root_is_empty_kept_or_foreign(rt: HostRuntime) -> Result<(), Fail> {
    let alloc = rt.alloc();
    let empty = root(&mut MemFarm::new(alloc, Vec::new(alloc)));
    let [kept, foreign] = [root_with(alloc, 1), root_with(alloc, 8)];
    assert!(rt; (empty, kept, foreign) == (0, [4, 4], [4, 1]));
    Ok(())
}
