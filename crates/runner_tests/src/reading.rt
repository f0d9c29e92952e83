//! Commands, against examples.
//!
//! A helper gives the first line of its table that isn't read so.

use node_runner::{Body, Command, CommandFault, read_command};
use std::alloc::{AllocError, Global};
use std::test::Fail;

/// Whether a line is passed over.
fn is_passed_over(alloc: Global, line: &[u8], inside: bool) -> bool {
    match read_command(alloc, line, inside) {
        Ok(None) => true,
        _ => false,
    }
}

/// Whether a line is bad.
fn is_bad(alloc: Global, line: &[u8], inside: bool) -> bool {
    match read_command(alloc, line, inside) {
        Err(CommandFault::Bad) => true,
        _ => false,
    }
}

/// Whether a line asks for so many disks.
fn asks_for_disks(alloc: Global, line: &[u8], want: u32) -> bool {
    match read_command(alloc, line, false) {
        Ok(Some(Command::Disks { count })) => count == want,
        _ => false,
    }
}

/// Whether a line asks for a volume of the mode with this name.
fn asks_for_volume(alloc: Global, line: &[u8], want: &str) -> bool {
    match read_command(alloc, line, false) {
        Ok(Some(Command::Volume { mode })) => mode.name() == want,
        _ => false,
    }
}

/// Whether a line gets the object with this name.
fn gets(alloc: Global, line: &[u8], inside: bool, want: &[u8]) -> bool {
    match read_command(alloc, line, inside) {
        Ok(Some(Command::Get { name })) => name.as_slice() == want,
        _ => false,
    }
}

/// Whether a body is these bytes, written out.
fn is_plain(body: &Body, want: &[u8]) -> bool {
    match body {
        Body::Plain(bytes) => bytes.as_slice() == want,
        Body::Fill { .. } => false,
    }
}

/// Whether a line puts these bytes under this name.
fn puts(alloc: Global, line: &[u8], inside: bool, want: (&[u8], &[u8])) -> bool {
    match read_command(alloc, line, inside) {
        Ok(Some(Command::Put { name, body })) => {
            name.as_slice() == want.0 && is_plain(&body, want.1)
        }
        _ => false,
    }
}

/// Whether a body has this seed and so many bytes.
fn is_fill(body: &Body, want: (u64, u64)) -> bool {
    match body {
        Body::Plain(_) => false,
        Body::Fill { seed, len } => *seed == want.0 && *len == want.1,
    }
}

/// Whether a line puts so many fill bytes of this seed under the name `a`.
fn fills(alloc: Global, line: &[u8], want: (u64, u64)) -> bool {
    match read_command(alloc, line, false) {
        Ok(Some(Command::Put { name, body })) => {
            name.as_slice() == b"a".as_slice() && is_fill(&body, want)
        }
        _ => false,
    }
}

/// Lines that the language doesn't have.
fn bad_lines() -> [&'static [u8]; 24] {
    [
        b"disks 000000000000000000009",
        b"disks 4294967296",
        b"disks",
        b"disks 9 9",
        b"disks +9",
        b"disks 9 # nine",
        b"Disks 9",
        b"diskss 9",
        b"hop",
        b"disks 9\r",
        b"volume ec6p3",
        b"volume EC6P\xff",
        b"volume",
        b"put a abc",
        b"put a 0g",
        b"put a 00 00",
        b"put a fill 18446744073709551616 1",
        b"put a fill 1 99999999999999999999",
        b"put a fill 1",
        b"put a fill",
        b"put a fill 1 2 3",
        b"put",
        b"put a/b",
        b"get a b",
    ]
}

/// The first of them that isn't bad.
fn found_good(alloc: Global) -> Option<&'static [u8]> {
    for line in bad_lines() {
        if !is_bad(alloc, line, false) {
            return Some(line);
        }
    }
    None
}

/// The first line without a command that isn't passed over.
fn found_full(alloc: Global) -> Option<&'static str> {
    for line in ["", " \t ", "# put a", "\t#put"] {
        if !is_passed_over(alloc, line.as_bytes(), false) {
            return Some(line);
        }
    }
    None
}

/// The first line that asks for other disks.
fn found_other_disks(alloc: Global) -> Option<&'static str> {
    for (line, count) in [
        ("disks 9", 9),
        ("  disks\t 9 ", 9),
        ("disks 4294967295", 4_294_967_295),
        ("disks 00000000000000000009", 9),
    ] {
        if !asks_for_disks(alloc, line.as_bytes(), count) {
            return Some(line);
        }
    }
    None
}

/// The first line that asks for another volume.
fn found_other_volume(alloc: Global) -> Option<&'static str> {
    for (line, mode) in [("volume EC6P3", "EC6P3"), ("volume EC15P12", "EC15P12")] {
        if !asks_for_volume(alloc, line.as_bytes(), mode) {
            return Some(line);
        }
    }
    None
}

/// Lines that put, and the bytes that they put under the name `a`.
fn plain_puts() -> [(&'static [u8], &'static [u8]); 3] {
    [
        (b"put a", b""),
        (b"put a 68656c6c6f", b"hello"),
        (b"put a AbCd", b"\xab\xcd"),
    ]
}

/// The first of them that puts others.
fn found_other_put(alloc: Global) -> Option<&'static [u8]> {
    for (line, bytes) in plain_puts() {
        if !puts(alloc, line, false, (b"a", bytes)) {
            return Some(line);
        }
    }
    None
}

/// Whether the least and the greatest numbers of a fill are read.
fn fills_are_read(alloc: Global) -> bool {
    let greatest = b"put a fill 18446744073709551615 18446744073709551615";
    fills(alloc, b"put a fill 0 1", (0, 1)) && fills(alloc, greatest, (u64::MAX, u64::MAX))
}

#[test]
fn lines_spell_commands(rt: HostRuntime) {
    assert_eq!(rt; found_full(rt.alloc()), None);
    assert_eq!(rt; found_other_disks(rt.alloc()), None);
    assert_eq!(rt; found_other_volume(rt.alloc()), None);
    assert_eq!(rt; found_other_put(rt.alloc()), None);
    assert!(rt; fills_are_read(rt.alloc()));
    assert!(rt; gets(rt.alloc(), b"get A.z_9-", false, b"A.z_9-"));
    assert_eq!(rt; found_good(rt.alloc()), None);
}

/// The first line that isn't bad inside a block.
fn found_good_inside(alloc: Global) -> Option<&'static str> {
    for line in ["disks 9", "volume EC6P3", "get"] {
        if !is_bad(alloc, line.as_bytes(), true) {
            return Some(line);
        }
    }
    None
}

/// Whether puts, gets and lines without a command are read inside a block.
fn are_read_inside(alloc: Global) -> bool {
    puts(alloc, b"put a", true, (b"a", b""))
        && gets(alloc, b"get a", true, b"a")
        && is_passed_over(alloc, b"# disks 9", true)
        && is_passed_over(alloc, b"", true)
}

#[test]
fn not_all_commands_stand_inside_a_block(rt: HostRuntime) {
    assert_eq!(rt; found_good_inside(rt.alloc()), None);
    assert!(rt; are_read_inside(rt.alloc()));
}

/// The line that puts nothing under this name.
fn put_line(alloc: Global, name: &[u8]) -> Result<Vec<u8>, AllocError> {
    let mut line = b"put ".to_vec(alloc)?;
    line.extend_from_slice(name)?;
    Ok(line)
}

/// Whether a name of 64 bytes is read in a put, and one of 65 is bad.
fn has_64_at_most(alloc: Global) -> Result<bool, AllocError> {
    let name = vec![in alloc; b'x'; 64]?;
    let line = put_line(alloc, &name)?;
    let longer = put_line(alloc, &[b'x'; 65])?;
    Ok(puts(alloc, &line, false, (&name, b"")) && is_bad(alloc, &longer, false))
}

#[test]
fn names_have_64_bytes_at_most(rt: HostRuntime) -> Result<(), Fail> {
    assert!(rt; has_64_at_most(rt.alloc())?);
    Ok(())
}
