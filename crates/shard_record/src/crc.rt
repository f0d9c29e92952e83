//! CRC-32 by tables, sixteen bytes at a time, of what is left once long byte strings are folded.

ghost use Rattle.std.specs.Prelude.{◌≡◌, ℕ, ◌+◌, ◌*◌, ◌/◌, ◌%◌, ◌^◌, ◌<◌, ◌≤◌, bit_xor, length, slice_index, take};
ghost use Rattle.shard_record.specs.Crc.{shifted_by, remainder, crc_of};

use crate::folding::{PIECE, REACH, after_piece};
use crate::tables::TABLES;

/// From how many bytes on folding takes less time than the tables.
const FOLDED_FROM: usize = 1_536;

/// The remainder of the low byte of `word` with `zeros` zero bytes after it.
#[inline(always)]
fn entry(zeros: usize, word: u32) -> u32
    requires { zeros < 16 }
    ensures { result ≡ shifted_by (8 * zeros + 8) (word % 256) }
{
    TABLES[zeros][(word % 256) as usize]
}

/// The remainder of the four bytes of `word`, the lowest first, with `zeros` zero bytes after them.
#[inline(always)]
fn entries(zeros: usize, word: u32) -> u32
    requires { zeros ≤ 12 }
    ensures { result ≡ shifted_by (8 * zeros + 32) word }
{
    let first = entry(zeros + 3, word) ^ entry(zeros + 2, word >> 8);
    let last = entry(zeros + 1, word >> 16) ^ entry(zeros, word >> 24);
    first ^ last
}

/// The four bytes from `at` on as a number, the lowest first.
#[inline(always)]
fn word_at(bytes: &[u8], at: usize) -> u32
    requires { at + 4 ≤ length bytes.now }
    ensures { result ≡ slice_index bytes.now at + slice_index bytes.now (at + 1) * 2 ^ 8
        + slice_index bytes.now (at + 2) * 2 ^ 16 + slice_index bytes.now (at + 3) * 2 ^ 24 }
{
    u32::from_le_bytes([bytes[at], bytes[at + 1], bytes[at + 2], bytes[at + 3]])
}

/// The remainder after the sixteen bytes from `at` on. Only the look-ups of the first four wait for
/// `rest`, so those of the others are joined first.
#[inline(always)]
fn after_block(rest: u32, bytes: &[u8], at: usize) -> u32
    requires { at + 16 ≤ length bytes.now }
    ensures { (before : ℕ) → rest ≡ remainder before (take at bytes.now) → result ≡ remainder before (take (at + 16) bytes.now) }
{
    let third = entries(4, word_at(bytes, at + 8)) ^ entries(0, word_at(bytes, at + 12));
    let second = entries(8, word_at(bytes, at + 4)) ^ third;
    entries(12, rest ^ word_at(bytes, at)) ^ second
}

/// The remainder after one more byte.
#[inline(always)]
fn after_byte(rest: u32, byte: u8) -> u32
    ensures { result ≡ shifted_by 8 (bit_xor rest byte) }
{
    entry(0, rest ^ u32::from(byte)) ^ (rest >> 8)
}

/// The remainder after this many blocks of sixteen bytes.
pub(crate) fn after_blocks(before: u32, bytes: &[u8], blocks: usize) -> u32
    requires { 16 * blocks ≤ length bytes.now }
    ensures { result ≡ remainder before (take (16 * blocks) bytes.now) }
{
    let mut rest = before;
    for block in 0..blocks {
        rest = after_block(rest, bytes, 16 * block);
    }
    rest
}

/// The remainder after some more bytes.
fn after_bytes(before: u32, bytes: &[u8]) -> u32
    ensures { result ≡ remainder before bytes.now }
{
    let blocks = bytes.len() / 16;
    let mut rest = after_blocks(before, bytes, blocks);
    for at in 16 * blocks..bytes.len() {
        rest = after_byte(rest, bytes[at]);
    }
    rest
}

/// The CRC-32 of a byte string by the polynomial of IEEE 802.3, as zlib, gzip and PNG have it.
pub fn crc32(bytes: &[u8]) -> u32
    ensures { result ≡ crc_of bytes.now }
{
    let mut rest = 0xffff_ffff;
    let mut left = bytes;
    while left.len() >= FOLDED_FROM {
        let blocks = PIECE.min(left.len()) / 16 - REACH / 16;
        let (piece, behind) = left.split_at(16 * blocks + REACH);
        rest = after_piece(rest, piece, blocks);
        left = behind;
    }
    after_bytes(rest, left) ^ 0xffff_ffff
}
