//! Long byte strings, folded sixteen bytes at a time into short ones that leave the same remainder.
//!
//! Squaring a sum over two values squares each of its terms. So as the polynomial's powers add up to nothing,
//! x^32 + x^26 + .. + 1, so do their 128th powers: a block of sixteen bytes leaves what it would leave 6 blocks,
//! 9 blocks and so on up to 32 blocks further on. A window keeps for each block what was folded to it, and the
//! blocks behind it are added up from there.

ghost use Rattle.std.specs.Prelude.{◌≡◌, ℕ, ◌+◌, ◌*◌, ◌^◌, ◌<◌, ◌≤◌, List, ◌∷◌, bit_xor, length, slice_index};
ghost use Rattle.shard_record.specs.Crc.{remainder};
ghost use Rattle.shard_record.specs.Folding.{lower_exponents, sum_behind, AreSumsBehind, IsFolded, IsFoldedEnd};

use crate::crc::after_blocks;
use std::simd::prelude::*;

/// How many bytes are folded at a time.
pub(crate) const PIECE: usize = 4_096;

/// How far a block is folded: 32 blocks.
pub(crate) const REACH: usize = 512;

/// The lanes with the bytes added that are so many blocks behind a place.
#[inline(always)]
fn plus_behind(sums: u8x16, window: &[u8], at: usize, exponent: usize) -> u8x16
    requires long { length sums ≡ 16 }
    requires inside { at + 16 * exponent + 16 ≤ length window.now }
    ensures long { length result ≡ 16 }
    ensures sums { (exponents : List ℕ) → AreSumsBehind exponents window.now at sums → AreSumsBehind (exponent ∷ exponents) window.now at result }
{
    u8x16::from_slice(&window[at + 16 * exponent..]) ^ sums
}

/// The sums of the blocks of a window from a place on, at the exponents of the polynomial below 32.
#[inline(always)]
fn sums_behind(window: &[u8], at: usize) -> u8x16
    requires { at + 432 ≤ length window.now }
    ensures { AreSumsBehind lower_exponents window.now at result }
{
    let sums = plus_behind(u8x16::splat(0), window, at, 26);
    let sums = plus_behind(sums, window, at, 23);
    let sums = plus_behind(sums, window, at, 22);
    let sums = plus_behind(sums, window, at, 16);
    let sums = plus_behind(sums, window, at, 12);
    let sums = plus_behind(sums, window, at, 11);
    let sums = plus_behind(sums, window, at, 10);
    let sums = plus_behind(sums, window, at, 8);
    let sums = plus_behind(sums, window, at, 7);
    let sums = plus_behind(sums, window, at, 5);
    let sums = plus_behind(sums, window, at, 4);
    let sums = plus_behind(sums, window, at, 2);
    let sums = plus_behind(sums, window, at, 1);
    plus_behind(sums, window, at, 0)
}

/// Sixteen bytes with the sums added that were folded to them.
#[inline(always)]
fn folded(bytes: &[u8], window: &[u8], at: usize) -> u8x16
    requires window { at + 432 ≤ length window.now }
    requires inside { at + 16 ≤ length bytes.now }
    ensures long { length result ≡ 16 }
    ensures each { (i : ℕ) → i < 16 → slice_index result i ≡ bit_xor (slice_index bytes.now (at + i)) (sum_behind lower_exponents window.now (at + i)) }
{
    u8x16::from_slice(&bytes[at..]) ^ sums_behind(window, at)
}

/// Folds so many blocks into the window.
fn fold(window: &mut [u8], bytes: &[u8], blocks: usize)
    requires room { 16 * blocks + 512 ≤ length window.old }
    requires inside { 16 * blocks ≤ length bytes.now }
    ensures { IsFolded bytes.now (16 * blocks) window.old window.new }
{
    for k in 0..blocks {
        let at = 16 * k;
        let block = folded(bytes, window, at);
        block.copy_to_slice(&mut window[at + REACH..]);
    }
}

/// Writes the last 512 bytes with all added that was folded to them from those before.
fn write_end(end: &mut [u8], window: &[u8], bytes: &[u8], blocks: usize)
    requires long { length end.old ≡ 512 }
    requires inside { 16 * blocks + 512 ≤ length bytes.now }
    requires room { 16 * blocks + 1024 ≤ length window.now }
    ensures folded { IsFoldedEnd bytes.now (16 * blocks) window.now end.new }
    ensures fits { (k : ℕ) → slice_index window.now k < 256 }
{
    for k in 0..REACH / 16 {
        let block = folded(bytes, window, 16 * (blocks + k));
        block.copy_to_slice(&mut end[16 * k..]);
    }
}

/// Writes a remainder in front of a window, so that it is folded as what stands before the bytes.
fn write_rest(window: &mut [u8], rest: u32)
    requires { 4 ≤ length window.old }
    ensures long { length window.new ≡ length window.old }
    ensures word { slice_index window.new 0 + slice_index window.new 1 * 2 ^ 8 + slice_index window.new 2 * 2 ^ 16 + slice_index window.new 3 * 2 ^ 24 ≡ rest }
    ensures others { (k : ℕ) → 4 ≤ k → slice_index window.new k ≡ slice_index window.old k }
{
    window[0] = (rest % 256) as u8;
    window[1] = (rest / 256 % 256) as u8;
    window[2] = (rest / 65_536 % 256) as u8;
    window[3] = (rest / 16_777_216) as u8;
}

/// The remainder after some more bytes: 32 blocks of sixteen, and so many before them.
pub(crate) fn after_piece(rest: u32, bytes: &[u8], blocks: usize) -> u32
    requires long { 16 * blocks + 512 ≡ length bytes.now }
    requires within { length bytes.now ≤ 4096 }
    ensures { result ≡ remainder rest bytes.now }
{
    let mut window = [0; PIECE + REACH];
    write_rest(&mut window, rest);
    fold(&mut window, bytes, blocks);
    let mut end = [0; REACH];
    write_end(&mut end, &window, bytes, blocks);
    after_blocks(0, &end, REACH / 16)
}
