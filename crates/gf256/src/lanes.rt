//! Products of sixteen bytes at once, by the products of half bytes.

ghost use Rattle.std.specs.Prelude.{◌≡◌, ℕ, ◌+◌, ◌/◌, ◌%◌, ◌<◌, ◌≤◌, length, slice_index};
ghost use Rattle.gf256.specs.Sums.{AreBytesAt};
ghost use Rattle.std.specs.Simd.Lanes.{Each1};
ghost use Rattle.gf256.specs.Halves.{HasHalves, AddsProducts};

use crate::high_halves::HIGH_HALVES;
use crate::low_halves::LOW_HALVES;
use std::simd::prelude::*;

/// The products of one factor with each half byte: the low ones 0 to 15, and the high ones 0, 16 to 240.
#[derive(Clone, Copy)]
pub(crate) struct Halves {
    pub(crate) low: [u8; 16],
    pub(crate) high: [u8; 16],
}

/// The products of a factor with each half byte.
pub(crate) fn halves_of(factor: u8) -> Halves
    ensures products { HasHalves factor result.low result.high }
    ensures factor { slice_index result.low 1 ≡ factor }
{
    Halves {
        low: LOW_HALVES[factor as usize],
        high: HIGH_HALVES[factor as usize],
    }
}

/// Sixteen bytes from a place on.
#[inline(always)]
pub(crate) fn block_at(source: &[u8], at: usize) -> u8x16
    requires { at + 16 ≤ length source.now }
    ensures { AreBytesAt source.now at result }
{
    u8x16::from_slice(&source[at..])
}

/// What the table has for the low half of each byte.
#[inline(always)]
fn by_low_half(table: u8x16, bytes: u8x16) -> u8x16
    requires { length bytes ≡ 16 }
    ensures long { length result ≡ 16 }
    ensures each { (i : ℕ) → i < 16 → slice_index result i ≡ slice_index table (slice_index bytes i % 16) }
{
    table.swizzle_dyn(bytes & u8x16::splat(15))
}

/// What the table has for the high half of each byte.
#[inline(always)]
fn by_high_half(table: u8x16, bytes: u8x16) -> u8x16
    requires long { length bytes ≡ 16 }
    requires fits { Each1 (λ byte. byte < 256) bytes }
    ensures long { length result ≡ 16 }
    ensures each { (i : ℕ) → i < 16 → slice_index result i ≡ slice_index table (slice_index bytes i / 16) }
{
    table.swizzle_dyn(bytes >> u8x16::splat(4))
}

/// The sums with the product of each byte and a factor added, by the factor's products with half bytes.
#[inline(always)]
pub(crate) fn plus_products(sums: u8x16, halves: &Halves, bytes: u8x16) -> u8x16
    requires sums { length sums ≡ 16 }
    requires long { length bytes ≡ 16 }
    requires fits { Each1 (λ byte. byte < 256) bytes }
    ensures long { length result ≡ 16 }
    ensures added { (factor : ℕ) → HasHalves factor halves.now.low halves.now.high → AddsProducts factor bytes sums result }
{
    let low = by_low_half(u8x16::from_array(halves.low), bytes);
    let high = by_high_half(u8x16::from_array(halves.high), bytes);
    sums ^ low ^ high
}
