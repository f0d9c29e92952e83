//! Sums of products at 32 places at once, for one, three or four outputs.
//!
//! The sums stay in registers until all sources are added, so each output is stored once.

ghost use Rattle.std.specs.Prelude.{◌≡◌, ℕ, ◌+◌, ◌-◌, ◌*◌, ◌<◌, ◌≤◌, List, All, length, replicate};
ghost use Rattle.std.specs.Simd.Lanes.{Each1, put_chunk};
ghost use Rattle.gf256.specs.Halves.{HasHalves, AreHalves, AddsProducts};
ghost use Rattle.gf256.specs.Sums.{AreBytesAt, sum_at as sum_of};
ghost use Rattle.gf256.specs.Rows.{contents, SumsAtPair, Fills};

use crate::lanes::{Halves, block_at, plus_products};
use std::simd::prelude::*;

/// Two blocks of sixteen lanes, one behind the other.
#[derive(Clone, Copy)]
struct Pair {
    first: u8x16,
    second: u8x16,
}

/// The pairs of three outputs.
#[derive(Clone, Copy)]
struct ThreePairs {
    p: Pair,
    q: Pair,
    r: Pair,
}

/// The pairs of four outputs.
#[derive(Clone, Copy)]
struct FourPairs {
    p: Pair,
    q: Pair,
    r: Pair,
    s: Pair,
}

/// Nothing summed yet.
#[inline(always)]
fn zeros() -> Pair
    ensures { (result.first ≡ replicate 16 0) × (result.second ≡ replicate 16 0) }
{
    let zero = u8x16::splat(0);
    Pair {
        first: zero,
        second: zero,
    }
}

/// 32 bytes from a place on.
#[inline(always)]
fn pair_at(source: &[u8], at: usize) -> Pair
    requires { at + 32 ≤ length source.now }
    ensures first { AreBytesAt source.now at result.first }
    ensures second { AreBytesAt source.now (at + 16) result.second }
{
    Pair {
        first: block_at(source, at),
        second: block_at(source, at + 16),
    }
}

/// The sums with the product of each byte added.
#[inline(always)]
fn plus_pair(sums: Pair, halves: &Halves, bytes: Pair) -> Pair
    requires sums { (length sums.first ≡ 16) × (length sums.second ≡ 16) }
    requires first { (length bytes.first ≡ 16) × Each1 (λ byte. byte < 256) bytes.first }
    requires second { (length bytes.second ≡ 16) × Each1 (λ byte. byte < 256) bytes.second }
    ensures long { (length result.first ≡ 16) × (length result.second ≡ 16) }
    ensures added { (factor : ℕ) → HasHalves factor halves.now.low halves.now.high →
        AddsProducts factor bytes.first sums.first result.first × AddsProducts factor bytes.second sums.second result.second }
{
    Pair {
        first: plus_products(sums.first, halves, bytes.first),
        second: plus_products(sums.second, halves, bytes.second),
    }
}

/// One output's sums at 32 places.
#[inline(always)]
fn sums_of_one(p: &[Halves], sources: &[&[u8]], at: usize) -> Pair
    requires row { length p.now ≡ length sources.now }
    requires reach { All (λ source. at + 32 ≤ length source.now) sources.now }
    ensures { SumsAtPair p.now sources.now at result.first result.second }
{
    let mut sums = zeros();
    for j in 0..sources.len() {
        let bytes = pair_at(sources[j], at);
        sums = plus_pair(sums, &p[j], bytes);
    }
    sums
}

/// The sums of three outputs at 32 places.
#[inline(always)]
fn sums_of_three(
    p: &[Halves],
    q: &[Halves],
    r: &[Halves],
    sources: &[&[u8]],
    at: usize,
) -> ThreePairs
    requires rows { (length p.now ≡ length sources.now) × (length q.now ≡ length sources.now) × (length r.now ≡ length sources.now) }
    requires reach { All (λ source. at + 32 ≤ length source.now) sources.now }
    ensures p { SumsAtPair p.now sources.now at result.p.first result.p.second }
    ensures q { SumsAtPair q.now sources.now at result.q.first result.q.second }
    ensures r { SumsAtPair r.now sources.now at result.r.first result.r.second }
{
    let mut p_sums = zeros();
    let mut q_sums = zeros();
    let mut r_sums = zeros();
    for j in 0..sources.len() {
        let bytes = pair_at(sources[j], at);
        p_sums = plus_pair(p_sums, &p[j], bytes);
        q_sums = plus_pair(q_sums, &q[j], bytes);
        r_sums = plus_pair(r_sums, &r[j], bytes);
    }
    ThreePairs {
        p: p_sums,
        q: q_sums,
        r: r_sums,
    }
}

/// The sums of four outputs at 32 places.
#[inline(always)]
fn sums_of_four(
    p: &[Halves],
    q: &[Halves],
    r: &[Halves],
    s: &[Halves],
    sources: &[&[u8]],
    at: usize,
) -> FourPairs
    requires rows { (length p.now ≡ length sources.now) × (length q.now ≡ length sources.now) × (length r.now ≡ length sources.now) × (length s.now ≡ length sources.now) }
    requires reach { All (λ source. at + 32 ≤ length source.now) sources.now }
    ensures p { SumsAtPair p.now sources.now at result.p.first result.p.second }
    ensures q { SumsAtPair q.now sources.now at result.q.first result.q.second }
    ensures r { SumsAtPair r.now sources.now at result.r.first result.r.second }
    ensures s { SumsAtPair s.now sources.now at result.s.first result.s.second }
{
    let mut p_sums = zeros();
    let mut q_sums = zeros();
    let mut r_sums = zeros();
    let mut s_sums = zeros();
    for j in 0..sources.len() {
        let bytes = pair_at(sources[j], at);
        p_sums = plus_pair(p_sums, &p[j], bytes);
        q_sums = plus_pair(q_sums, &q[j], bytes);
        r_sums = plus_pair(r_sums, &r[j], bytes);
        s_sums = plus_pair(s_sums, &s[j], bytes);
    }
    FourPairs {
        p: p_sums,
        q: q_sums,
        r: r_sums,
        s: s_sums,
    }
}

/// Writes the sums of 32 places.
#[inline(always)]
fn store(out: &mut [u8], at: usize, sums: Pair)
    requires room { at + 32 ≤ length out.old }
    requires long { (length sums.first ≡ 16) × (length sums.second ≡ 16) }
    ensures { out.new ≡ put_chunk (at + 16) (put_chunk at out.old sums.first) sums.second }
{
    sums.first.copy_to_slice(&mut out[at..]);
    sums.second.copy_to_slice(&mut out[at + 16..]);
}

/// One output's sum at a place.
fn sum_at(row: &[Halves], sources: &[&[u8]], place: usize) -> u8
    requires row { length row.now ≡ length sources.now }
    requires reach { All (λ source. place < length source.now) sources.now }
    ensures { (factors : List ℕ) → AreHalves factors row.now → result ≡ sum_of factors (contents sources.now) place }
{
    let mut sum = 0;
    for j in 0..sources.len() {
        let byte = sources[j][place];
        sum ^= row[j].low[byte as usize % 16] ^ row[j].high[byte as usize / 16];
    }
    sum
}

/// Writes the last places of an output, fewer than 32 or those that an output of 32 and more ends with.
fn finish(out: &mut [u8], row: &[Halves], sources: &[&[u8]], from: usize)
    requires from { (from ≤ length out.old) × (length out.old < from + 32) }
    requires row { length row.now ≡ length sources.now }
    requires reach { All (λ source. length out.old ≤ length source.now) sources.now }
    ensures { Fills row.now sources.now from out.old out.new }
{
    let end = out.len();
    if end >= 32 {
        let sums = sums_of_one(row, sources, end - 32);
        store(out, end - 32, sums);
    } else {
        for place in from..end {
            out[place] = sum_at(row, sources, place);
        }
    }
}

/// Writes one output from a place on.
pub(crate) fn fill_one(p: &mut [u8], p_row: &[Halves], sources: &[&[u8]], from: usize)
    requires from { from ≤ length p.old }
    requires row { length p_row.now ≡ length sources.now }
    requires reach { All (λ source. length p.old ≤ length source.now) sources.now }
    ensures { Fills p_row.now sources.now from p.old p.new }
{
    let pairs = (p.len() - from) / 32;
    for k in 0..pairs {
        let at = from + 32 * k;
        let sums = sums_of_one(p_row, sources, at);
        store(p, at, sums);
    }
    finish(p, p_row, sources, from + 32 * pairs);
}

/// Writes three outputs from a place on.
pub(crate) fn fill_three(
    p: &mut [u8],
    q: &mut [u8],
    r: &mut [u8],
    p_row: &[Halves],
    q_row: &[Halves],
    r_row: &[Halves],
    sources: &[&[u8]],
    from: usize,
)
    requires from { (from ≤ length p.old) × (length q.old ≡ length p.old) × (length r.old ≡ length p.old) }
    requires rows { (length p_row.now ≡ length sources.now) × (length q_row.now ≡ length sources.now) × (length r_row.now ≡ length sources.now) }
    requires reach { All (λ source. length p.old ≤ length source.now) sources.now }
    ensures p { Fills p_row.now sources.now from p.old p.new }
    ensures q { Fills q_row.now sources.now from q.old q.new }
    ensures r { Fills r_row.now sources.now from r.old r.new }
{
    let pairs = (p.len() - from) / 32;
    for k in 0..pairs {
        let at = from + 32 * k;
        let sums = sums_of_three(p_row, q_row, r_row, sources, at);
        store(p, at, sums.p);
        store(q, at, sums.q);
        store(r, at, sums.r);
    }
    let end = from + 32 * pairs;
    finish(p, p_row, sources, end);
    finish(q, q_row, sources, end);
    finish(r, r_row, sources, end);
}

/// Writes four outputs from a place on.
pub(crate) fn fill_four(
    p: &mut [u8],
    q: &mut [u8],
    r: &mut [u8],
    s: &mut [u8],
    p_row: &[Halves],
    q_row: &[Halves],
    r_row: &[Halves],
    s_row: &[Halves],
    sources: &[&[u8]],
    from: usize,
)
    requires from { (from ≤ length p.old) × (length q.old ≡ length p.old) × (length r.old ≡ length p.old) × (length s.old ≡ length p.old) }
    requires rows { (length p_row.now ≡ length sources.now) × (length q_row.now ≡ length sources.now) × (length r_row.now ≡ length sources.now) × (length s_row.now ≡ length sources.now) }
    requires reach { All (λ source. length p.old ≤ length source.now) sources.now }
    ensures p { Fills p_row.now sources.now from p.old p.new }
    ensures q { Fills q_row.now sources.now from q.old q.new }
    ensures r { Fills r_row.now sources.now from r.old r.new }
    ensures s { Fills s_row.now sources.now from s.old s.new }
{
    let pairs = (p.len() - from) / 32;
    for k in 0..pairs {
        let at = from + 32 * k;
        let sums = sums_of_four(p_row, q_row, r_row, s_row, sources, at);
        store(p, at, sums.p);
        store(q, at, sums.q);
        store(r, at, sums.r);
        store(s, at, sums.s);
    }
    let end = from + 32 * pairs;
    finish(p, p_row, sources, end);
    finish(q, q_row, sources, end);
    finish(r, r_row, sources, end);
    finish(s, s_row, sources, end);
}
