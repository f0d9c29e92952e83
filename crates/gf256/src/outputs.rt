//! Sums of the products of factors and sources, one output for each row of factors.

ghost use Rattle.std.specs.Prelude.{◌≡◌, ℕ, ◌≤◌, All, IfOk, length, map};
ghost use Rattle.gf256.specs.Rows.{contents};
ghost use Rattle.gf256.specs.Sums.{sums_of};

use crate::kernel::{fill_four, fill_one, fill_three};
use crate::row::FactorRow;
use std::alloc::{AllocError, Global};

/// How many bytes of an output are written before the next, so that they stay in the nearest cache.
const PIECE: usize = 4_096;

/// Three outputs.
#[derive(Drop)]
struct Three {
    p: Vec<u8>,
    q: Vec<u8>,
    r: Vec<u8>,
}

/// Four outputs.
#[derive(Drop)]
struct Four {
    p: Vec<u8>,
    q: Vec<u8>,
    r: Vec<u8>,
    s: Vec<u8>,
}

/// One output: the sums of its row at each place below `size`.
fn one_output(
    alloc: Global,
    p: &FactorRow,
    sources: &[&[u8]],
    size: usize,
) -> Result<Vec<u8>, AllocError>
    requires row { length p.now ≡ length sources.now }
    requires reach { All (λ source. size ≤ length source.now) sources.now }
    ensures { IfOk result (λ bytes. bytes.items ≡ sums_of p.now (contents sources.now) size) }
{
    let mut bytes = Vec::with_capacity(alloc, size)?;
    while bytes.len() < size {
        let from = bytes.len();
        bytes.resize(from + PIECE.min(size - from), 0)?;
        fill_one(&mut bytes, p.halves(), sources, from);
    }
    Ok(bytes)
}

/// The same for three outputs.
fn three_outputs(
    alloc: Global,
    p: &FactorRow,
    q: &FactorRow,
    r: &FactorRow,
    sources: &[&[u8]],
    size: usize,
) -> Result<Three, AllocError>
    requires rows { (length p.now ≡ length sources.now) × (length q.now ≡ length sources.now) × (length r.now ≡ length sources.now) }
    requires reach { All (λ source. size ≤ length source.now) sources.now }
    ensures p { IfOk result (λ outputs. outputs.p.items ≡ sums_of p.now (contents sources.now) size) }
    ensures q { IfOk result (λ outputs. outputs.q.items ≡ sums_of q.now (contents sources.now) size) }
    ensures r { IfOk result (λ outputs. outputs.r.items ≡ sums_of r.now (contents sources.now) size) }
{
    let mut outputs = Three {
        p: Vec::with_capacity(alloc, size)?,
        q: Vec::with_capacity(alloc, size)?,
        r: Vec::with_capacity(alloc, size)?,
    };
    while outputs.p.len() < size {
        let from = outputs.p.len();
        let end = from + PIECE.min(size - from);
        outputs.p.resize(end, 0)?;
        outputs.q.resize(end, 0)?;
        outputs.r.resize(end, 0)?;
        fill_three(
            &mut outputs.p,
            &mut outputs.q,
            &mut outputs.r,
            p.halves(),
            q.halves(),
            r.halves(),
            sources,
            from,
        );
    }
    Ok(outputs)
}

/// The same for four outputs.
fn four_outputs(
    alloc: Global,
    p: &FactorRow,
    q: &FactorRow,
    r: &FactorRow,
    s: &FactorRow,
    sources: &[&[u8]],
    size: usize,
) -> Result<Four, AllocError>
    requires rows { (length p.now ≡ length sources.now) × (length q.now ≡ length sources.now) × (length r.now ≡ length sources.now) × (length s.now ≡ length sources.now) }
    requires reach { All (λ source. size ≤ length source.now) sources.now }
    ensures p { IfOk result (λ outputs. outputs.p.items ≡ sums_of p.now (contents sources.now) size) }
    ensures q { IfOk result (λ outputs. outputs.q.items ≡ sums_of q.now (contents sources.now) size) }
    ensures r { IfOk result (λ outputs. outputs.r.items ≡ sums_of r.now (contents sources.now) size) }
    ensures s { IfOk result (λ outputs. outputs.s.items ≡ sums_of s.now (contents sources.now) size) }
{
    let mut outputs = Four {
        p: Vec::with_capacity(alloc, size)?,
        q: Vec::with_capacity(alloc, size)?,
        r: Vec::with_capacity(alloc, size)?,
        s: Vec::with_capacity(alloc, size)?,
    };
    while outputs.p.len() < size {
        let from = outputs.p.len();
        let end = from + PIECE.min(size - from);
        outputs.p.resize(end, 0)?;
        outputs.q.resize(end, 0)?;
        outputs.r.resize(end, 0)?;
        outputs.s.resize(end, 0)?;
        fill_four(
            &mut outputs.p,
            &mut outputs.q,
            &mut outputs.r,
            &mut outputs.s,
            p.halves(),
            q.halves(),
            r.halves(),
            s.halves(),
            sources,
            from,
        );
    }
    Ok(outputs)
}

/// For each row of factors the sum of the products of its factors and the sources' bytes, at each place
/// below `size`. There is a factor for each source, and each source has `size` bytes at least.
pub fn combine(
    alloc: Global,
    rows: &[FactorRow],
    sources: &[&[u8]],
    size: usize,
) -> Result<Vec<Vec<u8>>, AllocError>
    requires rows { All (λ row. length row ≡ length sources.now) rows.now }
    requires reach { All (λ source. size ≤ length source.now) sources.now }
    ensures { IfOk result (λ outputs. map (λ output. output.items) outputs.items ≡ map (λ row. sums_of row (contents sources.now) size) rows.now) }
{
    let mut outputs = Vec::with_capacity(alloc, rows.len())?;
    let mut k = 0;
    while rows.len() - k >= 4 {
        let four = four_outputs(
            alloc,
            &rows[k],
            &rows[k + 1],
            &rows[k + 2],
            &rows[k + 3],
            sources,
            size,
        )?;
        outputs.push(four.p)?;
        outputs.push(four.q)?;
        outputs.push(four.r)?;
        outputs.push(four.s)?;
        k += 4;
    }
    if rows.len() - k == 3 {
        let three = three_outputs(alloc, &rows[k], &rows[k + 1], &rows[k + 2], sources, size)?;
        outputs.push(three.p)?;
        outputs.push(three.q)?;
        outputs.push(three.r)?;
        return Ok(outputs);
    }
    for j in k..rows.len() {
        outputs.push(one_output(alloc, &rows[j], sources, size)?)?;
    }
    Ok(outputs)
}
