ghost use Rattle.std.specs.Prelude.{◌≡◌, ◌≤◌, All, IfOk, length};

use gf256::{FactorRow, combine, inverse, laws, mul, power, scale_add};
use std::alloc::{AllocError, Global};
use std::test::Fail;

/// The product by shifts alone: the whole product of 15 coefficients first, and then its remainder.
fn by_shifts(a: u8, b: u8) -> u16 {
    let mut whole = 0u16;
    for k in 0..8u16 {
        if (u16::from(a) >> k) & 1 == 1 {
            whole ^= u16::from(b) << k;
        }
    }
    for k in 0..7u16 {
        if (whole >> (14 - k)) & 1 == 1 {
            whole ^= 0x11D << (6 - k);
        }
    }
    whole
}

#[test]
fn products_are_the_field_s(rt: HostRuntime) {
    let mut sum = 0u64;
    for a in 0..=255u8 {
        for b in 0..=255u8 {
            let product = mul(a, b);
            assert_eq!(rt; u16::from(product), by_shifts(a, b), "{a} times {b}");
            sum = sum.wrapping_mul(31).wrapping_add(u64::from(product));
        }
    }
    assert_eq!(rt; sum, 5058243315251965824);
    assert_eq!(rt; mul(2, 128), 29);
}

#[test]
fn inverses_and_powers_are_the_field_s(rt: HostRuntime) {
    assert_eq!(rt; inverse(0), None);
    for a in 1..=255u8 {
        let one = inverse(a).map(|b| mul(a, b));
        assert_eq!(rt; one, Some(1), "{a}");
        assert_eq!(rt; power(a, 255), 1, "{a}");
    }
    for (a, k, want) in [
        (0u8, 0u32, 1),
        (0, 1, 0),
        (7, 0, 1),
        (2, 8, 29),
        (2, 254, 142),
        (3, 1000, 116),
        (255, 4294967295, 1),
    ] {
        assert_eq!(rt; power(a, k), want, "{a} to {k}");
    }
}

/// Whether a source is scaled by a factor and added to a row of one byte from a place on, and nothing else changes.
fn is_scaled_in(factor: u8, from: usize, length: usize, src: &[u8; 200]) -> bool
    requires place { from ≤ 2 }
    requires most { length ≤ 200 }
{
    let mut out = [85u8; 203];
    scale_add(&mut out[from..from + length], factor, &src[..length]);
    for (place, byte) in out.iter().enumerate() {
        let want = if from <= place && place < from + length {
            85 ^ by_shifts(factor, src[place - from])
        } else {
            85
        };
        if u16::from(*byte) != want {
            return false;
        }
    }
    true
}

#[test]
fn rows_of_every_length_are_scaled_and_added(rt: HostRuntime) {
    let mut src = [0u8; 200];
    for (place, byte) in src.iter_mut().enumerate() {
        *byte = (place * 37 % 256) as u8;
    }
    for length in 0..=200usize {
        for factor in 0..=255u8 {
            let from = (length + usize::from(factor)) % 3;
            assert!(rt;
                is_scaled_in(factor, from, length, &src),
                "{factor}: {length} from {from}"
            );
        }
    }
}

/// The rows of these factors.
fn rows_of(alloc: Global, factors: &[[u8; 3]]) -> Result<Vec<FactorRow>, AllocError>
    ensures { IfOk result (λ rows. All (λ row. length row ≡ 3) rows.items) }
{
    let mut rows = Vec::new(alloc);
    for k in 0..factors.len() {
        rows.push(FactorRow::make(alloc, &factors[k])?)?;
    }
    Ok(rows)
}

/// Whether an output has the sums of a row, at its ends and in its middle.
fn has_sums(output: &[u8], row: &[u8; 3], a: &[u8], b: &[u8], c: &[u8]) -> bool {
    for place in [0, output.len() / 2, output.len().max(1) - 1] {
        if place < output.len() && place < a.len() && place < b.len() && place < c.len() {
            let sum = by_shifts(row[0], a[place])
                ^ by_shifts(row[1], b[place])
                ^ by_shifts(row[2], c[place]);
            if u16::from(output[place]) != sum {
                return false;
            }
        }
    }
    true
}

/// Whether the first rows of the factors give their sums at so many places.
fn are_sums(
    alloc: Global,
    factors: &[[u8; 3]],
    bytes: &[u8; 5000],
    size: usize,
) -> Result<bool, AllocError>
    requires { size ≤ 4997 }
{
    let rows = rows_of(alloc, factors)?;
    let sources = [&bytes[..4997], &bytes[1..4998], &bytes[3..]];
    let outputs = combine(alloc, &rows, &sources, size)?;
    if outputs.len() != factors.len() {
        return Ok(false);
    }
    for k in 0..outputs.len() {
        if outputs[k].len() != size
            || !has_sums(&outputs[k], &factors[k], sources[0], sources[1], sources[2])
        {
            return Ok(false);
        }
    }
    Ok(true)
}

#[test]
fn sums_of_one_to_eight_rows(rt: HostRuntime) -> Result<(), Fail> {
    let mut bytes = [0u8; 5000];
    for (place, byte) in bytes.iter_mut().enumerate() {
        *byte = (place * 101 % 251) as u8;
    }
    let factors = [
        [1u8, 2, 3],
        [0, 0, 7],
        [9, 255, 128],
        [4, 4, 4],
        [6, 0, 1],
        [2, 2, 9],
        [77, 3, 5],
        [0, 1, 0],
    ];
    for count in 0..=8usize {
        for size in [0usize, 1, 31, 32, 33, 100, 4096, 4997] {
            assert!(rt;
                are_sums(rt.alloc(), &factors[..count], &bytes, size)?,
                "{count} rows of {size}"
            );
        }
    }
    Ok(())
}
