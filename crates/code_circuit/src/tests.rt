//! Circuits of twelve sources and four outputs, and steps that lead elsewhere.

ghost use Rattle.std.specs.Prelude.{◌≡◌, ◌≤◌};

use super::*;
use std::alloc::{AllocError, Global};
use std::test::Fail;

/// Steps over 12 registers that hold twelve sources, each as target, source and factor. They lead to the four
/// values at 12 to 15 of the polynomial of degree below 12 whose values at 0 to 11 the sources are.
fn steps_of_twelve_and_four() -> [[u8; 3]; 37] {
    [
        [1, 0, 1],
        [3, 2, 1],
        [2, 3, 2],
        [2, 0, 1],
        [3, 1, 1],
        [5, 4, 1],
        [4, 5, 4],
        [7, 6, 1],
        [6, 7, 6],
        [6, 4, 1],
        [4, 6, 6],
        [7, 5, 1],
        [5, 7, 6],
        [9, 8, 1],
        [8, 9, 8],
        [11, 10, 1],
        [10, 11, 10],
        [10, 8, 1],
        [8, 10, 28],
        [11, 9, 1],
        [9, 11, 28],
        [0, 4, 1],
        [0, 8, 1],
        [1, 5, 1],
        [1, 9, 1],
        [2, 6, 1],
        [2, 10, 1],
        [3, 7, 1],
        [3, 11, 1],
        [0, 2, 26],
        [2, 0, 1],
        [1, 3, 26],
        [3, 1, 1],
        [0, 1, 12],
        [1, 0, 1],
        [2, 3, 14],
        [3, 2, 1],
    ]
}

/// The weights of those values, computed by products and quotients of differences.
fn rows_of_twelve_and_four() -> [[u8; 12]; 4] {
    [
        [175, 180, 150, 140, 245, 232, 196, 216, 27, 28, 18, 20],
        [180, 175, 140, 150, 232, 245, 216, 196, 28, 27, 20, 18],
        [150, 140, 175, 180, 196, 216, 245, 232, 18, 20, 27, 28],
        [140, 150, 180, 175, 216, 196, 232, 245, 20, 18, 28, 27],
    ]
}

/// These steps as such.
fn steps_of(alloc: Global, steps: &[[u8; 3]]) -> Result<Vec<Step>, AllocError> {
    let mut made = Vec::with_capacity(alloc, steps.len())?;
    for step in steps {
        made.push(Step {
            target: step[0],
            source: step[1],
            factor: step[2],
        })?;
    }
    Ok(made)
}

/// A sum over the bytes of all outputs and their order.
fn checksum(outputs: &[Vec<u8>]) -> u64 {
    let mut sum = 0u64;
    for output in outputs {
        for byte in output {
            sum = sum.wrapping_mul(31).wrapping_add(u64::from(*byte));
        }
        sum = sum.wrapping_mul(31).wrapping_add(1);
    }
    sum
}

/// The checksum of what a circuit of twelve sources gives for so many bytes of each.
fn sum_of_run(
    alloc: Global,
    circuit: &Circuit,
    bytes: &[u8; 5100],
    size: usize,
) -> Result<u64, AllocError>
    requires sources { circuit.now.sources ≡ 12 }
    requires size { size ≤ 5000 }
{
    let sources = [
        &bytes[0..5000],
        &bytes[7..5007],
        &bytes[14..5014],
        &bytes[21..5021],
        &bytes[28..5028],
        &bytes[35..5035],
        &bytes[42..5042],
        &bytes[49..5049],
        &bytes[56..5056],
        &bytes[63..5063],
        &bytes[70..5070],
        &bytes[77..5077],
    ];
    let outputs = circuit.run(alloc, &sources, size)?;
    Ok(checksum(&outputs))
}

/// The checksum of the four values for so many bytes of each source.
fn sum_of_twelve_and_four(alloc: Global, size: usize) -> Result<Option<u64>, AllocError>
    requires { size ≤ 5000 }
{
    let rows = rows_of_twelve_and_four();
    let rows = [
        rows[0].as_slice(),
        rows[1].as_slice(),
        rows[2].as_slice(),
        rows[3].as_slice(),
    ];
    let steps = steps_of(alloc, &steps_of_twelve_and_four())?;
    match Circuit::make(alloc, 12, 12, steps, &[0, 1, 2, 3], &rows)? {
        Some(circuit) => {
            let mut bytes = [0u8; 5100];
            for (place, byte) in bytes.iter_mut().enumerate() {
                *byte = (place * 101 % 251) as u8;
            }
            Ok(Some(sum_of_run(alloc, &circuit, &bytes, size)?))
        }
        None => Ok(None),
    }
}

/// The first size at which the four values have another checksum than an outside program gave.
fn wrong_size(alloc: Global) -> Result<Option<usize>, AllocError> {
    let table = [
        (0usize, 30784u64),
        (1usize, 413840014870u64),
        (15usize, 4428869871491114129u64),
        (16usize, 2388070655076256616u64),
        (33usize, 4195438027101173894u64),
        (2047usize, 8781026260681667582u64),
        (2048usize, 12176947119629946184u64),
        (2049usize, 3148800026810076019u64),
        (5000usize, 7095181275094259265u64),
    ];
    for (size, sum) in table {
        if sum_of_twelve_and_four(alloc, size)? != Some(sum) {
            return Ok(Some(size));
        }
    }
    Ok(None)
}

#[test]
fn twelve_sources_give_four_values(rt: HostRuntime) -> Result<(), Fail> {
    assert_eq!(rt; wrong_size(rt.alloc())?, None);
    Ok(())
}

/// Whether there is a circuit of these steps over three registers, which hold two sources, for this row of an output.
fn is_made(alloc: Global, steps: &[[u8; 3]], output: u8, row: &[u8]) -> Result<bool, AllocError> {
    let made = Circuit::make(alloc, 2, 3, steps_of(alloc, steps)?, &[output], &[row])?;
    Ok(made.is_some())
}

/// The number of the first of these tries that doesn't end as it is to.
fn wrong_try(alloc: Global) -> Result<Option<usize>, AllocError> {
    let steps = [[2u8, 0, 3], [2, 1, 1]];
    let tries = [
        (is_made(alloc, &steps, 2, &[3, 1])?, true),
        (is_made(alloc, &steps, 1, &[0, 1])?, true),
        (is_made(alloc, &[[1, 0, 2], [2, 1, 4]], 2, &[8, 4])?, true),
        (is_made(alloc, &steps, 2, &[3, 2])?, false),
        (is_made(alloc, &steps, 2, &[3])?, false),
        (is_made(alloc, &steps, 3, &[3, 1])?, false),
        (is_made(alloc, &[[2, 0, 3], [2, 3, 1]], 2, &[3, 0])?, false),
        (is_made(alloc, &[[0, 0, 2]], 0, &[3, 0])?, false),
    ];
    for (number, (made, wanted)) in tries.iter().enumerate() {
        if made != wanted {
            return Ok(Some(number));
        }
    }
    Ok(None)
}

#[test]
fn steps_that_lead_elsewhere_are_refused(rt: HostRuntime) -> Result<(), Fail> {
    assert_eq!(rt; wrong_try(rt.alloc())?, None);
    Ok(())
}
