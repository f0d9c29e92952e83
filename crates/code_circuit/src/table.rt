//! The table of factors that steps are tried on.

ghost use Rattle.std.specs.Prelude.{◌≡◌, ◌<◌, ◌↔◌, All, IfOk, IsTrue, length, map};
ghost use Rattle.gf256.specs.Rows.{contents};
ghost use Rattle.code_circuit.specs.Steps.{picked, unit_row, unit_rows};

use std::alloc::{AllocError, Global};

/// The factors of the source of this number alone.
fn make_row(alloc: Global, sources: usize, number: usize) -> Result<Vec<u8>, AllocError>
    ensures { IfOk result (λ row. row.items ≡ unit_row sources number) }
{
    let mut row = Vec::with_capacity(alloc, sources)?;
    for k in 0..sources {
        row.push(u8::from(k == number))?;
    }
    Ok(row)
}

/// The factors of what each register holds at first.
pub(crate) fn make_rows(
    alloc: Global,
    sources: usize,
    registers: usize,
) -> Result<Vec<Vec<u8>>, AllocError>
    ensures long { IfOk result (λ table. length table.items ≡ registers) }
    ensures rows { IfOk result (λ table. map (λ row. row.items) table.items ≡ unit_rows sources registers) }
{
    let mut table = Vec::with_capacity(alloc, registers)?;
    for k in 0..registers {
        table.push(make_row(alloc, sources, k)?)?;
    }
    Ok(table)
}

/// Whether the table has these rows at the outputs' places.
pub(crate) fn has_rows(table: &[Vec<u8>], outputs: &[u8], rows: &[&[u8]]) -> bool
    requires { All (λ output. output < length table.now) outputs.now }
    ensures { IsTrue result ↔ (picked outputs.now (map (λ row. row.items) table.now) ≡ contents rows.now) }
{
    if outputs.len() != rows.len() {
        return false;
    }
    for k in 0..outputs.len() {
        if table[outputs[k] as usize].as_slice() != rows[k] {
            return false;
        }
    }
    true
}
