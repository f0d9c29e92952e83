//! Circuits: steps that were tried on the rows that they are to compute.

ghost use Rattle.std.specs.Prelude.{◌≡◌, ◌≤◌, All, IfOk, MatchOption, length, map};
ghost use Rattle.gf256.specs.Rows.{contents};
ghost use Rattle.gf256.specs.Sums.{sums_of};
ghost use Rattle.code_circuit.specs.Steps.{Computes, Rows, IsAllowed, after_steps, picked, unit_rows};

use crate::load::{keep, load, make_lists};
use crate::play::play;
use crate::step::{Step, are_allowed, are_inside};
use crate::table::{has_rows, make_rows};
use std::alloc::{AllocError, Global};
use std::marker::Model;

/// How many bytes of each source are taken at once, so that all registers stay in the nearest cache.
const PIECE: usize = 2_048;

/// Steps that compute sums of products of sources.
///
/// Seen as the rows of factors that it was made for.
#[derive(Drop)]
pub struct Circuit {
    sources: usize,
    registers: usize,
    steps: Vec<Step>,
    outputs: Vec<u8>,
}

impl Model for Circuit {
    ghost use Rattle.std.specs.Prelude.{◌<◌, All};
    ghost use Rattle.code_circuit.specs.Steps.{Rows, IsAllowed, after_steps, picked, unit_rows};

    ghost Value = { Rows };

    ghost view = { λ circuit. record { sources = circuit.sources; rows = picked circuit.outputs.items (after_steps (unit_rows circuit.sources circuit.registers) circuit.steps.items) } };

    ghost invariant = { λ circuit. All (IsAllowed circuit.registers) circuit.steps.items × All (λ output. output < circuit.registers) circuit.outputs.items };
}

impl Circuit {
    /// The circuit of these steps over so many registers, of which the first hold the sources at first and
    /// the others zeros, and of which those that `outputs` names hold the outputs at the end.
    ///
    /// None where the steps don't compute exactly these rows of factors, one for each output, or where a
    /// step or an output names a register that there isn't, or a step adds a register to itself.
    ///
    /// # Errors
    /// Only for want of memory.
    pub fn make(
        alloc: Global,
        sources: usize,
        registers: usize,
        steps: Vec<Step>,
        outputs: &[u8],
        rows: &[&[u8]],
    ) -> Result<Option<Circuit>, AllocError>
        ensures { IfOk result (λ made. MatchOption made
            (Computes sources registers steps.items outputs.now (contents rows.now) → ⊥)
            (λ circuit. (circuit ≡ record { sources = sources; rows = contents rows.now }) × Computes sources registers steps.items outputs.now (contents rows.now))) }
    {
        if !are_allowed(registers, &steps) || !are_inside(registers, outputs) {
            return Ok(None);
        }
        let mut table = make_rows(alloc, sources, registers)?;
        play(alloc, &mut table, &steps);
        if !has_rows(&table, outputs, rows) {
            return Ok(None);
        }
        Ok(Some(Circuit {
            sources,
            registers,
            steps,
            outputs: Vec::from_slice(alloc, outputs)?,
        }))
    }

    /// For each row of factors the sum of the products of its factors and the sources' bytes, at each place
    /// below `size`. Each source has `size` bytes at least.
    ///
    /// # Errors
    /// Only for want of memory.
    pub fn run(
        &self,
        alloc: Global,
        sources: &[&[u8]],
        size: usize,
    ) -> Result<Vec<Vec<u8>>, AllocError>
        requires count { length sources.now ≡ self.now.sources }
        requires reach { All (λ source. size ≤ length source.now) sources.now }
        ensures { IfOk result (λ outputs. map (λ output. output.items) outputs.items ≡ map (λ row. sums_of row (contents sources.now) size) self.now.rows) }
    {
        let mut outputs = make_lists(alloc, self.outputs.len(), size)?;
        let mut registers = make_lists(alloc, self.registers, PIECE.min(size))?;
        let mut from = 0;
        while from < size {
            let piece = PIECE.min(size - from);
            load(&mut registers, sources, from, piece)?;
            play(alloc, &mut registers, &self.steps);
            keep(&mut outputs, &registers, &self.outputs)?;
            from += piece;
        }
        Ok(outputs)
    }
}
