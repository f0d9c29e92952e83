//! Pieces of sources into registers, and registers into outputs.

ghost use Rattle.std.specs.Prelude.{◌≡◌, ℕ, ◌+◌, ◌<◌, ◌≤◌, ◌++◌, [], All, IfOk, OnOk, length, map, replicate, slice_index, slice_index_or};
ghost use Rattle.std.specs.List.{range_with_len};
ghost use Rattle.gf256.specs.Rows.{contents};
ghost use Rattle.code_circuit.specs.Steps.{loaded, picked, piece_of};

use std::alloc::{AllocError, Global};

/// So many lists with nothing in them, each with room for `size` bytes.
pub(crate) fn make_lists(
    alloc: Global,
    count: usize,
    size: usize,
) -> Result<Vec<Vec<u8>>, AllocError>
    ensures long { IfOk result (λ lists. length lists.items ≡ count) }
    ensures empty { IfOk result (λ lists. map (λ list. list.items) lists.items ≡ replicate count []) }
{
    let mut lists = Vec::with_capacity(alloc, count)?;
    for _ in 0..count {
        lists.push(Vec::with_capacity(alloc, size)?)?;
    }
    Ok(lists)
}

/// Makes a register the bytes of a source from a place on.
fn load_source(
    register: &mut Vec<u8>,
    source: &[u8],
    from: usize,
    size: usize,
) -> Result<(), AllocError>
    requires { from + size ≤ length source.now }
    ensures register { OnOk result (register.new.items ≡ piece_of source.now from size) }
    ensures bytes { (k : ℕ) → slice_index source.now k < 256 }
{
    register.clear();
    register.extend_from_slice(&source[from..from + size])
}

/// Makes a register as many zeros.
fn load_zeros(register: &mut Vec<u8>, from: usize, size: usize) -> Result<(), AllocError>
    ensures { OnOk result (register.new.items ≡ piece_of [] from size) }
{
    register.clear();
    register.resize(size, 0)
}

/// Makes the register of a number the piece of the source of that number, or zeros where there is none.
fn load_register(
    register: &mut Vec<u8>,
    sources: &[&[u8]],
    number: usize,
    from: usize,
    size: usize,
) -> Result<(), AllocError>
    requires { All (λ source. from + size ≤ length source.now) sources.now }
    ensures register { OnOk result (register.new.items ≡ piece_of (slice_index_or (contents sources.now) number []) from size) }
    ensures bytes { (k : ℕ) → slice_index (slice_index_or (contents sources.now) number []) k < 256 }
{
    if number < sources.len() {
        return load_source(register, sources[number], from, size);
    }
    load_zeros(register, from, size)
}

/// Makes each register what it holds at first for a piece of the sources.
pub(crate) fn load(
    registers: &mut Vec<Vec<u8>>,
    sources: &[&[u8]],
    from: usize,
    size: usize,
) -> Result<(), AllocError>
    requires { All (λ source. from + size ≤ length source.now) sources.now }
    ensures long { length registers.new.items ≡ length registers.old.items }
    ensures bytes { OnOk result ((number : ℕ) → number < length registers.old.items → (k : ℕ) → slice_index (slice_index_or (contents sources.now) number []) k < 256) }
    ensures loaded { OnOk result (map (λ register. register.items) registers.new.items ≡ loaded (contents sources.now) from size (length registers.old.items)) }
{
    for k in 0..registers.len() {
        load_register(&mut registers[k], sources, k, from, size)?;
    }
    Ok(())
}

/// Appends to each output the register of its place.
pub(crate) fn keep(
    outputs: &mut Vec<Vec<u8>>,
    registers: &[Vec<u8>],
    places: &[u8],
) -> Result<(), AllocError>
    requires long { length outputs.old.items ≡ length places.now }
    requires inside { All (λ place. place < length registers.now) places.now }
    ensures long { length outputs.new.items ≡ length outputs.old.items }
    ensures kept { OnOk result (map (λ output. output.items) outputs.new.items ≡
        map (λ k. slice_index_or (map (λ output. output.items) outputs.old.items) k [] ++ slice_index_or (picked places.now (map (λ register. register.items) registers.now)) k []) (range_with_len 0 (length places.now))) }
{
    for k in 0..places.len() {
        outputs[k].extend_from_slice(&registers[places[k] as usize])?;
    }
    Ok(())
}
