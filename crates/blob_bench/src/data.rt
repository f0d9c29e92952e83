//! Bytes to measure with.

ghost use Rattle.std.specs.Prelude.{◌≡◌, IfOk, vec_len};

use std::alloc::{AllocError, Global};

/// So many bytes that look like noise and are the same each time.
pub fn made(alloc: Global, size: usize) -> Result<Vec<u8>, AllocError>
    ensures { IfOk result (λ bytes. vec_len bytes ≡ size) }
{
    let mut bytes = Vec::with_capacity(alloc, size)?;
    let mut state: u64 = 0x9e37_79b9_7f4a_7c15;
    for _place in 0..size {
        state ^= state << 13;
        state ^= state >> 7;
        state ^= state << 17;
        bytes.push(state.to_be_bytes()[0])?;
    }
    Ok(bytes)
}
