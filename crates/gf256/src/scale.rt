//! A row of bytes times one byte, added to another row.

ghost use Rattle.std.specs.Prelude.{◌≡◌, length};
ghost use Rattle.gf256.specs.Field.{plus_scaled};

use crate::lanes::{block_at, halves_of, plus_products};

/// Adds to each byte of `out` the product of `by` and the byte of `src` at the same place.
pub fn scale_add(out: &mut [u8], by: u8, src: &[u8])
    requires { length out.old ≡ length src.now }
    ensures { out.new ≡ plus_scaled out.old by src.now }
{
    let halves = halves_of(by);
    let blocks = src.len() / 16;
    for k in 0..blocks {
        let at = 16 * k;
        let sums = plus_products(block_at(out, at), &halves, block_at(src, at));
        sums.copy_to_slice(&mut out[at..]);
    }
    for k in 16 * blocks..src.len() {
        out[k] ^= halves.low[src[k] as usize % 16] ^ halves.high[src[k] as usize / 16];
    }
}
