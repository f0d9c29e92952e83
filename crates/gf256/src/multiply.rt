//! Products, by the products of half bytes, and powers.

ghost use Rattle.std.specs.Prelude.{◌≡◌};
ghost use Rattle.gf256.specs.Field.{IsProduct, product, power_of};

use crate::lanes::halves_of;

/// The product of `a` and `b` in the field.
pub fn mul(a: u8, b: u8) -> u8
    ensures is_product { IsProduct a b result }
    ensures value { result ≡ product a b }
{
    let halves = halves_of(a);
    halves.low[b as usize % 16] ^ halves.high[b as usize / 16]
}

/// The product of `k` factors `a`, which is 1 where `k` is 0.
pub fn power(a: u8, k: u32) -> u8
    ensures { result ≡ power_of a k }
{
    let mut done = 1;
    let mut square = a;
    let mut left = k;
    while left > 0 {
        if left % 2 == 1 {
            done = mul(done, square);
        }
        square = mul(square, square);
        left /= 2;
    }
    done
}
