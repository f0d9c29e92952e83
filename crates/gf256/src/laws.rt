//! What holds of all products, as functions with nothing to run.

ghost use Rattle.std.specs.Prelude.{◌≡◌, ℕ, ◌<◌, bit_xor};
ghost use Rattle.gf256.specs.Field.{IsProduct, product, inverse_of};

/// Two bytes have one product, and `product` is it.
pub fn product_is_the_only_one()
    ensures exists { (a b : ℕ) → a < 256 → b < 256 → IsProduct a b (product a b) }
    ensures only { (a b p : ℕ) → a < 256 → b < 256 → IsProduct a b p → p ≡ product a b }
{}

/// Products may be regrouped, and go with sums.
pub fn products_form_a_ring()
    ensures commutes { (a b : ℕ) → product a b ≡ product b a }
    ensures associates { (a b c : ℕ) → product (product a b) c ≡ product a (product b c) }
    ensures distributes { (a b c : ℕ) → product a (bit_xor b c) ≡ bit_xor (product a b) (product a c) }
    ensures one { (a : ℕ) → a < 256 → product 1 a ≡ a }
    ensures zero { (a : ℕ) → product 0 a ≡ 0 }
{}

/// Every byte but 0 has an inverse, so two bytes that are not 0 have a product that is not 0.
pub fn products_can_be_undone()
    ensures inverse { (a : ℕ) → 0 < a → a < 256 → product a (inverse_of a) ≡ 1 }
    ensures no_zero_divisors { (a b : ℕ) → 0 < a → a < 256 → b < 256 → product a b ≡ 0 → b ≡ 0 }
{}
