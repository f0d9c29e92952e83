//! What holds of all polynomials and sets of shards, as functions with nothing to run.

ghost use Rattle.std.specs.Prelude.{◌≡◌, ℕ, ◌<◌, ◌≤◌, List, Option, Some, length};
ghost use Rattle.rs_code.specs.Shards.{shard_at, held_count, AreEven, AreByteStrings, IsPartOf};
ghost use Rattle.rs_code.specs.ShardValue.{value, value_at, ArePoints, IsPolynomialBelow, IsInterpolant, rebuilt, filled, IsConsistent};

/// Through n points goes one polynomial of degree below n and no other, and `value_at` is its value.
pub fn one_polynomial_goes_through_points()
    ensures exists { (points : List (ℕ × ℕ)) → ArePoints points → (p : List ℕ) × IsPolynomialBelow (length points) p × IsInterpolant points p }
    ensures only { (points : List (ℕ × ℕ)) (p q : List ℕ) → ArePoints points → IsPolynomialBelow (length points) p → IsInterpolant points p → IsPolynomialBelow (length points) q → IsInterpolant points q → p ≡ q }
    ensures value { (points : List (ℕ × ℕ)) (p : List ℕ) (r : ℕ) → ArePoints points → IsPolynomialBelow (length points) p → IsInterpolant points p → value_at points r ≡ value p r }
{}

/// A set of which just n shards are held is consistent.
pub fn n_shards_are_consistent()
    ensures { (n : ℕ) (shards : List (Option (List ℕ))) → held_count shards ≡ n → length shards ≤ 256 → AreEven shards → AreByteStrings shards → IsConsistent n shards }
{}

/// From any n shards of a filled set come all of them: each one that is rebuilt is the one that was
/// there, and filling what is left gives the same set.
pub fn any_n_shards_give_all()
    ensures rebuilt { (n : ℕ) (shards fewer : List (Option (List ℕ))) (k : ℕ) → 0 < n → length shards ≤ 256 → n ≤ held_count shards → IsConsistent n shards → IsPartOf fewer (filled n shards) → n ≤ held_count fewer → k < length shards → shard_at (filled n shards) k ≡ Some (rebuilt n fewer k) }
    ensures filled { (n : ℕ) (shards fewer : List (Option (List ℕ))) → 0 < n → length shards ≤ 256 → n ≤ held_count shards → IsConsistent n shards → IsPartOf fewer (filled n shards) → n ≤ held_count fewer → filled n fewer ≡ filled n shards }
{}
