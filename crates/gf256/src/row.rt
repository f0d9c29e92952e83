//! Factors that are ready to be multiplied with.

ghost use Rattle.std.specs.Prelude.{◌≡◌, IfOk, length};
ghost use Rattle.gf256.specs.Halves.{AreHalves};

use crate::lanes::{Halves, halves_of};
use std::alloc::{AllocError, Global};
use std::marker::Model;

/// A factor for each of several sources, with its products with half bytes: 32 bytes a factor.
///
/// Seen as the list of the factors.
#[derive(Drop)]
pub struct FactorRow {
    halves: Vec<Halves>,
}

impl Model for FactorRow {
    ghost use Rattle.std.specs.Prelude.{List, ℕ, map};
    ghost use Rattle.gf256.specs.Halves.{factors_of, AreHalves};

    ghost Value = { List ℕ };

    ghost view = { λ row. factors_of row.halves.items };

    ghost invariant = { λ row. AreHalves (factors_of row.halves.items) row.halves.items };
}

impl FactorRow {
    /// The row of these factors.
    pub fn make(alloc: Global, factors: &[u8]) -> Result<FactorRow, AllocError>
        ensures { IfOk result (λ row. row ≡ factors.now) }
    {
        let mut halves = Vec::with_capacity(alloc, factors.len())?;
        for k in 0..factors.len() {
            halves.push(halves_of(factors[k]))?;
        }
        Ok(FactorRow { halves })
    }

    /// How many factors there are.
    pub fn len(&self) -> usize
        ensures { result ≡ length self.now }
    {
        self.halves.len()
    }

    /// The products of each factor with half bytes.
    pub(crate) fn halves(&self) -> &[Halves]
        ensures are { AreHalves self.now result.now }
        ensures long { length result.now ≡ length self.now }
    {
        &self.halves
    }
}
