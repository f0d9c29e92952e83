//! Weights, as rows of factors.

ghost use Rattle.std.specs.Prelude.{◌≡◌, IfOk};
ghost use Rattle.rs_code.specs.ShardValue.{quotient, weight, weights};

use crate::RowMaker;
use crate::known_places::KnownPlaces;
use disk_base::NoMemory;
use gf256::{inverse, mul};
use std::alloc::{AllocError, Global};
use unit_id::Bytes;

/// `a` divided by `b`; 0 where `b` is 0.
pub(crate) fn divided(a: u8, b: u8) -> u8
    ensures { result ≡ quotient a b }
{
    match inverse(b) {
        Some(inverse) => mul(a, inverse),
        None => 0,
    }
}

/// What the value at `x` counts in the value at `r`.
fn weight_of(places: &[u8], x: u8, r: u8) -> u8
    ensures { result ≡ weight places.now x r }
{
    let mut product = 1;
    for z in places {
        if *z != x {
            product = mul(product, divided(r ^ *z, x ^ *z));
        }
    }
    product
}

/// What the value at each of some places counts in the value at `r`.
pub fn weights_of(alloc: Global, places: &[u8], r: u8) -> Result<Bytes, AllocError>
    ensures { IfOk result (λ row. row ≡ weights places.now r) }
{
    let mut row = Vec::with_capacity(alloc, places.len())?;
    for x in places {
        row.push(weight_of(places, *x, r))?;
    }
    Ok(Bytes::from_vec(row))
}

/// Makes rows of weights, which are those of the inverted matrix of the held indexes.
#[derive(Drop)]
pub struct WeightMaker {
    pub made: u64,
    known: KnownPlaces,
}

impl WeightMaker {
    /// A maker that made none yet. Takes no memory.
    pub fn new(alloc: Global) -> WeightMaker
        ensures { result.made ≡ 0 }
    {
        WeightMaker {
            made: 0,
            known: KnownPlaces::none(alloc),
        }
    }
}

impl RowMaker for WeightMaker {
    ghost use Rattle.rs_code.specs.Shape.{AreWeights};

    ghost fits = { λ _. AreWeights };

    ghost made = { λ maker. maker.made };

    fn make(&mut self, alloc: Global, held: &[u8], want: u8) -> Result<Bytes, NoMemory> {
        self.made = self.made.saturating_add(1);
        if !self.known.are(held) {
            self.known = KnownPlaces::make(alloc, held)?;
        }
        Ok(self.known.weights(alloc, want)?)
    }
}
