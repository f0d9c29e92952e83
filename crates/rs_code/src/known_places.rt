//! Places whose differences are known, so that a row of weights takes a few products a place.

ghost use Rattle.std.specs.Prelude.{◌≡◌, ℕ, [], map, IsTrue, IfOk};
ghost use Rattle.rs_code.specs.Differences.{differences, IsAscendingFrom, IsApartFrom};
ghost use Rattle.rs_code.specs.ShardValue.{weight, weights};

use crate::weighing::{divided, weights_of};
use gf256::mul;
use std::alloc::{AllocError, Global};
use std::marker::Model;
use unit_id::Bytes;

/// Some places, with the product of each one's differences to the others.
///
/// Seen as the list of the places.
#[derive(Drop)]
pub struct KnownPlaces {
    places: Vec<u8>,
    products: Vec<u8>,
    are_ascending: bool,
}

impl Model for KnownPlaces {
    ghost use Rattle.std.specs.Prelude.{◌≡◌, List, ℕ, map, IsTrue};
    ghost use Rattle.rs_code.specs.Differences.{differences, IsAscendingFrom};

    ghost Value = { List ℕ };

    ghost view = { λ known. known.places.items };

    ghost invariant = { λ known. (known.products.items ≡ map (λ x. differences known.places.items x x) known.places.items) × (IsTrue known.are_ascending → IsAscendingFrom 0 known.places.items) };
}

/// The product of `r - z` over the places `z` other than `x`.
fn product_of_differences(places: &[u8], x: u8, r: u8) -> u8
    ensures { result ≡ differences places.now x r }
{
    let mut product = 1;
    for z in places {
        if *z != x {
            product = mul(product, r ^ *z);
        }
    }
    product
}

/// For each place the product of its differences to the others.
fn products_of(alloc: Global, places: &[u8]) -> Result<Vec<u8>, AllocError>
    ensures { IfOk result (λ products. products.items ≡ map (λ x. differences places.now x x) places.now) }
{
    let mut products = Vec::with_capacity(alloc, places.len())?;
    for x in places {
        products.push(product_of_differences(places, *x, *x))?;
    }
    Ok(products)
}

/// Whether each place is above the one before it.
fn are_ascending(places: &[u8]) -> bool
    ensures { IsTrue result → IsAscendingFrom 0 places.now }
{
    let mut least = 0;
    for z in places {
        if usize::from(*z) < least {
            return false;
        }
        least = usize::from(*z) + 1;
    }
    true
}

/// The weights of ascending places in the value at another place, by the products of their differences.
fn weights_apart(alloc: Global, places: &[u8], products: &[u8], r: u8) -> Result<Bytes, AllocError>
    requires products { products.now ≡ map (λ x. differences places.now x x) places.now }
    requires ascending { IsAscendingFrom 0 places.now }
    requires apart { IsApartFrom r places.now }
    ensures { IfOk result (λ row. row ≡ weights places.now r) }
{
    let whole = product_of_differences(places, r, r);
    let mut row = Vec::with_capacity(alloc, places.len())?;
    for k in 0..places.len() {
        row.push(divided(divided(whole, r ^ places[k]), products[k]))?;
    }
    Ok(Bytes::from_vec(row))
}

impl KnownPlaces {
    /// No places. Takes no memory.
    pub fn none(alloc: Global) -> KnownPlaces
        ensures { result ≡ [] }
    {
        KnownPlaces {
            places: Vec::new(alloc),
            products: Vec::new(alloc),
            are_ascending: true,
        }
    }

    /// These places.
    pub fn make(alloc: Global, places: &[u8]) -> Result<KnownPlaces, AllocError>
        ensures { IfOk result (λ known. known ≡ places.now) }
    {
        Ok(KnownPlaces {
            places: Vec::from_slice(alloc, places)?,
            products: products_of(alloc, places)?,
            are_ascending: are_ascending(places),
        })
    }

    /// Whether these are the places.
    pub fn are(&self, places: &[u8]) -> bool
        ensures { IsTrue result → self.now ≡ places.now }
    {
        self.places.as_slice() == places
    }

    /// What the value at each place counts in the value at `r`.
    pub fn weights(&self, alloc: Global, r: u8) -> Result<Bytes, AllocError>
        ensures { IfOk result (λ row. row ≡ weights self.now r) }
    {
        if self.are_ascending && !self.places.contains(&r) {
            weights_apart(alloc, &self.places, &self.products, r)
        } else {
            weights_of(alloc, &self.places, r)
        }
    }
}
