//! Where the units of a volume stand.

ghost use Rattle.std.specs.Prelude.{◌≡◌, ◌<◌, [], ◌∷◌, ◌++◌, length};

use crate::unit_name::UnitName;
use std::marker::Model;

/// How many units a volume can have.
const PLACES: usize = 27;

/// A unit, the disk on which it stands, and whether that disk is broken.
#[derive(Clone, Copy, Debug, PartialEq, Eq)]
pub struct Home {
    pub unit: UnitName,
    pub disk: u32,
    pub broken: bool,
}

/// The homes of a volume's units: a list of at most 27, which takes no memory.
#[derive(Drop)]
pub struct Homes {
    places: [Home; 27],
    count: usize,
}

impl Model for Homes {
    ghost use Rattle.std.specs.Prelude.{List, take, ◌≤◌};
    ghost use Rattle.unit_id.specs.declared.homes.Home.{Home};

    ghost Value = { List Home };

    ghost view = { λ homes. take homes.count homes.places };

    ghost invariant = { λ homes. homes.count ≤ 27 };
}

impl Homes {
    /// No homes.
    pub fn empty() -> Homes
        ensures { result ≡ [] }
    {
        let unit = UnitName {
            vid: 0,
            index: 0,
            epoch: 1,
        };
        let nowhere = Home {
            unit,
            disk: 0,
            broken: false,
        };
        Homes {
            places: [nowhere; 27],
            count: 0,
        }
    }

    /// Adds a home at the end, where a place is free.
    pub fn push(&mut self, home: Home)
        requires { length self.old < 27 }
        ensures { self.new ≡ self.old ++ home ∷ [] }
    {
        self.places[self.count] = home;
        self.count += 1;
    }

    /// The homes, in order.
    pub fn as_slice(&self) -> &[Home]
        ensures { result.now ≡ self.now }
    {
        &self.places[..self.count]
    }

    /// How many homes there are.
    pub fn len(&self) -> usize
        ensures { result ≡ length self.now }
    {
        self.as_slice().len()
    }
}
