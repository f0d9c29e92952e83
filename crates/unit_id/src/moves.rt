//! What a lock moves.

ghost use Rattle.std.specs.Prelude.{◌≡◌, ◌<◌, [], ◌∷◌, ◌++◌, length};

use crate::unit_name::UnitName;
use std::marker::Model;

/// How many units one lock can move.
const PLACES: usize = 9;

/// One unit that a lock moves. Before the swap `unit` and `disk` are its destination, and after it
/// they are the old unit. `dest_broken` says whether the destination's disk is broken.
#[derive(Clone, Copy, Debug, PartialEq, Eq)]
pub struct Move {
    pub index: u8,
    pub unit: UnitName,
    pub disk: u32,
    pub dest_broken: bool,
}

/// The moves of a lock: a list of at most nine, which takes no memory.
#[derive(Drop)]
pub struct Moves {
    places: [Move; 9],
    count: usize,
}

impl Model for Moves {
    ghost use Rattle.std.specs.Prelude.{List, take, ◌≤◌};
    ghost use Rattle.unit_id.specs.declared.moves.Move.{Move};

    ghost Value = { List Move };

    ghost view = { λ moves. take moves.count moves.places };

    ghost invariant = { λ moves. moves.count ≤ 9 };
}

impl Moves {
    /// No moves.
    pub fn empty() -> Moves
        ensures { result ≡ [] }
    {
        let unit = UnitName {
            vid: 0,
            index: 0,
            epoch: 1,
        };
        let nothing = Move {
            index: 0,
            unit,
            disk: 0,
            dest_broken: false,
        };
        Moves {
            places: [nothing; 9],
            count: 0,
        }
    }

    /// Adds a move at the end, where a place is free.
    pub fn push(&mut self, item: Move)
        requires { length self.old < 9 }
        ensures { self.new ≡ self.old ++ item ∷ [] }
    {
        self.places[self.count] = item;
        self.count += 1;
    }

    /// The moves, in order.
    pub fn as_slice(&self) -> &[Move]
        ensures { result.now ≡ self.now }
    {
        &self.places[..self.count]
    }

    /// How many moves there are.
    pub fn len(&self) -> usize
        ensures { result ≡ length self.now }
    {
        self.as_slice().len()
    }
}
