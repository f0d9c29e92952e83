//! A list of blob ids.

ghost use Rattle.std.specs.Prelude.{◌≡◌, length};

use std::marker::Model;

/// A list of blob ids that owns its memory.
#[derive(Drop)]
pub struct Bids {
    items: Vec<u64>,
}

impl Model for Bids {
    ghost use Rattle.std.specs.Prelude.{List, ℕ};

    ghost Value = { List ℕ };

    ghost view = { λ bids. bids.items.items };
}

impl Bids {
    /// The list of these ids. Takes no memory.
    pub fn from_vec(bids: Vec<u64>) -> Bids
        ensures { result ≡ bids.items }
    {
        Bids { items: bids }
    }

    /// The ids, in order.
    pub fn as_slice(&self) -> &[u64]
        ensures { result.now ≡ self.now }
    {
        &self.items
    }

    /// How many ids there are.
    pub fn len(&self) -> usize
        ensures { result ≡ length self.now }
    {
        self.items.len()
    }

    /// The vector that holds the ids. Takes no memory.
    pub fn into_vec(self) -> Vec<u64>
        ensures { result.items ≡ self }
    {
        self.items
    }
}
