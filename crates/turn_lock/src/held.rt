//! A value that was taken.
ghost use Rattle.std.specs.Prelude.{◌≡◌};
ghost use Rattle.std.specs.Borrow.{Lends, sem};
ghost use Rattle.turn_lock.specs.contracts.held.Held.{the_row};

use std::marker::Model;

/// A value that was taken from a turn. Contracts see it as the value. It can't be dropped: it has to be given back.
pub struct Held<T> {
    pub(crate) value: T,
}

impl<T> Model for Held<T> {
    ghost use Rattle.std.specs.Prelude.{ℕ};

    ghost Value = { T };

    ghost view = { λ h. h.value };
}

impl<T> Held<T> {
    pub fn value(&self) -> &T
        ensures { result.now ≡ self.now }
    {
        &self.value
    }

    /// Whoever changes the value may only lengthen its past, and keeps its origin: `Turn::give` asks for that.
    pub fn value_mut(&mut self) -> &mut T
        ensures* writes_back { sem 𝓛 (Lends (the_row T.row) T.row self.entry result (λ w. w)) }
        ensures value { result.now ≡ self.old }
    {
        &mut self.value
    }
}
