//! The token of a turn.
use crate::recorded::Recorded;
use crate::view::View;
use atomic_table::Seat;
use std::marker::Model;

/// The right to take a turn's value, and what is known of it. It has no bytes, and can go to another thread. It names the
/// type of the value, since what it has seen is a list of that value's entries. A token that is dropped takes its parts along.
#[derive(Drop)]
pub struct Token<T: Recorded> {
    pub(crate) seat: Seat<Option<T>, View<T::Origin, T::Entry>>,
}

impl<T: Recorded> Model for Token<T> {
    ghost use Rattle.turn_lock.specs.Known.{Known};

    ghost Value = { Known T.Origin T.Entry };

    ghost use Rattle.turn_lock.specs.Seats.{known, IsSeated};

    ghost view = { λ t. known t.seat.table_id t.seat.me.0 };

    ghost invariant = { λ t. IsSeated t.seat.me };
}
