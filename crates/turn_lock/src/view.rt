//! What a seat at the table knows, the rule, and what each step tells.
use crate::recorded::Recorded;
use atomic_table::{Join, Play, Shared, Split, TableRule};
use std::collections::LinkedList;
use std::snapshot::Snapshot;

/// What a seat knows. No value of it is made.
pub struct View<O, E> {
    /// None once the view was joined to another.
    pub origin: Option<O>,
    /// The past, as far as it was seen.
    pub seen: LinkedList<E>,
    /// The shorter past of two views that were joined, until it is compared.
    pub also: LinkedList<E>,
    /// The places of the past that the seat's own gives added.
    pub places: LinkedList<u64>,
    pub parts: u64,
    pub ticket: Option<u64>,
    /// The seat has the value.
    pub holds: bool,
}

/// The rule of the turn's table.
pub struct Law;

impl<T: Recorded> TableRule<Option<T>, View<T::Origin, T::Entry>, Snapshot<T>> for Law {
    ghost use Rattle.turn_lock.specs.Rule.{IsKept};
    ghost use Rattle.turn_lock.specs.Steps.{first_view};

    ghost holds = { λ _. IsKept T.origin T.past };

    ghost first = { λ opening. first_view (T.origin opening.value) (T.past opening.value) };
}

pub(crate) struct Draw;

impl<T: Recorded> Play<Option<T>, View<T::Origin, T::Entry>> for Draw {
    ghost use Rattle.turn_lock.specs.Steps.{Draws};

    ghost then = { Draws };
}

pub(crate) struct Serve;

impl<T: Recorded> Play<Option<T>, View<T::Origin, T::Entry>> for Serve {
    ghost use Rattle.turn_lock.specs.Steps.{Serves};

    ghost then = { Serves T.origin T.past };
}

pub(crate) struct Count;

impl<T: Recorded> Play<Option<T>, View<T::Origin, T::Entry>> for Count {
    ghost use Rattle.turn_lock.specs.Steps.{Counts};

    ghost then = { Counts T.origin T.past };
}

pub(crate) struct Raise;

impl<T: Recorded> Play<Option<T>, View<T::Origin, T::Entry>> for Raise {
    ghost use Rattle.turn_lock.specs.Steps.{Raises};

    ghost then = { Raises };
}

pub(crate) struct Compare;

impl<T: Recorded> Play<Option<T>, View<T::Origin, T::Entry>> for Compare {
    ghost use Rattle.turn_lock.specs.Steps.{Compares};

    ghost then = { Compares };
}

pub(crate) struct OnePart;

impl<O, E> Split<View<O, E>> for OnePart {
    ghost use Rattle.turn_lock.specs.Steps.{cut_view, part_of};

    ghost left = { cut_view };

    ghost right = { part_of };
}

pub(crate) struct Merge;

impl<O, E> Join<View<O, E>> for Merge {
    ghost use Rattle.turn_lock.specs.Steps.{both_views, spent};

    ghost both = { both_views };

    ghost spent = { spent };
}
