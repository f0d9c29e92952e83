//! The turn.
ghost use Rattle.std.specs.Prelude.{◌≡◌, ◌≤◌, ◌⊎◌, [], ◌∷◌, length, true, false, Some, IfOk, IfErr};
ghost use mathlib.Core.List.{IsPrefix};
ghost use Rattle.turn_lock.specs.Known.{all_parts, whole, cut, cut_off, taken, given, joined, IsEachOnce, OwnsPast};
ghost use Rattle.turn_lock.specs.declared.turn.TurnFault.TheVariants.{Memory};

use crate::held::Held;
use crate::recorded::Recorded;
use crate::steps::{await_turn, draw, put_back, record, serve_next, take_out};
use crate::token::Token;
use crate::view::{Compare, Law, Merge, OnePart, View};
use atomic_table::{Refused, Table};
use std::alloc::Global;
use std::fmt;
use std::marker::Model;
use std::snapshot::Snapshot;
use std::sync::Wait;

/// A value that threads take in turn. To a contract it is the name that its tokens have.
#[derive(Drop)]
pub struct Turn<T: Recorded> {
    table: Table<Option<T>, View<T::Origin, T::Entry>, Snapshot<T>, Law, Global>,
}

impl<T: Recorded> Model for Turn<T> {
    ghost use Rattle.std.specs.Prelude.{◌≡◌};
    ghost use Rattle.atomic_table.specs.Seated.{TableId, table_id_coded};

    ghost Value = { TableId };

    ghost coded = { table_id_coded };

    ghost view = { λ t. t.table.shared.table_id };

    ghost invariant = { λ t. (t.table.shared.table_id.words ≡ 3) × (t.table.shared.table_id.slots ≡ 1) };
}

/// Why a turn wasn't made.
#[derive(Drop)]
pub enum TurnFault<T> {
    /// There was no memory. The value comes back.
    Memory(T),
}

impl<T> fmt::Display for TurnFault<T> {
    fn fmt<W: fmt::Write>(&self, f: &mut fmt::Formatter<W>) -> fmt::Result {
        match self {
            TurnFault::Memory(_) => write!(f, "no memory for a turn"),
        }
    }
}

impl<T: Recorded> Turn<T> {
    /// A turn over the value, and its one token.
    ///
    /// # Errors
    /// `Memory` where there is none. It hands the value back.
    pub fn make(alloc: Global, value: T) -> Result<(Turn<T>, Token<T>), TurnFault<T>>
        ensures made { IfOk result (λ t. t.1 ≡ whole t.0 (T.origin value) (T.past value)) }
        ensures refused { IfErr result (λ f. f ≡ Memory value) }
    {
        let about = Snapshot::of(&value);
        let count = value.count();
        let mut slots = Vec::new(alloc);
        if slots.reserve(1).is_err() {
            slots.destroy_empty();
            return Err(TurnFault::Memory(value));
        }
        slots.push_reserved(Some(value));
        match Table::new(alloc, &[count, 0, 0], slots, &about) {
            Ok((table, seat)) => Ok((Turn { table }, Token { seat })),
            Err(Refused { slots }) => Err(TurnFault::Memory(only(slots))),
        }
    }

    /// Cuts one part off a token, for a second token that has seen as much and has no places.
    pub fn split(&self, token: &mut Token<T>) -> Token<T>
        requires of_turn { token.old.turn ≡ self.now }
        requires idle { token.old.holds ≡ false }
        requires parts { 2 ≤ token.old.parts }
        ensures kept { token.new ≡ cut token.old }
        ensures second { result ≡ cut_off token.old }
    {
        let seat = self.table.shared.split_seat::<OnePart>(&mut token.seat);
        Token { seat }
    }

    /// Waits for the token's turn, and takes the value. It has the token's origin, and its past begins with all that the
    /// token had seen; the token has then seen all of it. A token with all parts had seen the whole past before, and has
    /// each of its places exactly once. Once 2^64 - 1 takes were made, another one waits for ever.
    pub fn take<R: Wait>(&self, rt: &R, token: &mut Token<T>) -> Held<T>
        requires of_turn { token.old.turn ≡ self.now }
        requires idle { token.old.holds ≡ false }
        ensures origin { token.old.origin ≡ Some (T.origin result) }
        ensures later { IsPrefix token.old.seen (T.past result) }
        ensures whole { (token.old.parts ≡ all_parts → T.past result ≡ token.old.seen) × OwnsPast token.old }
        ensures token { token.new ≡ taken token.old (T.past result) }
    {
        let seat = &mut token.seat;
        let ticket = draw(rt, &self.table.shared, seat);
        await_turn(rt, &self.table.shared, seat, ticket);
        let value = take_out(&self.table.shared, seat);
        Held { value }
    }

    /// Gives a value back that this token took, or one that its holder puts in its place: it has the token's origin, and
    /// its past begins with the past at the take. The token has then seen all of it, and has the places that were added.
    pub fn give(&self, held: Held<T>, token: &mut Token<T>)
        requires of_turn { token.old.turn ≡ self.now }
        requires holding { token.old.holds ≡ true }
        requires origin { token.old.origin ≡ Some (T.origin held) }
        requires later { IsPrefix token.old.seen (T.past held) }
        ensures token { token.new ≡ given token.old (T.past held) }
        ensures whole { OwnsPast token.new }
    {
        let Held { value } = held;
        let count = value.count();
        let seat = &mut token.seat;
        put_back(&self.table.shared, seat, value);
        record(&self.table.shared, seat, count);
        serve_next(&self.table.shared, seat);
    }

    /// Takes in another token of the turn: what it has seen, its places and its parts. Of the two pasts one begins the other.
    pub fn join(&self, token: &mut Token<T>, other: Token<T>)
        requires of_turn { (token.old.turn ≡ self.now) × (other.turn ≡ self.now) }
        requires idle { (token.old.holds ≡ false) × (other.holds ≡ false) }
        ensures token { (token.new ≡ joined token.old other) × (token.new.parts ≤ all_parts) }
        ensures seen { IsPrefix token.old.seen token.new.seen × IsPrefix other.seen token.new.seen }
        ensures one_past { IsPrefix token.old.seen other.seen ⊎ IsPrefix other.seen token.old.seen }
        ensures whole { OwnsPast token.new }
    {
        let Token { seat: other } = other;
        let seat = &mut token.seat;
        self.table.shared.join_seat::<Merge>(seat, other);
        self.table.shared.load::<Compare>(seat, 0);
    }

    /// Ends the turn with a token that has all parts. The value's past is what the token saw.
    pub fn close(self, token: Token<T>) -> T
        requires of_turn { token.turn ≡ self }
        requires idle { token.holds ≡ false }
        requires whole { token.parts ≡ all_parts }
        ensures origin { token.origin ≡ Some (T.origin result) }
        ensures past { T.past result ≡ token.seen }
        ensures places { IsEachOnce (length token.seen) token.places }
    {
        let Turn { table } = self;
        let Token { seat } = token;
        let mut closed = table.close_with(seat);
        let value = closed.take(0);
        closed.free();
        match value {
            Some(value) => value,
            None => unreachable!(),
        }
    }
}

// The one value of these slots.
fn only<T>(mut slots: Vec<Option<T>>) -> T
    requires { (x : T) × (slots.items ≡ Some x ∷ []) }
    ensures { slots.items ≡ Some result ∷ [] }
{
    let value = slots.pop();
    slots.destroy_empty();
    match value {
        Some(Some(value)) => value,
        _ => unreachable!(),
    }
}
