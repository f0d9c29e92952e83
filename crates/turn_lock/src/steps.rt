//! The steps of a take and of a give on the table.
ghost use Rattle.std.specs.Prelude.{◌≡◌, ◌+◌, ◌^◌, ◌<◌, [], ◌∷◌, length, None, Some, true, false};
ghost use Rattle.turn_lock.specs.Seats.{IsOfTurn, IsSameSeat, Has, HasNone, Continues};
ghost use Rattle.turn_lock.specs.Steps.{with_ticket, without_value, Takes, Counted};

use crate::recorded::Recorded;
use crate::view::{Count, Draw, Law, Raise, Serve, View};
use atomic_table::{Seat, Shared};
use std::hint;
use std::snapshot::Snapshot;
use std::sync::Wait;

pub(crate) type Table<T> = Shared<
    Option<T>,
    View<<T as Recorded>::Origin, <T as Recorded>::Entry>,
    Snapshot<T>,
    Law,
>;

pub(crate) type Place<T> = Seat<Option<T>, View<<T as Recorded>::Origin, <T as Recorded>::Entry>>;

pub(crate) const COUNT: usize = 0;

pub(crate) const DRAWN: usize = 1;

pub(crate) const SERVED: usize = 2;

pub(crate) const VALUE: usize = 0;

// How often a thread looks at the served ticket before it sleeps.
const LOOKS: u32 = 100;

/// Draws a ticket. Once all tickets are drawn it waits for ever.
pub(crate) fn draw<T: Recorded, R: Wait>(rt: &R, table: &Table<T>, seat: &mut Place<T>) -> u64
    requires table { IsOfTurn seat.old.table_id table.now.table_id }
    requires idle { (seat.old.me.0.holds ≡ false) × (0 < seat.old.me.0.parts) }
    ensures same { IsSameSeat seat.old seat.new }
    ensures ticket { seat.new.me ≡ (with_ticket seat.old.me.0 result, seat.old.me.1) }
{
    for _ in rt.forever() {
        let drawn = table.peek(DRAWN);
        if drawn < u64::MAX
            && table.compare_exchange::<Draw>(seat, DRAWN, drawn, drawn + 1) == drawn
        {
            return drawn;
        }
    }
    unreachable!()
}

/// Waits until the ticket is served. The seat then has the value.
pub(crate) fn await_turn<T: Recorded, R: Wait>(
    rt: &R,
    table: &Table<T>,
    seat: &mut Place<T>,
    ticket: u64,
)
    requires table { IsOfTurn seat.old.table_id table.now.table_id }
    requires ticket { seat.old.me.0.ticket ≡ Some ticket }
    requires idle { (seat.old.me.0.holds ≡ false) × (0 < seat.old.me.0.parts) × (seat.old.me.1 ≡ []) }
    ensures same { IsSameSeat seat.old seat.new }
    ensures takes { Takes T.origin T.past seat.old.me seat.new.me }
{
    let mut looks: u32 = 0;
    for _ in rt.forever() {
        let served = table.load::<Serve>(seat, SERVED);
        if served == ticket {
            return;
        }
        if looks < LOOKS {
            looks += 1;
            hint::spin_loop();
        } else {
            table.park(rt, SERVED, (served % (1 << 32)) as u32);
        }
    }
    unreachable!()
}

/// The value that the seat has.
pub(crate) fn take_out<T: Recorded>(table: &Table<T>, seat: &mut Place<T>) -> T
    requires table { seat.old.table_id ≡ table.now.table_id }
    requires holding { (x : T) × Has seat.old.me x }
    ensures same { IsSameSeat seat.old seat.new }
    ensures value { Has seat.old.me result × (seat.new.me ≡ (seat.old.me.0, (0, None) ∷ [])) }
{
    match table.exchange(seat, VALUE, None) {
        Some(value) => value,
        None => unreachable!(),
    }
}

/// Puts a value back into the seat, where it is not yet at home.
pub(crate) fn put_back<T: Recorded>(table: &Table<T>, seat: &mut Place<T>, value: T)
    requires table { seat.old.table_id ≡ table.now.table_id }
    requires holding { HasNone seat.old.me }
    ensures same { IsSameSeat seat.old seat.new }
    ensures value { seat.new.me ≡ (seat.old.me.0, (0, Some value) ∷ []) }
{
    let before = table.exchange(seat, VALUE, Some(value));
    let None = before else { unreachable!() };
}

/// Stores the length of the value's past. The seat has then seen it.
pub(crate) fn record<T: Recorded>(table: &Table<T>, seat: &mut Place<T>, count: u64)
    requires table { IsOfTurn seat.old.table_id table.now.table_id }
    requires value { (x : T) × Has seat.old.me x × Continues T.origin T.past seat.old.me.0 x × (count ≡ length (T.past x)) }
    requires holding { (seat.old.me.0.holds ≡ true) × (0 < seat.old.me.0.parts) }
    ensures same { IsSameSeat seat.old seat.new }
    ensures seen { (x : T) → Has seat.old.me x → Counted T.origin T.past x seat.old.me seat.new.me }
{
    table.store::<Count>(seat, COUNT, count);
}

/// Serves the next ticket, and wakes who waits. The value is then at home.
pub(crate) fn serve_next<T: Recorded>(table: &Table<T>, seat: &mut Place<T>)
    requires table { IsOfTurn seat.old.table_id table.now.table_id }
    requires value { (x : T) × Has seat.old.me x × (seat.old.me.0.origin ≡ Some (T.origin x)) × (T.past x ≡ seat.old.me.0.seen) }
    requires holding { (seat.old.me.0.holds ≡ true) × (0 < seat.old.me.0.parts) }
    ensures same { IsSameSeat seat.old seat.new }
    ensures back { seat.new.me ≡ (without_value seat.old.me.0, []) }
{
    let served = table.fetch_add::<Raise>(seat, SERVED, 1);
    if table.peek(DRAWN) != served + 1 {
        table.wake_all(SERVED);
    }
}
