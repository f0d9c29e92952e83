//! Copies of what stands in fixed rows. They take no memory.

ghost use Rattle.std.specs.Prelude.{◌≡◌, ◌≤◌, length};
ghost use Rattle.volume_world.specs.FixedRows.{FitsHeld, FitsView, most_moves, most_units};

use unit_id::{Homes, Moves};
use volume_entry::{LockView, View};

/// The same homes.
pub(crate) fn copy_homes(homes: &Homes) -> Homes
    requires { length homes.now ≤ most_units }
    ensures { result ≡ homes.now }
{
    let mut copy = Homes::empty();
    for home in homes.as_slice() {
        copy.push(*home);
    }
    copy
}

/// The same moves.
pub(crate) fn copy_moves(moves: &Moves) -> Moves
    requires { length moves.now ≤ most_moves }
    ensures { result ≡ moves.now }
{
    let mut copy = Moves::empty();
    for item in moves.as_slice() {
        copy.push(*item);
    }
    copy
}

fn copy_lock(lock: &LockView) -> LockView
    requires { length lock.now.moves ≤ most_moves }
    ensures { result ≡ lock.now }
{
    LockView {
        task: lock.task,
        lock: lock.lock,
        moves: copy_moves(&lock.moves),
        swapped: lock.swapped,
    }
}

fn copy_held(held: &Option<LockView>) -> Option<LockView>
    requires { FitsHeld held.now }
    ensures { result ≡ held.now }
{
    match held {
        Some(lock) => Some(copy_lock(lock)),
        None => None,
    }
}

/// The same view.
pub(crate) fn copy_view(view: &View) -> View
    requires { FitsView view.now }
    ensures { result ≡ view.entry.now }
{
    View {
        now: view.now,
        version: view.version,
        lease: view.lease,
        held: copy_held(&view.held),
        units: copy_homes(&view.units),
    }
}
