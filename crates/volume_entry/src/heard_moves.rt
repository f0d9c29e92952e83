//! What was heard of all units that a lock moves.

ghost use Rattle.std.specs.Prelude.{◌≡◌, ◌≤◌, ◌∷◌, ◌++◌, [], true, List, length, OnOk, OnErr, IsOk};
ghost use Rattle.volume_entry.specs.Manager.{Transfer, without_rows};
ghost use Rattle.volume_entry.specs.HeardCalls.{FindsMove, MovesHear, HaveRowRoom, add_rows, moves_index};

use crate::moving::Moving;
use std::alloc::AllocError;

/// Where the move of an index stands.
pub fn place_of(moves: &[Moving], index: u8) -> Option<usize>
    ensures { FindsMove moves.now index result }
{
    for (place, item) in moves.iter().enumerate() {
        if item.index == index {
            return Some(place);
        }
    }
    None
}

/// Notes rows of these blobs at the destination of an index. Where there is room it takes no memory.
pub fn take_rows(
    moves: &mut [Moving],
    index: u8,
    live: &[u64],
    marked: &[u64],
) -> Result<(), AllocError>
    ensures taken { OnOk result ((transfers : List Transfer) → moves_index transfers index ≡ true → MovesHear transfers (add_rows index live.now marked.now) moves.old moves.new) }
    ensures same { OnErr result ((transfers : List Transfer) → MovesHear transfers (λ heard. heard) moves.old moves.new) }
    ensures succeeds { HaveRowRoom moves.old → length live.now ≤ 1 → length marked.now ≤ 1 → IsOk result }
{
    match place_of(moves, index) {
        Some(place) => moves[place].take(live, marked),
        None => Ok(()),
    }
}

/// Forgets the rows at the destination of an index.
pub fn lose_rows(moves: &mut [Moving], index: u8)
    ensures { (transfers : List Transfer) → MovesHear transfers (λ heard. record heard { live = without_rows index heard.live; marked = without_rows index heard.marked }) moves.old moves.new }
{
    match place_of(moves, index) {
        Some(place) => moves[place].lose_rows(),
        None => {}
    }
}

/// Notes that the old unit of an index is fenced.
pub fn fence(moves: &mut [Moving], index: u8)
    ensures { (transfers : List Transfer) → moves_index transfers index ≡ true → MovesHear transfers (λ heard. record heard { fenced = index ∷ heard.fenced }) moves.old moves.new }
{
    match place_of(moves, index) {
        Some(place) => moves[place].fence(),
        None => {}
    }
}

/// Notes that the old unit of an index is released.
pub fn release(moves: &mut [Moving], index: u8)
    ensures { (transfers : List Transfer) → moves_index transfers index ≡ true → MovesHear transfers (λ heard. record heard { released = index ∷ heard.released }) moves.old moves.new }
{
    match place_of(moves, index) {
        Some(place) => moves[place].release(),
        None => {}
    }
}
