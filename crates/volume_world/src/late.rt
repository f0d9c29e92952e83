//! What comes late to a volume.

ghost use Rattle.std.specs.Prelude.{◌≡◌, ◌≤◌, [], ◌∷◌, ◌++◌, drop, MatchOption, OnOk, OnErr, IsOk};
ghost use Rattle.volume_world.specs.Mailbag.{TakesFirst};

use disk_base::NoMemory;
use std::alloc::Global;
use std::collections::VecDeque;
use std::marker::Model;
use unit_id::{Answer, Request};

/// A request that is handled later, or an answer to a request that is heard later.
#[derive(Drop)]
pub(crate) enum LateItem {
    Request(Request),
    Answer { request: Request, answer: Answer },
}

/// What comes late, in order. It is seen as a list, and as the number of items for which it has room besides.
#[derive(Drop)]
pub(crate) struct LateQueue {
    kept: VecDeque<LateItem>,
}

impl Model for LateQueue {
    ghost use Rattle.volume_world.specs.Mailbag.{KeptLate};

    ghost Value = { KeptLate };

    ghost use Rattle.std.specs.Prelude.{◌-◌};
    ghost use Rattle.std.specs.VecDeque.{deque_len, deque_capacity};

    ghost view = { λ queue. record { items = queue.kept.items; spare = deque_capacity queue.kept - deque_len queue.kept } };
}

impl LateQueue {
    /// Nothing. Takes no memory.
    pub(crate) fn none(alloc: Global) -> LateQueue
        ensures { result.items ≡ [] }
    {
        LateQueue {
            kept: VecDeque::new(alloc),
        }
    }

    /// Makes room for one item more.
    pub(crate) fn reserve(&mut self) -> Result<(), NoMemory>
        ensures same { self.new.items ≡ self.old.items }
        ensures room { OnOk result (1 ≤ self.new.spare) }
    {
        self.kept.reserve(1)?;
        Ok(())
    }

    /// Adds an item at the end. Where there is room it takes no memory.
    pub(crate) fn push(&mut self, item: LateItem) -> Result<(), NoMemory>
        ensures added { OnOk result (self.new.items ≡ self.old.items ++ item ∷ []) }
        ensures same { OnErr result (self.new.items ≡ self.old.items) }
        ensures succeeds { 1 ≤ self.old.spare → IsOk result }
    {
        self.kept.push_back(item)?;
        Ok(())
    }

    /// The first item. It stays.
    pub(crate) fn first(&self) -> Option<&LateItem>
        ensures { MatchOption result (self.now.items ≡ []) (λ item. self.now.items ≡ item.now ∷ drop 1 self.now.items) }
    {
        self.kept.front()
    }

    /// Takes the first item.
    pub(crate) fn take_first(&mut self) -> Option<LateItem>
        ensures taken { TakesFirst self.old.items result self.new.items }
        ensures room { self.old.spare ≤ self.new.spare }
    {
        self.kept.pop_front()
    }
}
