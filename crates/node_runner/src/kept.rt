//! What a run keeps between its lines: the store, and what is said of the commands so far.

ghost use Rattle.std.specs.Prelude.{◌≡◌, []};
ghost use Rattle.node_runner.specs.Session.{fresh, handed_out};
ghost use Rattle.node_runner.specs.Progress.{TakesTurn};

use crate::command::Command;
use crate::reply::LineReply;
use crate::session::{Saids, Session};
use crate::store::Store;
use disk_base::NoMemory;
use std::alloc::Global;

/// What the commands so far have made, and what is said of each.
#[derive(Drop)]
pub struct Kept {
    pub alloc: Global,
    pub store: Store,
    pub turns: Saids,
}

impl Kept {
    /// What a run begins with. Takes no memory.
    pub fn make(alloc: Global) -> Kept
        ensures { (result.store ≡ fresh) × (result.turns ≡ []) }
    {
        Kept {
            alloc,
            store: Store::make(alloc),
            turns: Saids::from_vec(Vec::new(alloc)),
        }
    }

    /// Begins a turn for a command, does it, and answers its reply.
    ///
    /// # Errors
    /// `NoMemory`: the turn was begun or not, and the command did nothing.
    pub fn answer(&mut self, command: Command) -> Result<LineReply, NoMemory>
        ensures { TakesTurn command result self.old self.new }
    {
        self.turns.begin(self.alloc)?;
        self.store.answer(command)
    }

    /// The session, as it is handed out. Takes no memory.
    pub fn into_session(self) -> Session
        ensures { result ≡ handed_out self.store self.turns }
    {
        let Kept {
            alloc: _alloc,
            store,
            turns,
        } = self;
        Session {
            pasts: store.into_pasts(),
            turns,
        }
    }
}
