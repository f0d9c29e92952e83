//! The session of a run, as it is handed out: which volumes were made, and for each command that was begun
//! where its own entries stand in their histories.

ghost use Rattle.std.specs.Prelude.{◌≡◌, ◌∷◌, ◌++◌, [], length, OnOk, OnErr};
ghost use Rattle.node_runner.specs.Session.{nothing_said};

use disk_base::NoMemory;
use std::alloc::Global;
use std::marker::Model;

/// A place in the history of a volume, counted from 0.
#[derive(Clone, Copy, Debug, PartialEq, Eq)]
pub struct Spot {
    pub vid: u32,
    pub place: u64,
}

/// A list of places.
#[derive(Drop)]
pub struct Spots {
    items: Vec<Spot>,
}

impl Model for Spots {
    ghost use Rattle.std.specs.Prelude.{List};
    ghost use Rattle.node_runner.specs.declared.session.Spot.{Spot};

    ghost Value = { List Spot };

    ghost view = { λ spots. spots.items.items };
}

impl Spots {
    /// The list of these places. Takes no memory.
    pub fn from_vec(spots: Vec<Spot>) -> Spots
        ensures { result ≡ spots.items }
    {
        Spots { items: spots }
    }

    /// The places, in order.
    pub fn as_slice(&self) -> &[Spot]
        ensures { result.now ≡ self.now }
    {
        &self.items
    }

    /// How many places there are.
    pub fn len(&self) -> usize
        ensures { result ≡ length self.now }
    {
        self.items.len()
    }
}

/// Why a volume that was to be made was lost.
#[derive(Clone, Copy, Debug, PartialEq, Eq)]
pub enum Lost {
    /// A call of the outside failed.
    Fault,
    /// A file isn't as it was written.
    Damaged,
    /// The record at this place of a log is none that may stand there.
    Spoiled { place: u64 },
}

/// What is said of a command that was begun: where the entries stand that it added itself, in order, and what
/// was lost.
#[derive(Drop)]
pub struct Said {
    pub own: Spots,
    pub lost: Option<Lost>,
}

/// What is said of each command that was begun, in order.
#[derive(Drop)]
pub struct Saids {
    items: Vec<Said>,
}

impl Model for Saids {
    ghost use Rattle.std.specs.Prelude.{List};
    ghost use Rattle.node_runner.specs.declared.session.Said.{Said};

    ghost Value = { List Said };

    ghost view = { λ saids. saids.items.items };
}

impl Saids {
    /// The list of these. Takes no memory.
    pub fn from_vec(saids: Vec<Said>) -> Saids
        ensures { result ≡ saids.items }
    {
        Saids { items: saids }
    }

    /// What is said of each, in order.
    pub fn as_slice(&self) -> &[Said]
        ensures { result.now ≡ self.now }
    {
        &self.items
    }

    /// How many commands were begun.
    pub fn len(&self) -> usize
        ensures { result ≡ length self.now }
    {
        self.items.len()
    }

    /// Adds a command of which nothing is said yet.
    pub(crate) fn begin(&mut self, alloc: Global) -> Result<(), NoMemory>
        ensures begun { OnOk result (self.new ≡ self.old ++ nothing_said ∷ []) }
        ensures err { OnErr result (self.new ≡ self.old) }
    {
        let own = Spots::from_vec(Vec::new(alloc));
        self.items.push(Said { own, lost: None })?;
        Ok(())
    }
}

/// A volume that was made.
#[derive(Clone, Copy, Debug, PartialEq, Eq)]
pub struct Past {
    pub vid: u32,
}

/// The volumes that were made, ascending.
#[derive(Drop)]
pub struct Pasts {
    items: Vec<Past>,
}

impl Model for Pasts {
    ghost use Rattle.std.specs.Prelude.{List};
    ghost use Rattle.node_runner.specs.declared.session.Past.{Past};

    ghost Value = { List Past };

    ghost view = { λ pasts. pasts.items.items };
}

impl Pasts {
    /// The list of these volumes. Takes no memory.
    pub fn from_vec(pasts: Vec<Past>) -> Pasts
        ensures { result ≡ pasts.items }
    {
        Pasts { items: pasts }
    }

    /// The volumes, in order.
    pub fn as_slice(&self) -> &[Past]
        ensures { result.now ≡ self.now }
    {
        &self.items
    }

    /// How many volumes there are.
    pub fn len(&self) -> usize
        ensures { result ≡ length self.now }
    {
        self.items.len()
    }
}

/// A session: the volumes that were made, and what is said of each command that was begun. No volume has
/// entries of its own yet, so no place is said.
#[derive(Drop)]
pub struct Session {
    pub pasts: Pasts,
    pub turns: Saids,
}
