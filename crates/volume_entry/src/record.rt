//! Records of a manager's log.

use std::marker::Model;

/// The bytes that tell the kinds apart.
pub(crate) const MADE: u8 = 1;

pub(crate) const LEASED: u8 = 2;

pub(crate) const LOCKED: u8 = 3;

pub(crate) const RETARGETED: u8 = 4;

pub(crate) const SWAPPED: u8 = 5;

pub(crate) const UNLOCKED: u8 = 6;

pub(crate) const ASKED: u8 = 7;

pub(crate) const COMMITTED: u8 = 8;

/// A unit of some index, by its epoch, and the disk on which it stands.
#[derive(Clone, Copy, Debug, PartialEq, Eq)]
pub struct UnitHome {
    pub epoch: u32,
    pub disk: u32,
}

impl Model for UnitHome {
    ghost use Rattle.unit_id.specs.Place.{Location};
    ghost use Rattle.volume_entry.specs.Spelling.{HomeFits};

    ghost Value = { Location };

    ghost view = { λ h. record { epoch = h.epoch; disk = h.disk } };

    ghost invariant = { λ h. HomeFits (record { epoch = h.epoch; disk = h.disk }) };

    ghost inverse = { λ h. record { epoch = h.epoch; disk = h.disk } };
}

/// An index and its new home.
#[derive(Clone, Copy, Debug, PartialEq, Eq)]
pub struct NewHome {
    pub index: u8,
    pub dest: UnitHome,
}

impl Model for NewHome {
    ghost use Rattle.volume_entry.specs.Manager.{Grant};
    ghost use Rattle.volume_entry.specs.Spelling.{GrantFits};

    ghost Value = { Grant };

    ghost view = { λ g. record { index = g.index; dest = g.dest } };

    ghost invariant = { λ g. GrantFits (record { index = g.index; dest = g.dest }) };

    ghost inverse = { λ g. record { index = g.index; dest = g.dest } };
}

/// One change of a volume's table, as its log keeps it.
#[derive(Drop)]
pub enum LogRecord {
    /// The volume is made, with these homes in index order.
    Made {
        homes: Vec<UnitHome>,
    },
    /// The lease ends at this time.
    Leased {
        end: u64,
    },
    /// A task has the lock of this number, and its units are to move to these homes.
    Locked {
        task: u64,
        lock: u64,
        grants: Vec<NewHome>,
    },
    /// A unit of the lock is to move to this home instead.
    Retargeted {
        grant: NewHome,
    },
    /// The destinations are the units of their indexes.
    Swapped,
    /// The lock is given back.
    Unlocked,
    /// The blob is to be deleted.
    Asked {
        bid: u64,
    },
    /// The delete of the blob is settled.
    Committed {
        bid: u64,
    },
}
