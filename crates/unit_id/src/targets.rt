//! Where the units of a task are to go.

ghost use Rattle.std.specs.Prelude.{◌≡◌, length};

use std::marker::Model;

/// A unit of a volume, by its index there, and the disk to which it is to go. Disk 0 means that
/// none is chosen.
#[derive(Clone, Copy, Debug, PartialEq, Eq)]
pub struct Target {
    pub index: u8,
    pub disk: u32,
}

/// A list of targets that owns its memory.
#[derive(Drop)]
pub struct Targets {
    items: Vec<Target>,
}

impl Model for Targets {
    ghost use Rattle.std.specs.Prelude.{List};
    ghost use Rattle.unit_id.specs.declared.targets.Target.{Target};

    ghost Value = { List Target };

    ghost view = { λ targets. targets.items.items };
}

impl Targets {
    /// The list of these targets. Takes no memory.
    pub fn from_vec(targets: Vec<Target>) -> Targets
        ensures { result ≡ targets.items }
    {
        Targets { items: targets }
    }

    /// The targets, in order.
    pub fn as_slice(&self) -> &[Target]
        ensures { result.now ≡ self.now }
    {
        &self.items
    }

    /// How many targets there are.
    pub fn len(&self) -> usize
        ensures { result ≡ length self.now }
    {
        self.items.len()
    }

    /// The vector that holds the targets. Takes no memory.
    pub fn into_vec(self) -> Vec<Target>
        ensures { result.items ≡ self }
    {
        self.items
    }
}
