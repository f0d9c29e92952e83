//! The versions of a volume that a get has seen.

ghost use Rattle.std.specs.Prelude.{◌≡◌, ◌<◌, [], ◌∷◌, length, reverse};
ghost use Rattle.blob_access.specs.GetCall.{is_last};

use std::marker::Model;

/// How many looks a get has.
const LOOKS: usize = 5;

/// At most five versions, seen as their list, the last first.
#[derive(Drop)]
pub(crate) struct Versions {
    seen: [u64; 5],
    count: usize,
}

impl Model for Versions {
    ghost use Rattle.std.specs.Prelude.{ℕ, List, reverse, take, ◌≤◌};

    ghost Value = { List ℕ };

    ghost view = { λ versions. reverse (take versions.count versions.seen) };

    ghost invariant = { λ versions. versions.count ≤ 5 };
}

impl Versions {
    pub(crate) fn none() -> Versions
        ensures { result ≡ [] }
    {
        Versions {
            seen: [0; LOOKS],
            count: 0,
        }
    }

    pub(crate) fn len(&self) -> usize
        ensures { result ≡ length self.now }
    {
        self.count
    }

    /// Whether this version was seen last.
    pub(crate) fn last_is(&self, version: u64) -> bool
        ensures { result ≡ is_last self.now version }
    {
        self.count > 0 && self.seen[self.count - 1] == version
    }

    pub(crate) fn push(&mut self, version: u64)
        requires { length self.old < 5 }
        ensures { self.new ≡ version ∷ self.old }
    {
        self.seen[self.count] = version;
        self.count += 1;
    }

    /// All five, in the order in which they were seen.
    pub(crate) fn all(&self) -> [u64; 5]
        requires { length self.now ≡ 5 }
        ensures { result ≡ reverse self.now }
    {
        self.seen
    }
}
