//! The block in which each name stands.

ghost use Rattle.std.specs.Prelude.{◌≡◌, ℕ, List, [], OnOk, OnErr, Some, None, if◌then◌else◌};
ghost use Rattle.std.specs.Map.{lookup};
ghost use Rattle.std.specs.Str.{bytes_eq};

use indexmap::IndexMap;
use std::alloc::{AllocError, Global};
use std::marker::Model;

/// The number of the block in which each name stands.
#[derive(Drop)]
pub struct NameIndex {
    alloc: Global,
    blocks: IndexMap<Vec<u8>, usize>,
}

impl Model for NameIndex {
    ghost use Rattle.std.specs.Prelude.{List, ℕ};

    ghost Value = { List (List ℕ × ℕ) };

    ghost use Rattle.cluster_admin.specs.Names.{blocks_of};

    ghost view = { blocks_of };
}

impl NameIndex {
    /// No name. Takes no memory.
    pub fn none(alloc: Global) -> NameIndex
        ensures { result ≡ [] }
    {
        NameIndex {
            alloc,
            blocks: IndexMap::new(alloc),
        }
    }

    /// The block of a name.
    pub fn get(&self, name: &[u8]) -> Option<usize>
        ensures { result ≡ lookup (bytes_eq name.now) self.now }
    {
        self.blocks.get(name).copied()
    }

    /// Notes the block of a name.
    pub fn set(&mut self, name: &[u8], block: usize) -> Result<(), AllocError>
        ensures ok { OnOk result ((other : List ℕ) → lookup (bytes_eq other) self.new ≡ (if bytes_eq name.now other then Some block else lookup (bytes_eq other) self.old)) }
        ensures err { OnErr result (self.new ≡ self.old) }
    {
        let key = Vec::from_slice(self.alloc, name)?;
        self.blocks.insert(key, block)?;
        Ok(())
    }

    /// Forgets a name. Takes no memory.
    pub fn remove(&mut self, name: &[u8])
        ensures { (other : List ℕ) → lookup (bytes_eq other) self.new ≡ (if bytes_eq name.now other then None else lookup (bytes_eq other) self.old) }
    {
        let _block = self.blocks.swap_remove(name);
    }
}
