//! A part of the names of objects, in order of put.

ghost use Rattle.std.specs.Prelude.{◌≡◌, ◌<◌, ◌+◌, ◌∷◌, ◌++◌, [], length, slice_get, OnOk, OnErr, IfOk, Some, None, option_map};
ghost use Rattle.std.specs.Map.{lookup, remove_entry};
ghost use Rattle.std.specs.Str.{bytes_eq};

use crate::names::Object;
use indexmap::IndexMap;
use std::alloc::{AllocError, Global};
use std::marker::Model;

/// Names with their objects, in order of put.
#[derive(Drop)]
pub struct NameBlock {
    alloc: Global,
    held: IndexMap<Vec<u8>, Object>,
}

impl Model for NameBlock {
    ghost use Rattle.std.specs.Prelude.{List, ℕ};
    ghost use Rattle.cluster_admin.specs.declared.names.Object.{Object};

    ghost Value = { List (List ℕ × Object) };

    ghost use Rattle.cluster_admin.specs.Names.{names_of};

    ghost view = { names_of };
}

impl NameBlock {
    /// No name. Takes no memory.
    pub fn none(alloc: Global) -> NameBlock
        ensures { result ≡ [] }
    {
        NameBlock {
            alloc,
            held: IndexMap::new(alloc),
        }
    }

    /// How many names are held.
    pub fn len(&self) -> usize
        ensures { result ≡ length self.now }
    {
        self.held.len()
    }

    /// The object of a name.
    pub fn get(&self, name: &[u8]) -> Option<Object>
        ensures { result ≡ lookup (bytes_eq name.now) self.now }
    {
        self.held.get(name).copied()
    }

    /// Enters a new name at the end.
    pub fn add(&mut self, name: &[u8], at: Object) -> Result<(), AllocError>
        requires { lookup (bytes_eq name.now) self.old ≡ None }
        ensures ok { OnOk result (self.new ≡ self.old ++ (name.now, at) ∷ []) }
        ensures err { OnErr result (self.new ≡ self.old) }
    {
        let key = Vec::from_slice(self.alloc, name)?;
        self.held.insert(key, at)?;
        Ok(())
    }

    /// Takes a name out, and answers its object. Takes no memory. The names behind it move up.
    pub fn remove(&mut self, name: &[u8]) -> Option<Object>
        ensures found { result ≡ lookup (bytes_eq name.now) self.old }
        ensures rest { self.new ≡ remove_entry (bytes_eq name.now) self.old }
    {
        self.held.shift_remove(name)
    }

    /// The name at a place in order of put, counted from 0, and its object.
    pub fn at(&self, place: usize) -> Option<(&[u8], Object)>
        ensures { option_map (λ p. (p.0.now, p.1)) result ≡ slice_get self.now place }
    {
        match self.held.get_index(place) {
            Some((name, at)) => Some((name.as_slice(), *at)),
            None => None,
        }
    }
}
