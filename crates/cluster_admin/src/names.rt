//! The names of objects, in order of put.
//!
//! The names stand in blocks, and an index tells the block of each. So a look-up takes the same time
//! among many names as among few, and a name that is taken out moves only those of its block. Once
//! there are as many blocks as ever, the names are packed into full ones, which so many puts pay for.

ghost use Rattle.std.specs.Prelude.{◌≡◌, ℕ, ◌<◌, ◌≤◌, ◌+◌, ◌^◌, ◌∷◌, ◌++◌, [], length, slice_get, OnOk, OnErr, IfOk, Some, None, option_map};
ghost use Rattle.std.specs.Map.{keys_of, lookup, remove_entry};
ghost use Rattle.std.specs.List.{IsDistinct};
ghost use Rattle.std.specs.Str.{bytes_eq};
ghost use Rattle.cluster_admin.specs.Names.{KeepsNames};

use crate::name_block::NameBlock;
use crate::name_index::NameIndex;
use std::alloc::{AllocError, Global};
use std::marker::Model;

/// How many names a block takes.
const BLOCK_NAMES: usize = 256;

/// The most blocks. Full ones take more than twice as many names as are ever held at once.
const MOST_BLOCKS: usize = 1_024;

/// Where an object is: its volume, the bid of its first blob, and its bytes.
#[derive(Clone, Copy, Debug, PartialEq, Eq)]
pub struct Object {
    pub vid: u32,
    pub bid: u64,
    pub size: u32,
}

/// The names that are held, with their objects, in order of put.
#[derive(Drop)]
pub struct Names {
    alloc: Global,
    blocks: Vec<NameBlock>,
    index: NameIndex,
    count: usize,
}

impl Model for Names {
    ghost use Rattle.std.specs.Prelude.{List, ℕ};
    ghost use Rattle.cluster_admin.specs.declared.names.Object.{Object};

    ghost Value = { List (List ℕ × Object) };

    ghost use Rattle.cluster_admin.specs.Names.{all_names, IsIndexed};

    ghost view = { λ names. all_names names.blocks.items };

    ghost invariant = { λ names. IsIndexed names.blocks.items names.index names.count };
}

/// The number of the last block, before which one is opened where no other has room.
fn block_with_room(alloc: Global, blocks: &mut Vec<NameBlock>) -> Result<usize, AllocError>
    ensures last { IfOk result (λ last. last + 1 ≡ length blocks.new.items) }
    ensures same { KeepsNames blocks.old.items blocks.new.items }
{
    let has_room = match blocks.last() {
        Some(block) => block.len() < BLOCK_NAMES,
        None => false,
    };
    if !has_room {
        blocks.push(NameBlock::none(alloc))?;
    }
    Ok(blocks.len() - 1)
}

impl Names {
    /// No name. Takes no memory.
    pub fn none(alloc: Global) -> Names
        ensures { result ≡ [] }
    {
        Names {
            alloc,
            blocks: Vec::new(alloc),
            index: NameIndex::none(alloc),
            count: 0,
        }
    }

    /// How many names are held.
    pub fn len(&self) -> usize
        ensures { result ≡ length self.now }
    {
        self.count
    }

    /// The object of a name.
    pub fn get(&self, name: &[u8]) -> Option<Object>
        ensures { result ≡ lookup (bytes_eq name.now) self.now }
    {
        match self.index.get(name) {
            Some(number) => self.blocks[number].get(name),
            None => None,
        }
    }

    /// Enters a new name at the end. Packs the names first where there are as many blocks as ever.
    pub fn add(&mut self, name: &[u8], at: Object) -> Result<(), AllocError>
        requires new { lookup (bytes_eq name.now) self.old ≡ None }
        requires few { length self.old < 2 ^ 32 }
        ensures ok { OnOk result (self.new ≡ self.old ++ (name.now, at) ∷ []) }
        ensures err { OnErr result (self.new ≡ self.old) }
    {
        if self.blocks.len() >= MOST_BLOCKS {
            *self = self.packed()?;
        }
        self.append(name, at)
    }

    /// Enters a new name at the end.
    fn append(&mut self, name: &[u8], at: Object) -> Result<(), AllocError>
        requires new { lookup (bytes_eq name.now) self.old ≡ None }
        requires few { length self.old < 2 ^ 32 }
        ensures ok { OnOk result (self.new ≡ self.old ++ (name.now, at) ∷ []) }
        ensures err { OnErr result (self.new ≡ self.old) }
    {
        let number = block_with_room(self.alloc, &mut self.blocks)?;
        self.index.set(name, number)?;
        match self.blocks[number].add(name, at) {
            Ok(()) => {
                self.count += 1;
                Ok(())
            }
            Err(error) => {
                self.index.remove(name);
                Err(error)
            }
        }
    }

    /// Enters the names of a block at the end, none of which is held.
    fn append_all(&mut self, block: &NameBlock) -> Result<(), AllocError>
        requires once { IsDistinct bytes_eq (keys_of (self.old ++ block.now)) }
        requires few { length (self.old ++ block.now) < 2 ^ 32 }
        ensures { OnOk result (self.new ≡ self.old ++ block.now) }
    {
        for place in 0..block.len() {
            match block.at(place) {
                Some((name, at)) => self.append(name, at)?,
                None => break,
            }
        }
        Ok(())
    }

    /// The same names in full blocks.
    fn packed(&self) -> Result<Names, AllocError>
        requires { length self.now < 2 ^ 32 }
        ensures { IfOk result (λ names. names ≡ self.now) }
    {
        let mut names = Names::none(self.alloc);
        for block in &self.blocks {
            names.append_all(block)?;
        }
        Ok(names)
    }

    /// Takes a name out, and answers its object. Takes no memory.
    pub fn remove(&mut self, name: &[u8]) -> Option<Object>
        ensures found { result ≡ lookup (bytes_eq name.now) self.old }
        ensures rest { self.new ≡ remove_entry (bytes_eq name.now) self.old }
    {
        match self.index.get(name) {
            Some(number) => {
                self.index.remove(name);
                self.count -= 1;
                self.blocks[number].remove(name)
            }
            None => None,
        }
    }

    /// The name at a place in order of put, counted from 0, and its object. The time grows with the
    /// number of blocks.
    pub fn at(&self, place: usize) -> Option<(&[u8], Object)>
        ensures { option_map (λ p. (p.0.now, p.1)) result ≡ slice_get self.now place }
    {
        let mut left = place;
        for block in &self.blocks {
            if left < block.len() {
                return block.at(left);
            }
            left -= block.len();
        }
        None
    }
}
