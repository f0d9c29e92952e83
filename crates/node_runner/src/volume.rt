//! The one volume of a run, and the objects in it.

ghost use Rattle.std.specs.Prelude.{◌≡◌, ◌<◌, ◌≤◌, ◌+◌, ◌^◌, ◌∷◌, ◌++◌, [], length, is_some, OnOk, OnErr, IfOk, None, option_map};
ghost use Rattle.std.specs.Map.{lookup};
ghost use Rattle.std.specs.Str.{bytes_eq};
ghost use Rattle.node_runner.specs.Session.{largest_object};

use crate::stripe::{blob_of, coder_of, shards_of};
use code_mode::Mode;
use disk_base::NoMemory;
use indexmap::IndexMap;
use rs_code::{Coder, Shards};
use std::alloc::Global;
use std::marker::Model;
use unit_id::Bytes;

/// An object that a put entered: all shards of its one blob.
#[derive(Drop)]
struct StoredObject {
    bid: u64,
    size: u32,
    shards: Shards,
}

/// A volume of a mode, with the objects in it by name.
#[derive(Drop)]
pub struct Volume {
    alloc: Global,
    mode: Mode,
    coder: Coder,
    kept: IndexMap<Vec<u8>, StoredObject>,
}

impl Model for Volume {
    ghost use Rattle.node_runner.specs.Volumes.{VolumeState};

    ghost Value = { VolumeState };

    ghost use Rattle.node_runner.specs.VolumeInside.{volume_of, IsSound};

    ghost view = { volume_of };

    ghost invariant = { IsSound };
}

impl Volume {
    /// A volume with no object in it.
    pub fn make(alloc: Global, mode: Mode) -> Result<Volume, NoMemory>
        ensures mode { IfOk result (λ volume. volume.mode ≡ mode) }
        ensures objects { IfOk result (λ volume. volume.objects ≡ []) }
    {
        let coder = coder_of(alloc, mode)?;
        Ok(Volume {
            alloc,
            mode,
            coder,
            kept: IndexMap::new(alloc),
        })
    }

    /// The volume's mode.
    pub fn mode(&self) -> Mode
        ensures { result ≡ self.now.mode }
    {
        self.mode
    }

    /// Whether an object has this name.
    pub fn has(&self, name: &[u8]) -> bool
        ensures { result ≡ is_some (lookup (bytes_eq name.now) self.now.objects) }
    {
        self.kept.contains_key(name)
    }

    /// Enters an object, and answers the number of its blob, which counts the objects from 1.
    pub fn put(&mut self, name: &[u8], bytes: &[u8]) -> Result<u64, NoMemory>
        requires size { length bytes.now ≤ largest_object }
        requires new { lookup (bytes_eq name.now) self.old.objects ≡ None }
        ensures bid { IfOk result (λ bid. bid ≡ length self.old.objects + 1) }
        ensures entered { IfOk result (λ bid. self.new.objects ≡ self.old.objects ++ (name.now, record { bid = bid; bytes = bytes.now }) ∷ []) }
        ensures mode { self.new.mode ≡ self.old.mode }
        ensures err { OnErr result (self.new ≡ self.old) }
    {
        let key = Vec::from_slice(self.alloc, name)?;
        let bid = self.kept.len() as u64 + 1;
        let size = bytes.len() as u32;
        let shards = shards_of(self.alloc, self.mode, &mut self.coder, bytes)?;
        self.kept.insert(key, StoredObject { bid, size, shards })?;
        Ok(bid)
    }

    /// The bytes of the object of this name.
    pub fn get(&mut self, name: &[u8]) -> Result<Option<Bytes>, NoMemory>
        ensures bytes { IfOk result (λ found. found ≡ option_map (λ object. object.bytes) (lookup (bytes_eq name.now) self.old.objects)) }
        ensures same { self.new ≡ self.old }
    {
        let Some(kept) = self.kept.get(name) else {
            return Ok(None);
        };
        let bytes = blob_of(
            self.alloc,
            self.mode,
            &mut self.coder,
            kept.size,
            &kept.shards,
        )?;
        Ok(Some(bytes))
    }
}
