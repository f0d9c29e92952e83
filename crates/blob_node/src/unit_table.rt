//! The units that stand on one disk, found by the words of their names.

ghost use Rattle.std.specs.Prelude.{◌≡◌, ◌<◌, ◌≤◌, ◌++◌, ◌∷◌, [], ℕ, List, false, is_some, true, nat_eq, nat_lt, ◌||◌, None, Some, if◌then◌else◌, ◌==◌, IsSomeAnd, OnOk, IfOk, IfErr};
ghost use Rattle.std.specs.Option.{option_copied};
ghost use Rattle.std.specs.List.Sorted.{IsStrictlyIncreasing};
ghost use Rattle.std.specs.List.{IsDistinct, list_any};
ghost use Rattle.std.specs.HashMap.{keys};
ghost use Rattle.unit_id.specs.UnitName.{IsName, packed};
ghost use Rattle.blob_node.specs.HeldUnit.{UnitOver, CarriesShard, name_of, is_create, is_released};
ghost use Rattle.blob_node.specs.UnitTable.{Entries, at_word, unit_at, greatest_of, knows_released, AreNamed, ServesIn, StartsIn, StartsOne};

use crate::HeldUnit;
use crate::settled::Settled;
use chunk_store::ChunkFault;
use disk_base::{Extent, NoMemory};
use indexmap::IndexMap;
use std::alloc::{AllocError, Global};
use std::marker::Model;
use unit_id::{Answer, Request, UnitName};

/// Units of one volume by the words of their names, with the greatest epoch of each index.
#[derive(Drop)]
pub(crate) struct UnitTable<E: Extent> {
    vid: u32,
    units: IndexMap<u64, HeldUnit<E>>,
    greatest: [u32; 256],
}

impl<E: Extent> Model for UnitTable<E> {
    ghost use Rattle.std.specs.HashMap.{spare};
    ghost use Rattle.blob_node.specs.UnitTable.{TableOver, coded_table, AreNamed, AreGreatest};

    ghost Value = { TableOver E };

    ghost coded = { coded_table E.code };

    ghost view = { λ table. record { vid = table.vid; units = table.units.entries; spare = spare table.units } };

    ghost invariant = { λ table. AreNamed table.vid table.units.entries × AreGreatest table.greatest table.units.entries };
}

impl<E: Extent> UnitTable<E> {
    // No unit. Takes no memory.
    pub(crate) fn new(alloc: Global, vid: u32) -> UnitTable<E>
        ensures vid { result.vid ≡ vid }
        ensures units { result.units ≡ [] }
    {
        UnitTable {
            vid,
            units: IndexMap::new(alloc),
            greatest: [0; 256],
        }
    }

    pub(crate) fn vid(&self) -> u32
        ensures { result ≡ self.now.vid }
    {
        self.vid
    }

    // The unit of this name.
    pub(crate) fn get(&self, unit: UnitName) -> Option<&HeldUnit<E>>
        ensures { option_copied result ≡ unit_at self.now.units unit }
    {
        self.units.get(&unit.pack())
    }

    // Whether there is a unit of this name.
    pub(crate) fn has(&self, unit: UnitName) -> bool
        ensures { result ≡ is_some (unit_at self.now.units unit) }
    {
        self.units.contains_key(&unit.pack())
    }

    // Whether the unit of this name is known to be released.
    fn is_released(&self, unit: UnitName) -> bool
        ensures { result ≡ knows_released (unit_at self.now.units unit) }
    {
        match self.units.get(&unit.pack()) {
            Some(held) => held.is_released(),
            None => false,
        }
    }

    // The greatest epoch of an index, 0 where there is no unit of it.
    pub(crate) fn greatest(&self, index: u8) -> u32
        ensures epoch { result ≡ greatest_of self.now.units index }
        ensures named { AreNamed self.now.vid self.now.units }
    {
        self.greatest[usize::from(index)]
    }

    // Whether the unit of this name is known to be released, or one of its index has a greater epoch.
    pub(crate) fn is_stale(&self, unit: UnitName) -> bool
        ensures { result ≡ (nat_lt unit.epoch (greatest_of self.now.units unit.index) || knows_released (unit_at self.now.units unit)) }
    {
        unit.epoch < self.greatest(unit.index) || self.is_released(unit)
    }

    // Makes room for one unit more.
    pub(crate) fn reserve(&mut self) -> Result<(), AllocError>
        ensures vid { self.new.vid ≡ self.old.vid }
        ensures units { self.new.units ≡ self.old.units }
        ensures room { OnOk result (0 < self.new.spare) }
    {
        self.units.reserve(1)
    }

    // Adds a unit of the volume. There is room for it.
    pub(crate) fn add(&mut self, held: HeldUnit<E>)
        requires room { 0 < self.old.spare }
        requires vid { held.chunk.unit.vid ≡ self.old.vid }
        requires new { unit_at self.old.units held.chunk.unit ≡ None }
        ensures vid { self.new.vid ≡ self.old.vid }
        ensures units { self.new.units ≡ self.old.units ++ (packed held.chunk.unit, held) ∷ [] }
    {
        let unit = held.unit();
        let index = usize::from(unit.index);
        self.greatest[index] = self.greatest[index].max(unit.epoch);
        let _ = self.units.insert(unit.pack(), held);
    }

    // The unit of this name answers the request, which isn't a create. It isn't known to be released.
    pub(crate) fn serve(
        &mut self,
        unit: UnitName,
        request: &Request,
        have: u32,
    ) -> (Option<bool>, Result<Answer, NoMemory>)
        requires there { IsSomeAnd (unit_at self.old.units unit) (λ was. is_released was ≡ false) }
        requires own { name_of request.now ≡ unit }
        requires kind { is_create request.now ≡ false }
        requires sizes { CarriesShard request.now }
        ensures { ServesIn E.seen (packed unit) request.now have self.old self.new result.0 result.1 }
    {
        match self.units.get_mut(&unit.pack()) {
            Some(held) => held.serve(request, have),
            None => unreachable!(),
        }
    }

    // Starts the unit of this word, and tells whether the record that was in doubt was found.
    pub(crate) fn start(&mut self, word: u64) -> Result<Option<Settled>, ChunkFault>
        requires { is_some (at_word word self.old.units) ≡ true }
        ensures { StartsIn E.seen word self.old self.new result }
    {
        match self.units.get_mut(&word) {
            Some(held) => start_held(held),
            None => unreachable!(),
        }
    }

    // The words of all units, ascending.
    pub(crate) fn words(&self, alloc: Global) -> Result<Vec<u64>, AllocError>
        ensures named { AreNamed self.now.vid self.now.units }
        ensures order { IfOk result (λ words. IsStrictlyIncreasing words.items) }
        ensures all { IfOk result (λ words. (word : ℕ) → list_any (λ listed. listed == word) words.items ≡ is_some (at_word word self.now.units)) }
    {
        let mut words = all_words(alloc, &self.units)?;
        words.sort_unstable();
        Ok(words)
    }

    // The units by their words.
    pub(crate) fn into_units(self) -> IndexMap<u64, HeldUnit<E>>
        ensures { result.entries ≡ self.units }
    {
        self.units
    }
}

// Starts a unit, and tells whether the record that was in doubt was found.
fn start_held<E: Extent>(held: &mut HeldUnit<E>) -> Result<Option<Settled>, ChunkFault>
    ensures { StartsOne E.seen held.old held.new result }
{
    let was_in_doubt = held.is_in_doubt();
    let unit = held.unit();
    match held.start() {
        Ok(found) => Ok(told(was_in_doubt, unit, found)),
        Err(fault) => Err(fault),
    }
}

fn told(was_in_doubt: bool, unit: UnitName, found: bool) -> Option<Settled>
    ensures { result ≡ (if was_in_doubt then Some (record { unit = unit; found = found }) else None) }
{
    if was_in_doubt {
        Some(Settled { unit, found })
    } else {
        None
    }
}

// All words, in the map's order.
fn all_words<V>(alloc: Global, units: &IndexMap<u64, V>) -> Result<Vec<u64>, AllocError>
    ensures words { IfOk result (λ words. words.items ≡ keys units.now) }
    ensures unique { IsDistinct nat_eq (keys units.now) }
{
    units.keys().copied().collect(alloc)
}
