//! Where an object is, as JSON.

ghost use Rattle.std.specs.Prelude.{◌≡◌, ◌<◌, ◌≤◌, ◌*◌, ◌+◌, ℕ, length, Some, IfOk, map, option_map};
ghost use Rattle.serde_json.specs.Data.{array};
ghost use Rattle.serde_json.specs.View.{view, items_of};
ghost use Rattle.serde_json.specs.Written.{compact_text};
ghost use Rattle.cluster_admin.specs.Location.{blob_data, blobs_data, unit_data, location_data, located, location_fault, largest_blob};
ghost use Rattle.cluster_admin.specs.Inside.{state_of};
ghost use Rattle.cluster_admin.specs.Refusals.{IsRefused};

use crate::admin::Admin;
use crate::fault::AdminFault;
use crate::names::Object;
use crate::picking::Seen;
use crate::volumes::volume_at;
use code_mode::Mode;
use serde_json::{Value, json};
use std::alloc::{AllocError, Global};
use unit_id::{Bytes, Home};

/// The most bytes of a blob.
const LARGEST_BLOB: u32 = 4_194_304;

/// A blob of an object, counted from 0: its bid and its bytes.
fn blob_of(alloc: Global, at: Object, place: u32) -> Result<Value, AllocError>
    requires { place * largest_blob ≤ at.size }
    ensures { IfOk result (λ blob. view blob ≡ blob_data at place) }
{
    let bid = at.bid.wrapping_add(u64::from(place));
    let size = (at.size - place * LARGEST_BLOB).min(LARGEST_BLOB);
    json!(in alloc; [bid, size])
}

/// All blobs of an object.
fn blobs_of(alloc: Global, at: Object) -> Result<Value, AllocError>
    ensures { IfOk result (λ blobs. view blobs ≡ array (items_of (blobs_data at))) }
{
    let mut blobs = Vec::new(alloc);
    for place in 0..at.size.div_ceil(LARGEST_BLOB) {
        blobs.push(blob_of(alloc, at, place)?)?;
    }
    Ok(Value::from(blobs))
}

/// A unit of a volume: its index, epoch and disk.
fn unit_of(alloc: Global, home: &Home) -> Result<Value, AllocError>
    ensures { IfOk result (λ unit. view unit ≡ unit_data home.now) }
{
    let unit = home.unit;
    let (index, epoch) = (unit.index, unit.epoch);
    json!(in alloc; [index, epoch, home.disk])
}

/// The units of a volume.
fn units_of(alloc: Global, homes: &[Home]) -> Result<Value, AllocError>
    ensures { IfOk result (λ units. view units ≡ array (items_of (map unit_data homes.now))) }
{
    let mut units = Vec::new(alloc);
    for home in homes {
        units.push(unit_of(alloc, home)?)?;
    }
    Ok(Value::from(units))
}

/// The location of an object in a volume of a mode with these units.
fn location_of(alloc: Global, at: Object, mode: Mode, homes: &[Home]) -> Result<Value, AllocError>
    ensures { IfOk result (λ location. view location ≡ location_data at mode homes.now) }
{
    let blobs = blobs_of(alloc, at)?;
    let units = units_of(alloc, homes)?;
    let name = mode.name();
    json!(in alloc; {
        "blobs": blobs,
        "mode": name,
        "size": at.size,
        "units": units,
        "vid": at.vid
    })
}

/// Its text.
fn text_of(alloc: Global, at: Object, mode: Mode, homes: &[Home]) -> Result<Bytes, AllocError>
    ensures { IfOk result (λ text. text ≡ compact_text (location_data at mode homes.now)) }
{
    let text = location_of(alloc, at, mode, homes)?.to_string(alloc)?;
    Ok(Bytes::from_vec(text.into_bytes()))
}

impl Admin {
    /// Where the object of a name is, as compact JSON: its blobs, the mode of its volume, its bytes,
    /// the units of its volume as this look shows them, and the volume.
    ///
    /// # Errors
    /// `NoName` where the name isn't held, `NoVolume` where its volume was lost.
    pub fn location(&self, name: &str, view: &Seen) -> Result<Bytes, AdminFault>
        ensures fault { IsRefused (location_fault (state_of self.now) name.now) result }
        ensures text { IfOk result (λ text. option_map compact_text (located (state_of self.now) name.now view.now.units) ≡ Some text) }
    {
        let Some(at) = self.names.get(name.as_bytes()) else {
            return Err(AdminFault::NoName);
        };
        let Some(volume) = volume_at(self.volumes.as_slice(), at.vid) else {
            return Err(AdminFault::NoVolume);
        };
        let text = text_of(self.alloc, at, volume.mode, view.units.as_slice())?;
        Ok(text)
    }
}
