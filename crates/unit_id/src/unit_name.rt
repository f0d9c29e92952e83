//! The name of a unit.

ghost use Rattle.std.specs.Prelude.{◌≡◌, ◌+◌, ◌^◌, ◌%◌, ◌<◌, ◌≤◌, ◌↔◌, ◌⊎◌, ℕ, IfSome, IfOk};

use std::marker::Model;
use thiserror::Error;

/// The last epoch that a unit may have.
const LAST_EPOCH: u32 = 16_777_215;

/// A unit is named by its volume, its index there and an epoch of 1 to 16,777,215. Moving a unit
/// keeps volume and index and raises the epoch.
#[derive(Clone, Copy, Debug, PartialEq, Eq, PartialOrd, Ord)]
pub struct UnitName {
    pub vid: u32,
    pub index: u8,
    pub epoch: u32,
}

/// Why a name was refused.
#[derive(Clone, Copy, Debug, PartialEq, Eq, Error)]
pub enum UnitFault {
    /// The epoch is 0 or above 16,777,215.
    #[error("the epoch is not 1 to 16777215")]
    BadEpoch,
}

impl Model for UnitName {
    ghost use Rattle.unit_id.specs.UnitName.{Name, IsName};

    ghost Value = { Name };

    ghost view = { λ n. record { vid = n.vid; index = n.index; epoch = n.epoch } };

    ghost invariant = { λ n. IsName (record { vid = n.vid; index = n.index; epoch = n.epoch }) };

    ghost inverse = { λ n. record { vid = n.vid; index = n.index; epoch = n.epoch } };
}

impl UnitName {
    ghost use Rattle.unit_id.specs.UnitName.{Name, IsName, packed, IsOneToOne};

    /// The name of these three numbers.
    pub fn new(vid: u32, index: u8, epoch: u32) -> Result<UnitName, UnitFault>
        ensures ok { (n : Name) → (result ≡ Ok n) ↔
            (IsName n × (n ≡ record { vid = vid; index = index; epoch = epoch })) }
        ensures bad { (result ≡ Err UnitFault.BadEpoch) ↔ ((epoch ≡ 0) ⊎ (16777215 < epoch)) }
    {
        if epoch == 0 || epoch > LAST_EPOCH {
            return Err(UnitFault::BadEpoch);
        }
        Ok(UnitName { vid, index, epoch })
    }

    /// The word that stands for the name.
    pub fn pack(&self) -> u64
        ensures word { result ≡ packed self.now }
        ensures name { IsName self.now }
    {
        (u64::from(self.vid) << 32) + (u64::from(self.index) << 24) + u64::from(self.epoch)
    }

    /// The name whose word this is. Only a word whose low 24 bits are 0 is no name's.
    pub fn unpack(word: u64) -> Option<UnitName>
        ensures some { (n : Name) → (result ≡ Some n) ↔ (IsName n × (packed n ≡ word)) }
        ensures none { (result ≡ None) ↔ (word % 2 ^ 24 ≡ 0) }
    {
        let epoch = (word % 16_777_216) as u32;
        if epoch == 0 {
            return None; // no name's word
        }
        let index = (word / 16_777_216 % 256) as u8;
        let vid = (word / 4_294_967_296) as u32;
        Some(UnitName { vid, index, epoch })
    }

    /// The name with the next epoch, which the last epoch doesn't have.
    pub fn next(&self) -> Option<UnitName>
        ensures some { IfSome result (λ n. n ≡ record self.now { epoch = self.now.epoch + 1 }) }
        ensures none { (result ≡ None) ↔ (self.now.epoch ≡ 16777215) }
    {
        if self.epoch == LAST_EPOCH {
            return None;
        }
        Some(UnitName {
            vid: self.vid,
            index: self.index,
            epoch: self.epoch + 1,
        })
    }

    /// Two names with one word are one name.
    pub fn packed_is_one_to_one()
        ensures { IsOneToOne }
    {}
}
