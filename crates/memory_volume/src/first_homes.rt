//! Where the units of a volume in memory first stand.

ghost use Rattle.std.specs.Prelude.{◌≡◌, ◌≤◌, ◌==◌, cond};
ghost use Rattle.memory_volume.specs.Setting.{first_home, first_homes};

use crate::setup::VID;
use unit_id::{Home, Homes, UnitName};

/// The epoch with which the unit of an index begins.
fn epoch_of(index: u8, first: u32) -> u32
    requires { (1 ≤ first) × (first ≤ 16777215) }
    ensures value { result ≡ cond (index == 0) first 1 }
    ensures bounds { (1 ≤ result) × (result ≤ 16777215) }
{
    if index == 0 { first } else { 1 }
}

/// The home of the unit of an index: the disk of the next number.
fn home(index: u8, first: u32) -> Home
    requires { (1 ≤ first) × (first ≤ 16777215) }
    ensures { result ≡ first_home first index }
{
    let epoch = epoch_of(index, first);
    Home {
        unit: UnitName {
            vid: VID,
            index,
            epoch,
        },
        disk: u32::from(index) + 1,
        broken: false,
    }
}

/// The homes of the first so many indexes.
pub(crate) fn homes(total: u8, first: u32) -> Homes
    requires few { total ≤ 27 }
    requires epoch { (1 ≤ first) × (first ≤ 16777215) }
    ensures { result ≡ first_homes first total }
{
    let mut homes = Homes::empty();
    'indexes: for index in 0..total {
        homes.push(home(index, first));
    }
    homes
}
