//! A volume of the next number.

ghost use Rattle.cluster_admin.specs.Inside.{state_of};
ghost use Rattle.volume_maker.specs.Making.{HasRoom, MakesVolume};

use crate::fault::NoVolume;
use cluster_admin::Admin;
use code_mode::Mode;
use disk_base::Farm;
use farm_volume::FarmVolume;
use std::alloc::Global;

/// Gives a volume of this mode the next number and a disk for each of its units, as the placer in use chooses, and makes it
/// over the farm's shelves.
///
/// # Errors
///
/// `Refused` where the tables have no number or too few disks left: then nothing changes. `NotMade` where a call on the farm,
/// a shelf or a file failed, or memory was out: every shelf is at the farm then, and the number isn't given again.
pub fn make_volume<F: Farm>(
    alloc: Global,
    admin: &mut Admin,
    farm: &mut F,
    mode: Mode,
) -> Result<FarmVolume<F>, NoVolume>
    requires { HasRoom F.Disk.seen (state_of admin.old) (F.seen farm.old) }
    ensures { MakesVolume F.Disk.seen F.Disk.File.seen mode (state_of admin.old) (state_of admin.new) (F.seen farm.old) (F.seen farm.new) result }
{
    let disks = admin.disk_count();
    let (vid, homes) = match admin.new_volume(mode) {
        Ok(given) => given,
        Err(cause) => return Err(NoVolume::Refused { cause }),
    };
    match FarmVolume::make(alloc, farm, vid, mode, disks, homes.as_slice()) {
        Ok(volume) => Ok(volume),
        Err(cause) => {
            admin.lose_volume(vid);
            Err(NoVolume::NotMade { cause })
        }
    }
}
