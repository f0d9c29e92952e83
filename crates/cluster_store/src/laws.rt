//! Laws of scripts over a store.

ghost use Rattle.cluster_store.specs.Script.{GetsShowPuts, OneCommandMore};

use disk_base::Farm;
use volume_turns::laws::puts_are_shown;

/// A script with a command behind it that was answered is a script.
pub fn one_command_more<F: Farm>()
    ensures { OneCommandMore F.Disk.seen F.Disk.File.seen }
{}

/// Over files that tell what they hold, each get of a script shows the bytes that the last put of its name carried.
pub fn gets_show_puts<F: Farm>()
    ensures { GetsShowPuts F.Disk.seen F.Disk.File.seen }
{
    puts_are_shown();
}
