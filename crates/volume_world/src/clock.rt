//! The clock of a volume.

ghost use Rattle.std.specs.Prelude.{◌≡◌, ◌≤◌, ◌+◌, min};
ghost use Rattle.code_mode.specs.VolumeShape.{last_time};

/// The clock stands still at this time.
const LAST: u64 = 1 << 62;

/// The time so many ticks later.
pub(crate) fn later(time: u64, by: u32) -> u64
    requires { time ≤ last_time }
    ensures later { result ≡ min (time + by) last_time }
    ensures last { result ≤ last_time }
{
    (time + u64::from(by)).min(LAST)
}
