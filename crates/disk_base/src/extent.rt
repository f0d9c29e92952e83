//! A file, and what a crash may leave of it.

ghost use Rattle.std.specs.Prelude.{◌≡◌, ◌+◌, ◌<◌, ◌≤◌, length, IfOk, IfSome};
ghost use Rattle.disk_base.specs.Disk.{FileView, IsFile, ReadsAt, Reads, Grows, Writes, Syncs};

use crate::{Failed, NoMemory};

/// A file.
///
/// It is seen as a `FileView`: its bytes where it tells them, what a crash may leave, a clock, room and
/// spare, and how many calls were made on the device and how often one failed.
///
/// **Calls.** Each call but `grow` is one call on the device, whatever it answers. It fails exactly where the
/// count of faults rises in it, and nothing else raises that count.
///
/// **What a crash may leave.** Bytes that were written since the last sync are unsettled: after a crash
/// each range that was written, and the part past the end that the file had at that sync, may hold any
/// bytes, and the file may end anywhere from that end up to its present one. All other bytes stay. After
/// a sync that answers Ok a crash leaves exactly what a read gives. A write or a sync that answers
/// `Failed` may have done any part of its work.
///
/// **A failed sync** leaves what a read gives. Systems are known that drop what was written when a sync
/// fails, and that call the next sync a success. A form over such a system keeps to this by answering `Failed`
/// to each later call: then no read shows what was dropped, and no sync settles it.
///
/// **Moments.** A file has a clock, a number that never falls. What a crash at some moment since might
/// have left is kept as a set for each number, so that a caller can say of each moment inside a call of
/// its own what a crash there leaves: `AtEachMoment`, which goes on from call to call by the laws of
/// `Moments`.
///
/// **Room and spare.** A write takes no memory, so whoever writes first asks for it by `grow`: for room
/// up to the end of what will be written, and for spare, of which each write and each sync uses 1 at most.
///
/// A file that tells nothing of its content meets the clauses on what a crash leaves by the set of all
/// contents.
pub trait Extent: Drop {
    /// What the file is seen as.
    ghost seen: { Self → FileView };

    /// How many bytes the file has.
    fn len(&mut self) -> Result<u64, Failed>
        ensures reads { Reads (seen self.old) (seen self.new) result }
        ensures length { IfOk result (λ n. IfSome (seen self.old).content (λ bytes. n ≡ length bytes)) };

    /// Reads bytes from a place on into `out`, and answers how many: fewer than `out` has only where the
    /// file ends.
    fn read_at(&mut self, at: u64, out: &mut [u8]) -> Result<usize, Failed>
        ensures reads { Reads (seen self.old) (seen self.new) result }
        ensures count { IfOk result (λ n. n ≤ length out.new) }
        ensures bytes { IfOk result (λ n. IfSome (seen self.old).content (λ bytes. ReadsAt n at out.new bytes)) };

    /// Makes room up to `end` and spare for 8 writes and syncs. It is no call on the device.
    fn grow(&mut self, end: u64) -> Result<(), NoMemory>
        ensures grows { Grows end (seen self.old) (seen self.new) result };

    /// Writes bytes from a place on, over what is there and past the end. The place isn't past the end,
    /// the write ends within the room, and there is spare. It takes no memory.
    fn write_at(&mut self, at: u64, bytes: &[u8]) -> Result<(), Failed>
        requires place { IfSome (seen self.old).content (λ was. at ≤ length was) }
        requires room { at + length bytes.now ≤ (seen self.old).room }
        requires spare { 0 < (seen self.old).spare }
        ensures writes { Writes at bytes.now (seen self.old) (seen self.new) result };

    /// Settles what was written. There is spare. It takes no memory.
    fn sync(&mut self) -> Result<(), Failed>
        requires { 0 < (seen self.old).spare }
        ensures syncs { Syncs (seen self.old) (seen self.new) result };

    /// What is true of every file is true of this one.
    ghost is_file: { (file : Self) → IsFile (seen file) };
}
