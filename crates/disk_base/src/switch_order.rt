//! A claim on every moment of a shelf and its files: a mark is set only once another file is whole.

ghost use Rattle.std.specs.Prelude.{◌≡◌, ◌≢◌, ◌≤◌, [], Some, true};
ghost use Rattle.disk_base.specs.Disk.{LeavesExactly};
ghost use Rattle.disk_base.specs.JointMoments.{AtEachJointMoment, IsOnceWhole, with_one};

use crate::{Extent, Shelf};
use std::alloc::Global;

/// Writes an empty file whole and settles it, and says whether that was done.
fn fill<F: Extent>(file: &mut F, bytes: &[u8]) -> bool
    requires { (F.seen file.old).content ≡ Some [] }
    ensures clock { (F.seen file.old).clock ≤ (F.seen file.new).clock }
    ensures whole { result ≡ true → LeavesExactly bytes.now (F.seen file.new).images }
{
    let Ok(()) = file.grow(bytes.len() as u64) else {
        return false;
    };
    let Ok(()) = file.write_at(0, bytes) else {
        return false;
    };
    file.sync().is_ok()
}

/// Makes a file, fills it, and then sets a mark in another file of the shelf, which is out and empty. At each
/// moment a crash leaves a mark only beside the whole file.
pub fn switch_over<H: Shelf>(
    shelf: &mut H,
    alloc: Global,
    name: u64,
    whole: &[u8],
    mark_name: u64,
    mark: &mut H::File,
) -> bool
    requires told { (H.seen shelf.old).is_told ≡ true }
    requires apart { mark_name ≢ name }
    requires empty { (H.File.seen mark.old).content ≡ Some [] }
    requires settled { LeavesExactly [] (H.File.seen mark.old).images }
    ensures { AtEachJointMoment H.seen H.File.seen (IsOnceWhole mark_name name whole.now) (with_one shelf.old mark_name mark.old) (with_one shelf.new mark_name mark.new) }
{
    let Ok(mut file) = shelf.make(alloc, name) else {
        return false;
    };
    let filled = fill(&mut file, whole);
    shelf.hold(name, file);
    if !filled {
        return false;
    }
    fill(mark, b"m")
}
