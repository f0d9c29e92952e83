//! How a put begins, by a look at its volume.

ghost use Rattle.std.specs.Prelude.{◌≤◌, IsOk};
ghost use Rattle.volume_world.specs.Beginning.{BeginsBy};

use crate::Reply;
use crate::puts::PutBook;
use disk_base::NoMemory;
use volume_entry::View;

/// Begins a put of this blob under the lease that the view shows, unless a task has the lock or the blob was begun
/// before. Where there is room for a put it takes no memory.
pub(crate) fn begin_put(puts: &mut PutBook, bid: u64, view: View) -> Result<Reply, NoMemory>
    ensures begins { BeginsBy bid view puts.old puts.new result }
    ensures succeeds { 1 ≤ puts.old.spare → IsOk result }
{
    if let Some(lock) = &view.held {
        return Ok(Reply::Locked { task: lock.task });
    }
    if puts.is_begun(bid) {
        return Ok(Reply::BeginTwice);
    }
    puts.begin(bid, view.lease)?;
    Ok(Reply::Begun {
        end: view.lease,
        units: view.units,
    })
}
