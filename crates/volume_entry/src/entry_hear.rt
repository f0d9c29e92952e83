//! What an entry hears of the answers to requests.

ghost use Rattle.std.specs.Prelude.{◌≡◌, false, OnOk, OnErr, IfErr, IsOk};
ghost use Rattle.unit_id.specs.Messages.{request_of, answer_of};
ghost use Rattle.volume_entry.specs.Manager.{Manager};
ghost use Rattle.volume_entry.specs.ManagerStep.{hear};
ghost use Rattle.volume_entry.specs.HeardCalls.{Follows, Hears, is_listing};
ghost use Rattle.volume_entry.specs.HeardMemory.{HasRoom as HasRoomFor};
ghost use Rattle.volume_entry.specs.Entry.{Stands};
ghost use Rattle.volume_entry.specs.declared.fault.EntryFault.TheVariants.{Memory};

use crate::book::Book;
use crate::entry::Entry;
use crate::fault::EntryFault;
use crate::heard::Heard;
use disk_base::Extent;
use unit_id::{Answer, Request};

impl<E: Extent> Book<E> {
    /// Notes in memory what the answer to a request tells. Only memory can be wanting.
    fn hear(&self, heard: &mut Heard, request: &Request, answer: &Answer) -> Result<(), EntryFault>
        ensures heard { OnOk result (Hears self.now.part.homes self.now.part.lock (request_of request.now) (answer_of answer.now) heard.old heard.new) }
        ensures same { OnErr result (Follows (λ m. m) heard.old heard.new) }
        ensures named { IfErr result (λ fault. fault ≡ Memory) }
        ensures succeeds { HasRoomFor heard.old → is_listing (answer_of answer.now) ≡ false → IsOk result }
    {
        let homes = self.table.homes.as_slice();
        let lock = self.table.lock.as_ref();
        Ok(heard.hear(self.alloc, homes, lock, request, answer)?)
    }
}

impl<E: Extent> Entry<E> {
    /// Notes what the answer to a request tells. After `reserve` only a listing takes memory.
    ///
    /// # Errors
    ///
    /// `Memory`, which leaves what is told as it was.
    pub fn hear(&mut self, request: &Request, answer: &Answer) -> Result<(), EntryFault>
        ensures told { OnOk result ((m : Manager) → Stands E.seen self.old m → Stands E.seen self.new (hear (request_of request.now) (answer_of answer.now) m)) }
        ensures same { OnErr result ((m : Manager) → Stands E.seen self.old m → Stands E.seen self.new m) }
        ensures book { (self.new.book ≡ self.old.book) × (self.new.broken ≡ self.old.broken) }
        ensures named { IfErr result (λ fault. fault ≡ Memory) }
        ensures succeeds { HasRoomFor self.old.heard → is_listing (answer_of answer.now) ≡ false → IsOk result }
    {
        self.book.hear(&mut self.heard, request, answer)
    }
}
