//! How a record is written behind those of a chunk.

ghost use Rattle.std.specs.Prelude.{◌≡◌, ◌⊎◌, true, IfSome, IsSome};
ghost use Rattle.disk_base.specs.Disk.{LeavesExactly};
ghost use Rattle.gate_log.specs.LogFile.{IsLogOf, bodies_of};
ghost use Rattle.gate_log.specs.GateLog.{shown, IfStarted};
ghost use Rattle.shard_record.specs.Spelling.{HasSizes};
ghost use Rattle.chunk_store.specs.Chunk.{ChunkCall};
ghost use Rattle.chunk_store.specs.Writing.{AppendEnds, RefusesFull, AppendsRecord, IsAppendFault, fault_by_append};

use crate::ChunkFault;
use disk_base::Extent;
use gate_log::{GateLog, LogFault};
use shard_record::{ShardRecord, write};
use std::alloc::Global;

/// Writes a record at the end of a log that is started, and answers its place.
pub fn append_record<E: Extent>(
    alloc: Global,
    log: &mut GateLog<E>,
    item: &ShardRecord,
) -> Result<u64, ChunkFault>
    requires started { IsSome log.old.end }
    requires sizes { HasSizes item.now }
    requires whole { IfSome (E.seen log.old.file).content (λ file. IsLogOf file (bodies_of file) × LeavesExactly file (E.seen log.old.file).images) }
    ensures call { ChunkCall (E.seen log.old.file) (E.seen log.new.file) result }
    ensures ends { AppendEnds item.now (shown E.seen log.old) (shown E.seen log.new) result }
    ensures full { RefusesFull item.now log.old.end result }
    ensures appends { IfStarted (shown E.seen log.old) (λ bodies. AppendsRecord bodies item.now (shown E.seen log.old) (shown E.seen log.new) result) }
{
    let body = write(alloc, item)?;
    match log.append(alloc, body.as_slice()) {
        Ok(place) => Ok(place),
        Err(fault) => Err(fault_of(fault)),
    }
}

// Why a log that is started took no record.
fn fault_of(fault: LogFault) -> ChunkFault
    requires { IsAppendFault fault }
    ensures { result ≡ fault_by_append fault }
{
    match fault {
        LogFault::Fault => ChunkFault::Fault,
        LogFault::Full { end } => ChunkFault::Full { end },
        LogFault::Memory => ChunkFault::Memory,
        _ => unreachable!(),
    }
}
