//! Decoding the segments of a dump on worker threads; the sub-records come in file order.
ghost use Rattle.std.specs.Prelude.{◌≤◌, ◌<◌, ◌^◌, length, All, IfOk, IfErr};
ghost use Rattle.hd_terms.specs.Workers.{IsWorkers};
ghost use Rattle.hd_records.specs.Reading.{ReadsRecords};
ghost use Rattle.hd_decode.specs.Bodies.{ReadsBodies, IsSpanWithin, IsBodiesFaultOrMemory};
ghost use Rattle.hd_decode.specs.Shares.{IsPart, AreJoined, IsFirstFaultOrMemory, subs_in, share_at};

use crate::gate::Gate;
use crate::shares::shares_of;
use hd_records::Records;
use hd_subs::{DumpSubs, SegmentReader, Subs};
use hd_terms::{IdSize, ReadFault, Span};
use hd_threads::map_indices;
use std::alloc::Global;
use std::thread::Threads;

/// The sub-records of a worker's share of the segments, in file order.
fn read_share<'a>(
    alloc: Global,
    bytes: &'a [u8],
    id_size: IdSize,
    share: &[Span],
) -> Result<Subs<'a>, ReadFault>
    requires { All (IsSpanWithin bytes.now) share.now }
    ensures { IsPart id_size bytes.now share.now result }
{
    let mut reader = SegmentReader::new(alloc, bytes, id_size);
    for span in share {
        reader.read(*span)?;
    }
    Ok(reader.into_subs())
}

/// What workers read, one part after another, or the fault of the first part that has one.
fn join_parts<'a>(
    alloc: Global,
    parts: Vec<Result<Subs<'a>, ReadFault>>,
) -> Result<DumpSubs<'a>, ReadFault>
    requires { subs_in parts.items < 2 ^ 64 }
    ensures ok { IfOk result (λ list. AreJoined parts.entry.items list) }
    ensures err { IfErr result (λ f. IsFirstFaultOrMemory parts.entry.items f) }
{
    let mut list = DumpSubs::new(alloc);
    for part in parts {
        list.push(part?)?;
    }
    Ok(list)
}

/// The sub-records of a dump, read by this many workers at once, 1 to 16, each of which passes the gate first. `records` are
/// the file's. The answer is the same for every number of workers and every gate.
///
/// Each worker has a thread of its own; where the system refuses one, workers run one after another.
///
/// # Errors
///
/// The fault of the first segment that has one, an offset into the file in bytes (`ShortSub`, `UnknownSub` or
/// `UnknownType`); or out of memory, at 0.
pub fn decode<'a, R: Threads + Sync, G: Gate>(
    rt: &R,
    alloc: Global,
    bytes: &'a [u8],
    records: &Records,
    workers: u32,
    gate: &G,
) -> Result<DumpSubs<'a>, ReadFault>
    requires records { ReadsRecords bytes.now records.now.id_size records.now.strings records.now.loads records.now.segments }
    requires workers { IsWorkers workers }
    ensures ok { IfOk result (λ list. ReadsBodies records.now.id_size bytes.now records.now.segments list) }
    ensures err { IfErr result (λ f. IsBodiesFaultOrMemory records.now.id_size bytes.now records.now.segments f) }
{
    let id_size = records.id_size;
    let shares = shares_of(alloc, records.segments.as_slice(), workers)?;
    let shares = shares.as_slice();
    let read = |worker: usize| -> Result<Subs<'_>, ReadFault>
        requires few { length shares.now ≤ 16 }
        requires worker { worker < length shares.now }
        requires within { All (IsSpanWithin bytes.now) (share_at shares.now worker) }
        ensures { IsPart id_size bytes.entry.now (share_at shares.entry.now worker) result }
    {
        gate.enter(worker as u32);
        read_share(alloc, bytes, id_size, shares[worker])
    };
    let parts = map_indices(rt, alloc, shares.len(), &read)?;
    let list = join_parts(alloc, parts)?;
    Ok(list)
}
