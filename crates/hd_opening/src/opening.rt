//! Opening a heap dump: the passes over its records and sub-records, and over its classes, before its graph is made.
ghost use Rattle.std.specs.Prelude.{IfOk, IfErr};
ghost use Rattle.std.specs.Arc.{arc_value};
ghost use Rattle.hd_terms.specs.Workers.{IsWorkers};
ghost use Rattle.hd_terms.specs.Objects.{IsDumpOf, IsNamelessDumpOf};
ghost use Rattle.hd_records.specs.Reading.{ReadsRecords};
ghost use Rattle.hd_decode.specs.Bodies.{IsBodiesFaultOrMemory, ReadsBodies};
ghost use Rattle.hd_classes.specs.Sources.{AreFirstTexts};
ghost use Rattle.hd_graph.specs.Building.{IsReadFaultOrMemory};

use hd_classes::{Classes, FirstTexts};
use hd_decode::{Gate, decode};
use hd_graph::Graph;
use hd_hashers::secret;
use hd_records::{Records, read_records};
use hd_subs::DumpSubs;
use hd_terms::{Mode, ReadFault};
use std::alloc::{AllocError, Global};
use std::random::RandomSource;
use std::sync::Arc;
use std::thread::{Threads, join};

/// The first texts of a file, which this thread and another one note, and its sub-records, which workers read meanwhile: those are
/// begun by a thread that does nothing else before.
fn texts_and_subs<'a, R: Threads + Sync, G: Gate>(
    rt: &R,
    alloc: Global,
    bytes: &'a [u8],
    records: &Records,
    secret: u64,
    workers: u32,
    gate: &G,
) -> (
    Result<FirstTexts, AllocError>,
    Result<DumpSubs<'a>, ReadFault>,
)
    requires workers { IsWorkers workers }
    requires records { ReadsRecords bytes.now records.now.id_size records.now.strings records.now.loads records.now.segments }
    ensures texts { IfOk result.0 (AreFirstTexts records.now.strings) }
    ensures list { IfOk result.1 (λ list. ReadsBodies records.now.id_size bytes.now records.now.segments list) }
    ensures err { IfErr result.1 (λ f. IsBodiesFaultOrMemory records.now.id_size bytes.now records.now.segments f) }
{
    let texts = || -> Result<FirstTexts, AllocError>
        ensures { IfOk result (AreFirstTexts records.entry.now.strings) }
    { FirstTexts::of(rt, alloc, &records.strings, secret) };
    let subs = || -> Result<DumpSubs<'_>, ReadFault>
        requires workers { IsWorkers workers }
        requires records { ReadsRecords bytes.now records.now.id_size records.now.strings records.now.loads records.now.segments }
        ensures list { IfOk result (λ list. ReadsBodies records.entry.now.id_size bytes.entry.now records.entry.now.segments list) }
        ensures err { IfErr result (λ f. IsBodiesFaultOrMemory records.entry.now.id_size bytes.entry.now records.entry.now.segments f) }
    { decode(rt, alloc, bytes, records, workers, gate) };
    let (list, texts) = join(rt, subs, texts);
    (texts, list)
}

/// The records of a file, its first texts and its sub-records, which `workers` workers read at once, each of which passes the gate
/// first.
fn read_file<'a, R: RandomSource + Threads + Sync, G: Gate>(
    rt: &R,
    alloc: Global,
    bytes: &'a [u8],
    secret: u64,
    workers: u32,
    gate: &G,
) -> Result<(Records, FirstTexts, DumpSubs<'a>), ReadFault>
    requires workers { IsWorkers workers }
    ensures records { IfOk result (λ r. ReadsRecords bytes.now r.0.id_size r.0.strings r.0.loads r.0.segments) }
    ensures texts { IfOk result (λ r. AreFirstTexts r.0.strings r.1) }
    ensures list { IfOk result (λ r. ReadsBodies r.0.id_size bytes.now r.0.segments r.2) }
    ensures err { IfErr result (λ f. IsReadFaultOrMemory bytes.now f) }
{
    let records = read_records(alloc, bytes)?;
    let (texts, list) = texts_and_subs(rt, alloc, bytes, &records, secret, workers, gate);
    let list = list?;
    let texts = texts?;
    Ok((records, texts, list))
}

/// The graph of a dump, without the names that go with its class objects. All of the file is read: its records, then its segments
/// by this many workers at once, 1 to 16, each of which passes the gate first, then its classes and its objects. The mode says how
/// phantom references are followed. The answer is the same for every number of workers and every gate.
///
/// # Errors
///
/// The fault of the file, with its file offset in bytes: the one of least offset in the first phase that has one, in
/// the order records, sub-records, classes, objects; or out of memory, at 0.
pub fn open_dump<R: RandomSource + Threads + Sync, G: Gate>(
    rt: &R,
    alloc: Global,
    bytes: &[u8],
    workers: u32,
    mode: Mode,
    gate: &G,
) -> Result<Arc<Graph>, ReadFault>
    requires workers { IsWorkers workers }
    ensures ok { IfOk result (λ graph. IsNamelessDumpOf mode bytes.now (arc_value graph)) }
    ensures err { IfErr result (λ f. IsReadFaultOrMemory bytes.now f) }
{
    let secret = secret(rt);
    let (records, texts, list) = read_file(rt, alloc, bytes, secret, workers, gate)?;
    let classes = Classes::build(alloc, bytes, &records, texts, &list, secret)?;
    let graph = Graph::build(rt, alloc, bytes, records, list, classes, mode, workers)?;
    let graph = Arc::new(alloc, graph)?;
    Ok(graph)
}

/// The same graph with the names that go with its class objects: those of fields and of statics.
///
/// # Errors
///
/// Those of `open_dump`.
pub fn open_named_dump<R: RandomSource + Threads + Sync, G: Gate>(
    rt: &R,
    alloc: Global,
    bytes: &[u8],
    workers: u32,
    mode: Mode,
    gate: &G,
) -> Result<Arc<Graph>, ReadFault>
    requires workers { IsWorkers workers }
    ensures ok { IfOk result (λ graph. IsDumpOf mode bytes.now (arc_value graph)) }
    ensures err { IfErr result (λ f. IsReadFaultOrMemory bytes.now f) }
{
    let secret = secret(rt);
    let (records, texts, list) = read_file(rt, alloc, bytes, secret, workers, gate)?;
    let (classes, named) = Classes::build_named(alloc, bytes, &records, texts, &list, secret)?;
    let nameless = Graph::build(rt, alloc, bytes, records, list, classes, mode, workers)?;
    let graph = Arc::new(alloc, nameless.with_classes(named))?;
    Ok(graph)
}
