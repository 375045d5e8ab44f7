//! Making the graph of a file, of which the records, the sub-records and the classes were read.
ghost use Rattle.std.specs.Prelude.{◌≡◌, [], IfOk, IfErr};
ghost use Rattle.hd_terms.specs.Workers.{IsWorkers};
ghost use Rattle.hd_terms.specs.Objects.{IsDumpOf, IsNamelessDumpOf};
ghost use Rattle.hd_terms.specs.Classes.{class_table};
ghost use Rattle.hd_terms.specs.HeapFaults.{class_faults};
ghost use Rattle.hd_records.specs.Reading.{ReadsRecords};
ghost use Rattle.hd_decode.specs.Bodies.{ReadsBodies};
ghost use Rattle.hd_classes.specs.Known.{AreClassesOf};
ghost use Rattle.hd_classes.specs.Naming.{named_classes_of};
ghost use Rattle.hd_graph.specs.Building.{IsReadFaultOrMemory};

use crate::filling::{Rows, rows_of};
use crate::graph::{Graph, Repeats};
use crate::numbering::Numbered;
use crate::sharing::numbers_and_rows;
use hd_classes::{Classes, RepeatedRecords, names_of};
use hd_hashers::secret;
use hd_records::Records;
use hd_subs::DumpSubs;
use hd_terms::{Mode, ReadFault};
use std::alloc::Global;
use std::random::RandomSource;
use std::thread::Threads;

impl Graph {
    /// The graph of a file, of which these are the records, the sub-records and the classes, and this is how phantom references
    /// are followed. It has no names that go with class objects. What is kept of records, texts and names is given up before the rows
    /// of objects are made, and the list of the sub-records before their references are found by number. This many workers, 1 to 16,
    /// make a part of the rows each.
    ///
    /// # Errors
    ///
    /// `NullObject` or `InstanceSize` at the tag of the first object with ID 0 or instance whose values don't fit its class's
    /// layout, an offset into the file in bytes; or out of memory, at 0.
    pub fn build<R: RandomSource + Threads + Sync>(
        rt: &R,
        alloc: Global,
        bytes: &[u8],
        records: Records,
        list: DumpSubs<'_>,
        classes: Classes,
        mode: Mode,
        workers: u32,
    ) -> Result<Graph, ReadFault>
        requires workers { IsWorkers workers }
        requires records { ReadsRecords bytes.now records.id_size records.strings records.loads records.segments }
        requires list { ReadsBodies records.id_size bytes.now records.segments list }
        requires classes { AreClassesOf (class_table bytes.now records.strings records.loads list) classes }
        requires no_cycle { class_faults (class_table bytes.now records.strings records.loads list) list ≡ [] }
        ensures ok { IfOk result (λ graph. IsNamelessDumpOf mode bytes.now graph) }
        ensures named { IfOk result (λ graph. IsDumpOf mode bytes.now (record graph { classes = named_classes_of (class_table bytes.now records.strings records.loads list.entry) })) }
        ensures err { IfErr result (λ f. IsReadFaultOrMemory bytes.now f) }
    {
        let id_size = records.id_size;
        let secret = secret(rt);
        let names = names_of(alloc, bytes, &records.loads, &classes, secret)?;
        drop(records);
        let RepeatedRecords { texts, loads } = classes.repeated();
        let classes = classes.without_names(alloc);
        let (numbered, all) = numbers_and_rows(
            rt,
            alloc,
            bytes,
            &list,
            &classes,
            id_size,
            secret,
            workers as usize,
        )?;
        let Numbered { ids, roots, tally } = numbered;
        let Rows { slot_table, shapes } = rows_of(
            alloc, ids, all, &classes, id_size, bytes, &list,
        )?;
        drop(list);
        let slot_table = slot_table.resolve(rt, alloc)?;
        let repeats = Repeats {
            objects: tally.repeated,
            strings: texts,
            loads,
        };
        Ok(Graph::new(
            slot_table,
            shapes,
            roots,
            repeats,
            tally.opaque,
            mode,
            names,
        ))
    }
}
