//! The numbers, the references and the shapes of the objects of a file, made side by side by some threads.
//!
//! Each thread goes once over a part of the sub-records, and makes the numbers, the rows and the shapes of their objects. Those of
//! each part then stand behind those of the one before. Where that can't be, since an ID is in two parts or another than the first
//! has a fault, all objects are numbered anew by one thread. Where the system refuses a thread, its part is made after the others.
ghost use Rattle.std.specs.Prelude.{◌≡◌, ◌+◌, ◌<◌, ◌≤◌, ◌^◌, IfOk, IfErr, IfSome, length};
ghost use Rattle.hd_classes.specs.Known.{known_at};
ghost use Rattle.hd_graph.specs.ArrayRows.{AreWithin};
ghost use Rattle.hd_graph.specs.Made.{IsPart, Joins, IsFirstFaultOrMemory};
ghost use Rattle.hd_graph.specs.Numbering.{IsNumbered, IsObjectFaultOrMemory, HaveRoom};
ghost use Rattle.hd_graph.specs.Building.{HasAllRows, HasAllShapes, AreFewAndShort};

use crate::filling::{RowParts, Rows};
use crate::number::NumberedStretch;
use crate::numbering::{Numbered, number_alone};
use crate::stretch::{MadeStretch, make_stretch};
use hd_classes::Classes;
use hd_subs::DumpSubs;
use hd_terms::{IdSize, ReadFault};
use hd_threads::map_indices;
use std::alloc::Global;
use std::thread::Threads;

/// The numbers, the rows and the shapes of the objects of one of some parts, into which the sub-records are cut by their number.
fn make_part<'a>(
    alloc: Global,
    bytes: &'a [u8],
    list: &DumpSubs<'_>,
    classes: &Classes,
    id_size: IdSize,
    secret: u64,
    parts: usize,
    part: usize,
) -> Result<MadeStretch<'a>, ReadFault>
    requires within { AreWithin id_size bytes.now list.now }
    requires small { length bytes.now < 2 ^ 31 }
    requires classes { AreFewAndShort classes.now }
    requires part { part < parts }
    requires few { parts ≤ 16 }
    ensures { IsPart (known_at classes.now) bytes.now id_size list.now parts part result }
{
    let first = list.len() * part / parts;
    let end = list.len() * (part + 1) / parts;
    make_stretch(alloc, bytes, list, classes, id_size, secret, first, end)
}

/// The numbers of the objects of one more part, behind those of the parts before, and its rows and shapes: `None` if it has a fault
/// and isn't the first, or if one of its IDs is in a part before.
fn join_part<'a>(
    numbers: NumberedStretch,
    rows: &mut RowParts<'a>,
    part: Result<MadeStretch<'a>, ReadFault>,
) -> Result<Option<NumberedStretch>, ReadFault>
    requires { IfOk part (λ made. HaveRoom numbers.tally made.numbers.tally) }
    ensures ok { IfOk result (λ joined. IfSome joined (λ all. Joins part.entry numbers rows.old.slot_tables.items rows.old.shapes.items all rows.new.slot_tables.items rows.new.shapes.items)) }
    ensures err { IfErr result (λ f. IsFirstFaultOrMemory part.entry rows.old.slot_tables.items f) }
{
    let made = match part {
        Ok(made) => made,
        Err(fault) if rows.slot_tables.is_empty() => return Err(fault),
        Err(_) => return Ok(None),
    };
    let Some(joined) = numbers.followed_by(made.numbers)? else {
        return Ok(None);
    };
    rows.push(made.rows)?;
    Ok(Some(joined))
}

/// The numbers of the objects of a file, and the references and the shapes of all its sub-records of objects, if no ID is in two of
/// as many parts of them.
pub(crate) fn numbers_and_rows<'a, R: Threads + Sync>(
    rt: &R,
    alloc: Global,
    bytes: &'a [u8],
    list: &DumpSubs<'_>,
    classes: &Classes,
    id_size: IdSize,
    secret: u64,
    parts: usize,
) -> Result<(Numbered, Option<Rows<'a>>), ReadFault>
    requires within { AreWithin id_size bytes.now list.now }
    requires small { length bytes.now < 2 ^ 31 }
    requires classes { AreFewAndShort classes.now }
    requires some { 1 ≤ parts }
    requires few { parts ≤ 16 }
    ensures numbers { IfOk result (λ r. IsNumbered (known_at classes.now) id_size list.now r.0.ids r.0.roots.items r.0.tally) }
    ensures rows { IfOk result (λ r. IfSome r.1 (λ rows. HasAllRows (known_at classes.now) bytes.now id_size list.now rows.slot_table)) }
    ensures shapes { IfOk result (λ r. IfSome r.1 (λ rows. HasAllShapes (known_at classes.now) id_size list.now rows.shapes.objects)) }
    ensures err { IfErr result (λ f. IsObjectFaultOrMemory (known_at classes.now) id_size list.now f) }
{
    let make = |part: usize| -> Result<MadeStretch<'_>, ReadFault>
        requires within { AreWithin id_size bytes.now list.now }
        requires small { length bytes.now < 2 ^ 31 }
        requires classes { AreFewAndShort classes.now }
        requires part { (part < parts) × (parts ≤ 16) }
        ensures { IsPart (known_at classes.entry.now) bytes.entry.now id_size list.entry.now parts part result }
    { make_part(alloc, bytes, list, classes, id_size, secret, parts, part) };
    let made = map_indices(rt, alloc, parts, &make)?;
    let mut numbers = NumberedStretch::none(alloc, secret)?;
    let mut rows = RowParts::with_capacity(alloc, parts)?;
    for part in made {
        let Some(joined) = join_part(numbers, &mut rows, part)? else {
            let numbered = number_alone(alloc, list, classes, id_size, secret)?;
            return Ok((numbered, None));
        };
        numbers = joined;
    }
    let rows = rows.join(alloc)?;
    Ok((numbers.indexed(), Some(rows)))
}
