//! The slots of an object as they are shown.
ghost use Rattle.std.specs.Prelude.{◌≡◌, ◌<◌, length, IfOk};
ghost use Rattle.hd_terms.specs.Dump.{object_at};
ghost use Rattle.hd_terms.specs.SlotRows.{slot_rows};
ghost use Rattle.hd_strength.specs.Removed.{IsRemovedBy};
ghost use Rattle.hd_queries.specs.Shown.{shown};

use hd_graph::SlotRead;
use hd_terms::{NoMemory, SlotMode, SlotRow};
use hd_view::Edited;
use std::alloc::Global;

/// How a slot is shown, by what it refers to and whether a live edit takes its reference away.
fn row_of(read: SlotRead, removed: bool) -> SlotRow
    ensures { result ≡ shown read removed }
{
    let mode = if read.id == 0 {
        SlotMode::Null
    } else if read.target.is_none() {
        SlotMode::Absent
    } else if removed {
        SlotMode::Cut
    } else {
        SlotMode::Stands
    };
    SlotRow {
        slot: read.slot,
        kind: read.kind,
        id: read.id,
        mode,
    }
}

/// All slots of an object, in their order.
///
/// # Errors
///
/// Memory ran out.
pub fn rows_of(alloc: Global, edited: Edited<'_>, o: u32) -> Result<Vec<SlotRow>, NoMemory>
    requires removed { IsRemovedBy edited.graph.now edited.front.now edited.removed.now }
    requires object { o < length edited.graph.now.objects }
    ensures { IfOk result (λ v. v.items ≡ slot_rows edited.entry.graph.now edited.entry.front.now (object_at edited.entry.graph.now o)) }
{
    let slots = edited.graph.slots_len(o);
    let mut rows = Vec::with_capacity(alloc, slots as usize)?;
    for i in 0..slots {
        let read = edited.graph.slots(o, i);
        rows.push(row_of(read, edited.removed.slot(edited.graph, o, i, read.kind)))?;
    }
    Ok(rows)
}
