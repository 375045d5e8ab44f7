//! The references to an object, by the reverse rows of its graph.
ghost use Rattle.std.specs.Prelude.{◌≡◌, ℕ, ◌<◌, length, slice_get, Some, IfOk};
ghost use Rattle.hd_terms.specs.Dump.{SlotEntry, object_at};
ghost use Rattle.hd_terms.specs.IntoRows.{into_row, into_rows};
ghost use Rattle.hd_reverse.specs.Reverse.{IsReverseOf};
ghost use Rattle.hd_strength.specs.Removed.{IsRemovedBy};

use hd_reverse::ReverseRows;
use hd_terms::{IntoRow, NoMemory, SlotMode};
use hd_view::Edited;
use std::alloc::Global;

/// The row of the reference at an index of an object's slots.
fn row_at(edited: Edited<'_>, source: u32, index: u32) -> IntoRow
    requires removed { IsRemovedBy edited.graph.now edited.front.now edited.removed.now }
    requires object { source < length edited.graph.now.objects }
    requires index { index < length (object_at edited.graph.now source).slots }
    ensures { (o : ℕ) (s : SlotEntry) → slice_get (object_at edited.entry.graph.now source).slots index ≡ Some s
        → result ≡ into_row edited.entry.front.now o (object_at edited.entry.graph.now source) s }
{
    let read = edited.graph.slots(source, index);
    let mode = if edited.removed.slot(edited.graph, source, index, read.kind) {
        SlotMode::Cut
    } else {
        SlotMode::Stands
    };
    IntoRow {
        source: edited.graph.id_of(source),
        slot: read.slot,
        kind: read.kind,
        mode,
    }
}

/// The rows of all references to an object, in the order of their sources and slots.
///
/// # Errors
///
/// Memory ran out.
pub fn into_rows(
    alloc: Global,
    edited: Edited<'_>,
    reverse: &ReverseRows,
    o: u32,
) -> Result<Vec<IntoRow>, NoMemory>
    requires removed { IsRemovedBy edited.graph.now edited.front.now edited.removed.now }
    requires reverse { IsReverseOf edited.graph.now reverse.now }
    requires object { o < length edited.graph.now.objects }
    ensures { IfOk result (λ v. v.items ≡ into_rows edited.entry.graph.now edited.entry.front.now o) }
{
    let references = reverse.into_len(o);
    let mut rows = Vec::with_capacity(alloc, references as usize)?;
    for i in 0..references {
        let referrer = reverse.into(o, i);
        let row = row_at(edited, referrer.source, referrer.index);
        rows.push(row)?;
    }
    Ok(rows)
}
