//! The roots as they are shown.
ghost use Rattle.std.specs.Prelude.{◌≡◌, ◌<◌, not, length, slice_get, Some, IfOk};
ghost use Rattle.hd_terms.specs.declared.Event.{Event};
ghost use Rattle.hd_terms.specs.Dump.{Root};
ghost use Rattle.hd_terms.specs.EditedDump.{dump_root};
ghost use Rattle.hd_terms.specs.Log.{live_edit, live_flags};
ghost use Rattle.hd_terms.specs.RootRows as shown;
ghost use Rattle.hd_strength.specs.Removed.{IsRemovedBy};
ghost use Rattle.hd_queries.specs.RootsShown.{dump_rows, row_by};

use hd_strength::live_edit;
use hd_terms::{Edit, NoMemory, RootMode, RootRow};
use hd_view::Edited;
use std::alloc::Global;

/// How a root is shown, by whether its ID is an object's and whether a live edit drops it.
fn mode_of(has_object: bool, dropped: bool) -> RootMode
    ensures { result ≡ shown.root_mode has_object (not dropped) }
{
    if !has_object {
        RootMode::Absent
    } else if dropped {
        RootMode::Dropped
    } else {
        RootMode::Stands
    }
}

/// The row of a root of the dump.
fn dump_row(edited: Edited<'_>, r: u32) -> RootRow
    requires removed { IsRemovedBy edited.graph.now edited.front.now edited.removed.now }
    requires root { r < length edited.graph.now.roots }
    ensures { (root : Root) → slice_get edited.entry.graph.now.roots r ≡ Some root
        → result ≡ shown.root_row edited.entry.graph.now edited.entry.front.now (dump_root (r, root)) }
{
    let number = u64::from(r);
    let root = edited.graph.roots(r);
    RootRow {
        number,
        kind: Some(root.kind),
        id: root.id,
        mode: mode_of(root.object.is_some(), edited.removed.root(number)),
    }
}

/// The row of the root that event k adds, where the event is live.
fn added_row(edited: Edited<'_>, live: &[bool], k: u32) -> Option<RootRow>
    requires removed { IsRemovedBy edited.graph.now edited.front.now edited.removed.now }
    requires event { k < length edited.front.now }
    requires flags { live.now ≡ live_flags edited.front.now }
    ensures { (e : Event) → slice_get edited.entry.front.now k ≡ Some e
        → result ≡ row_by edited.entry.graph.now edited.entry.front.now k (live_edit edited.entry.front.now (k, e)) }
{
    let Edit::Add(id) = live_edit(edited.front, live, k)? else {
        return None;
    };
    let number = u64::from(edited.graph.roots_len()) + u64::from(k);
    let has_object = edited.graph.index_of(id).is_some();
    Some(RootRow {
        number,
        kind: None,
        id,
        mode: mode_of(has_object, edited.removed.root(number)),
    })
}

/// The rows of the dump's roots, in their order.
fn dump_rows(alloc: Global, edited: Edited<'_>) -> Result<Vec<RootRow>, NoMemory>
    requires { IsRemovedBy edited.graph.now edited.front.now edited.removed.now }
    ensures { IfOk result (λ v. v.items ≡ dump_rows edited.entry.graph.now edited.entry.front.now (length edited.entry.graph.now.roots)) }
{
    let mut rows = Vec::with_capacity(alloc, edited.graph.roots_len() as usize)?;
    for r in 0..edited.graph.roots_len() {
        rows.push(dump_row(edited, r))?;
    }
    Ok(rows)
}

/// The rows of all roots, in the order of their numbers: those of the dump, and those that live edits add.
///
/// # Errors
///
/// Memory ran out.
pub fn root_rows(alloc: Global, edited: Edited<'_>) -> Result<Vec<RootRow>, NoMemory>
    requires { IsRemovedBy edited.graph.now edited.front.now edited.removed.now }
    ensures { IfOk result (λ v. v.items ≡ shown.root_rows edited.entry.graph.now edited.entry.front.now) }
{
    let mut rows = dump_rows(alloc, edited)?;
    let live = edited.front.flags();
    for k in 0..edited.front.len() {
        if let Some(row) = added_row(edited, live, k) {
            rows.push(row)?;
        }
    }
    Ok(rows)
}
