//! What became unreachable from one log to another, with its bytes and by its groups.
ghost use Rattle.std.specs.Prelude.{◌≡◌, ℕ, ◌+◌, ◌<◌, ◌≤◌, ◌^◌, length, IfOk, OnOk};
ghost use Rattle.hd_terms.specs.Fell.{Falls};
ghost use Rattle.hd_terms.specs.Kept.{AreKept};
ghost use Rattle.hd_terms.specs.Listed.{AreTopRows};
ghost use Rattle.hd_terms.specs.Totals.{IsTotalOf};
ghost use Rattle.hd_totals.specs.Counting.{totals_of};
ghost use Rattle.hd_totals.specs.Fallen.{falls_from};
ghost use Rattle.hd_totals.specs.LastChanges.{AreLastChanges};
ghost use Rattle.hd_queries.specs.Compared.{AreBothKept, IsSameOnQuiet};
ghost use Rattle.hd_queries.specs.Freed.{AreFreedBetween, CanCountMore, IsFreedWith};

use crate::compared::{Compared, compare};
use crate::solved::Solved;
use hd_graph::Graph;
use hd_terms::{ClassRow, NoMemory, Strength, one_strength, settled_supports_give_strengths};
use hd_totals::{Counted, GroupTotals, PAGE_OBJECTS, Total, falls, ranked};
use std::alloc::Global;

/// What became unreachable: its total, and the totals of its groups, those with the most bytes first.
#[derive(Drop)]
pub struct Freed {
    /// How many objects, and their recorded bytes.
    pub total: Total,
    /// The groups that have such objects.
    pub rows: Vec<ClassRow>,
}

/// The same of some of the objects, which are counted in their groups as unreachable.
#[derive(Drop)]
pub(crate) struct FreedPart {
    pub(crate) total: Total,
    pub(crate) groups: Counted,
}

/// Counts an object, if it becomes unreachable.
fn count_object(
    graph: &Graph,
    compared: Compared<'_>,
    o: u32,
    part: &mut FreedPart,
) -> Result<(), NoMemory>
    requires object { o < length graph.now.objects }
    requires kept { AreBothKept (length graph.now.objects) compared }
    requires room { CanCountMore part.old.total (totals_of part.old.groups) }
    ensures { OnOk result (
        IsFreedWith graph.now (falls_from compared.entry.earlier.strengths.now compared.entry.later.strengths.now) o
        part.old.total (totals_of part.old.groups) part.new.total (totals_of part.new.groups)
        ) }
{
    if falls(compared.before(o), compared.after(o)) {
        let bytes = graph.bytes_of(o);
        part.total = part.total.plus(bytes);
        part.groups
            .add(graph.group_of(o), Strength::Unreachable, bytes)?;
    }
    Ok(())
}

/// What became unreachable of the objects from one number on, before another. Quiet pages are skipped.
fn count_part(
    alloc: Global,
    graph: &Graph,
    compared: Compared<'_>,
    start: u32,
    end: u32,
) -> Result<FreedPart, NoMemory>
    requires kept { AreBothKept (length graph.now.objects) compared }
    requires same { IsSameOnQuiet compared }
    requires order { start ≤ end }
    requires within { end ≤ length graph.now.objects }
    ensures { IfOk result (λ part.
        AreFreedBetween graph.now (falls_from compared.entry.earlier.strengths.now compared.entry.later.strengths.now) start end
        part.total (totals_of part.groups)
        ) }
{
    let mut part = FreedPart {
        total: Total::none(),
        groups: Counted::none(alloc),
    };
    let mut o = start;
    while o < end {
        if o % PAGE_OBJECTS == 0 && compared.is_quiet(o / PAGE_OBJECTS) {
            o += PAGE_OBJECTS.min(end - o);
        } else {
            count_object(graph, compared, o, &mut part)?;
            o += 1;
        }
    }
    Ok(part)
}

/// How many objects became unreachable from one log to another, and their recorded bytes; and the groups of these, with the same of
/// each, those with the most bytes first. Where the later log begins with the earlier, only the pages are gone through of which an
/// object's strength has changed since; else all that any event of one of them changed.
///
/// # Errors
///
/// Memory ran out.
pub fn freed_rows(alloc: Global, earlier: Solved<'_>, later: Solved<'_>) -> Result<Freed, NoMemory>
    requires one_dump { earlier.graph.now ≡ later.graph.now }
    requires kept_earlier { AreKept earlier.graph.now earlier.front.now earlier.strengths.now }
    requires kept_later { AreKept later.graph.now later.front.now later.strengths.now }
    requires changes_earlier { AreLastChanges earlier.graph.now earlier.front.now earlier.strengths.now earlier.last_changes.now }
    requires changes_later { AreLastChanges later.graph.now later.front.now later.strengths.now later.last_changes.now }
    ensures total { IfOk result (λ f. IsTotalOf later.entry.graph.now (Falls later.entry.graph.now earlier.entry.front.now later.entry.front.now) f.total.count f.total.bytes) }
    ensures rows { IfOk result (λ f. AreTopRows later.entry.graph.now (Falls later.entry.graph.now earlier.entry.front.now later.entry.front.now) f.rows.items) }
{
    settled_supports_give_strengths();
    one_strength();
    let both = compare(earlier, later);
    let end = later.graph.objects();
    let part = count_part(alloc, later.graph, both, 0, end)?;
    let FreedPart { total, groups } = part;
    let totals = GroupTotals::of_counted(alloc, groups)?;
    let rows = totals.classes(alloc, Strength::Unreachable)?;
    let rows = ranked(rows);
    Ok(Freed { total, rows })
}
