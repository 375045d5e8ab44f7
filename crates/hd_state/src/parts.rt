//! What states are made of: a log with what its live edits take away and add, what is kept of the objects, and reverse rows.
ghost use Rattle.std.specs.Prelude.{◌≡◌, [], List, IfOk};
ghost use Rattle.std.specs.Arc.{arc_value};
ghost use Rattle.hd_terms.specs.declared.Event.{Event as OneEvent};
ghost use Rattle.hd_reverse.specs.Reverse.{IsReverseOf};
ghost use Rattle.hd_strength.specs.Removed.{IsRemovedBy};
ghost use Rattle.hd_view.specs.Added.{IsAddedBy};
ghost use Rattle.hd_state.specs.Moves.{ChangesEdits};
ghost use Rattle.hd_state.specs.Next.{IsNextLog};
ghost use Rattle.hd_state.specs.Opening.{IsKeptOf};

use crate::repairing::{Moved, adds_root, moved_by};
use hd_graph::Graph;
use hd_log::Front;
use hd_reverse::ReverseRows;
use hd_strength::{Removed, from_removed};
use hd_supports::Supports;
use hd_terms::{NoMemory, settled_supports_give_strengths};
use hd_totals::{GroupPages, GroupTotals, LastChanges};
use hd_view::AddedRoots;
use std::alloc::Global;
use std::sync::Arc;
use std::thread::{Threads, join};

/// A log, what its live edits take away, and the roots that its events add.
#[derive(Drop)]
pub(crate) struct LogParts {
    pub(crate) front: Front,
    pub(crate) removed: Arc<Removed>,
    pub(crate) added: Arc<AddedRoots>,
}

/// What is kept of the objects: their strengths with supports, when these last changed, the totals of groups, which pages have
/// objects of a group, and how many edges the objects have at least whose strength the last event changed. The pages never change.
#[derive(Drop)]
pub(crate) struct KeptParts {
    pub(crate) supports: Arc<Supports>,
    pub(crate) last_changes: Arc<LastChanges>,
    pub(crate) totals: Arc<GroupTotals>,
    pub(crate) pages: Arc<GroupPages>,
    pub(crate) moved: u64,
}

impl LogParts {
    /// A log over a graph, with what its live edits take away and the roots that its events add.
    pub(crate) fn of(alloc: Global, graph: &Graph, front: Front) -> Result<LogParts, NoMemory>
        ensures log { IfOk result (λ parts. parts.front ≡ front) }
        ensures removed { IfOk result (λ parts. IsRemovedBy graph.now front (arc_value parts.removed)) }
        ensures added { IfOk result (λ parts. IsAddedBy graph.now front (arc_value parts.added)) }
    {
        let removed = Removed::of(alloc, graph, &front)?;
        let added = AddedRoots::of(alloc, graph, &front)?;
        let removed = Arc::new(alloc, removed)?;
        let added = Arc::new(alloc, added)?;
        Ok(LogParts {
            front,
            removed,
            added,
        })
    }
}

/// What the live edits of a log take away, by what those of the log before it take away, and the edit by which the two differ.
fn moved_removed(
    alloc: Global,
    graph: &Graph,
    removed: &Removed,
    moved: Moved,
) -> Result<Removed, NoMemory>
    ensures { IfOk result (λ t. (before after : List OneEvent) → IsRemovedBy graph.now before removed.now → ChangesEdits before after moved.done moved.edit → IsRemovedBy graph.now after t) }
{
    if moved.done {
        let more = removed.with(alloc, graph, moved.edit)?;
        return Ok(more);
    }
    let fewer = removed.without(alloc, graph, moved.edit)?;
    Ok(fewer)
}

/// What the live edits of a log take away, by what those of the log before it take away, which has one event fewer. Where that
/// event adds a root, or takes one back that does, the two are one and shared.
pub(crate) fn next_removed(
    alloc: Global,
    graph: &Graph,
    removed: &Arc<Removed>,
    before: &Front,
    after: &Front,
) -> Result<Arc<Removed>, NoMemory>
    requires next { IsNextLog before.now after.now }
    requires removed { IsRemovedBy graph.now before.now (arc_value removed.now) }
    ensures { IfOk result (λ t. IsRemovedBy graph.now after.now (arc_value t)) }
{
    let moved = moved_by(before, after);
    if adds_root(moved.edit) {
        return Ok(Arc::try_clone(removed)?);
    }
    let next = moved_removed(alloc, graph, removed, moved)?;
    Ok(Arc::new(alloc, next)?)
}

impl KeptParts {
    /// What is kept of the objects of a graph under the log with no event.
    pub(crate) fn from_scratch<R: Threads + Sync>(
        rt: &R,
        alloc: Global,
        graph: &Graph,
        log: &LogParts,
    ) -> Result<KeptParts, NoMemory>
        requires empty { log.now.front ≡ [] }
        requires removed { IsRemovedBy graph.now log.now.front (arc_value log.now.removed) }
        ensures { IfOk result (IsKeptOf graph.now log.now.front) }
    {
        settled_supports_give_strengths();
        let supports = from_removed(rt, alloc, graph, &log.front, &log.removed)?;
        let last_changes = LastChanges::none(alloc, graph.objects())?;
        let (totals, pages) = GroupTotals::of(rt, alloc, graph, &supports)?;
        Ok(KeptParts {
            supports: Arc::new(alloc, supports)?,
            last_changes: Arc::new(alloc, last_changes)?,
            totals: Arc::new(alloc, totals)?,
            pages: Arc::new(alloc, pages)?,
            moved: 0,
        })
    }
}

/// What is kept of the objects of a graph under the log with no event, and the graph's reverse rows. Neither needs the other, so
/// they are made side by side; where the system refuses a thread, one after the other.
pub(crate) fn kept_and_reverse<R: Threads + Sync>(
    rt: &R,
    alloc: Global,
    graph: &Graph,
    log: &LogParts,
) -> Result<(KeptParts, ReverseRows), NoMemory>
    requires empty { log.now.front ≡ [] }
    requires removed { IsRemovedBy graph.now log.now.front (arc_value log.now.removed) }
    ensures kept { IfOk result (λ r. IsKeptOf graph.now log.now.front r.0) }
    ensures reverse { IfOk result (λ r. IsReverseOf graph.now r.1) }
{
    // What is kept is made by this thread: it goes into many small pages, and the first thread of a program gets memory for
    // these quicker than another.
    let (reverse, kept) = join(
        rt,
        || -> Result<ReverseRows, NoMemory>
            ensures { IfOk result (λ rows. IsReverseOf graph.entry.now rows) }
        { ReverseRows::of(rt, alloc, graph) },
        || -> Result<KeptParts, NoMemory>
            requires empty { log.now.front ≡ [] }
            requires removed { IsRemovedBy graph.now log.now.front (arc_value log.now.removed) }
            ensures { IfOk result (IsKeptOf graph.entry.now log.entry.now.front) }
        { KeptParts::from_scratch(rt, alloc, graph, log) },
    );
    Ok((kept?, reverse?))
}
