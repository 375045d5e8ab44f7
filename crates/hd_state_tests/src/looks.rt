//! Repairs for one event of a log: what changes, and how many edges and roots are looked at.
ghost use Rattle.std.specs.Prelude.{◌≡◌};
ghost use Rattle.hd_state.specs.Next.{IsNextLog};
ghost use Rattle.hd_strength.specs.Removed.{IsRemovedBy};

use hd_graph::Graph;
use hd_log::Front;
use hd_reverse::ReverseRows;
use hd_state::{Indexes, Repair, repaired};
use hd_strength::{Removed, from_scratch};
use hd_supports::Supports;
use hd_terms::{Event, NoMemory, Strength};
use hd_totals::GroupTotals;
use hd_view::{AddedRoots, Edited};
use std::alloc::Global;
use std::thread::Threads;

/// The repair from a graph under one log to the graph under the next.
fn repair_over<R: Threads + Sync>(
    rt: &R,
    alloc: Global,
    before: Edited<'_>,
    after: Edited<'_>,
    many: u32,
) -> Result<Repair, NoMemory>
    requires same { after.graph.now ≡ before.graph.now }
    requires next { IsNextLog before.front.now after.front.now }
    requires before { IsRemovedBy before.graph.now before.front.now before.removed.now }
    requires after { IsRemovedBy after.graph.now after.front.now after.removed.now }
{
    let reverse = ReverseRows::of(rt, alloc, after.graph)?;
    let strengths = from_scratch(rt, alloc, before.graph, before.front)?;
    let supports = Supports::of(alloc, strengths)?;
    supports.are_few();
    let added = AddedRoots::of(alloc, after.graph, after.front)?;
    let (_totals, pages) = GroupTotals::of(rt, alloc, after.graph, &supports)?;
    let indexes = Indexes {
        reverse: &reverse,
        pages: &pages,
        added: &added,
        many,
        moved: 0,
    };
    let repair = repaired(rt, alloc, indexes, before, after, &supports)?;
    Ok(repair)
}

/// The repair from one log of a graph to the next.
fn repair_between<R: Threads + Sync>(
    rt: &R,
    alloc: Global,
    graph: &Graph,
    before: &Front,
    after: &Front,
    many: u32,
) -> Result<Repair, NoMemory>
    requires { IsNextLog before.now after.now }
{
    let taken_before = Removed::of(alloc, graph, before)?;
    let taken_after = Removed::of(alloc, graph, after)?;
    let before = Edited {
        graph,
        front: before,
        removed: &taken_before,
    };
    let after = Edited {
        graph,
        front: after,
        removed: &taken_after,
    };
    repair_over(rt, alloc, before, after, many)
}

/// No loss asks for a search afresh, or takes what it leaves apart as a whole.
pub const NEVER: u32 = u32::MAX;

/// Each loss that takes an object's support asks for a search afresh; where none is made, it takes all below apart as a whole.
pub const ALWAYS: u32 = 0;

/// The repair for one more event of a log, where the log takes the event. A search afresh is asked for after `many` objects of a
/// loss.
pub fn repair_of_event<R: Threads + Sync>(
    rt: &R,
    alloc: Global,
    graph: &Graph,
    log: &Front,
    event: Event,
    many: u32,
) -> Option<Repair> {
    let Ok(next) = log.extend(alloc, event) else {
        return None;
    };
    repair_between(rt, alloc, graph, log, &next, many).ok()
}

/// How many looks the repair for one more event of a log takes, where the log takes the event. A search afresh is asked for after
/// `many` objects of a loss.
pub fn looks_of_event<R: Threads + Sync>(
    rt: &R,
    alloc: Global,
    graph: &Graph,
    log: &Front,
    event: Event,
    many: u32,
) -> Option<u64> {
    let repair = repair_of_event(rt, alloc, graph, log, event, many)?;
    Some(repair.looks)
}

/// The ID of an object and its strength before and after an event.
pub type IdChange = (u64, Strength, Strength);

/// What the repair for one more event of a log changes, where the log takes the event. A search afresh is asked for after `many`
/// objects of a loss.
pub fn changes_of_event<R: Threads + Sync>(
    rt: &R,
    alloc: Global,
    graph: &Graph,
    log: &Front,
    event: Event,
    many: u32,
) -> Option<Vec<IdChange>> {
    let repair = repair_of_event(rt, alloc, graph, log, event, many)?;
    let mut changes = Vec::new(alloc);
    for change in &repair.changes {
        let o = change.object();
        if o >= graph.objects() {
            return None;
        }
        changes
            .push((graph.id_of(o), change.before(), change.after()))
            .ok()?;
    }
    Some(changes)
}
