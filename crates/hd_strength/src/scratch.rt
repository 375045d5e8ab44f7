//! Strengths from scratch.
ghost use Rattle.std.specs.Prelude.{◌≡◌, ℕ, ◌≤◌, ◌^◌, ◌<◌, length, map, IfOk};
ghost use Rattle.hd_terms.specs.EditedDump.{standing};
ghost use Rattle.hd_terms.specs.Settled.{Settled, reached_at};
ghost use Rattle.hd_strength.specs.Found.{AreSettled, strength_of};
ghost use Rattle.hd_strength.specs.Parts.{AreWhole, HaveFound, found_in, lists_in};
ghost use Rattle.hd_strength.specs.Removed.{IsRemovedBy};

use crate::edited::Edited;
use crate::part::Part;
use crate::removed::Removed;
use crate::roots::begin;
use crate::rounds::{Search, spread};
use hd_graph::Graph;
use hd_log::Front;
use hd_supports::{PackedReached, Strengths, Supports};
use hd_terms::{NoMemory, Strength};
use std::alloc::Global;
use std::thread::Threads;

/// What a search finds in a graph under a log, by what the log's live edits take away: all that is kept of the objects, or
/// their strengths alone.
fn find<R: Threads + Sync>(
    rt: &R,
    alloc: Global,
    edited: Edited<'_>,
    whole: bool,
) -> Result<Search, NoMemory>
    requires { IsRemovedBy edited.graph.now edited.front.now edited.removed.now }
    ensures { IfOk result (λ found. HaveFound edited.entry.graph.now edited.entry.front.now whole found.parts.items) }
{
    let search = begin(rt, alloc, edited, whole)?;
    let found = spread(rt, edited, search)?;
    Ok(found)
}

/// What all parts keep of their objects, in order. Each part's memory is given back when what it has is copied.
fn join_kept(alloc: Global, parts: Vec<Part>) -> Result<Vec<PackedReached>, NoMemory>
    requires { AreWhole parts.items }
    ensures { IfOk result (λ kept. kept.items ≡ found_in parts.items) }
{
    let mut kept = Vec::new(alloc);
    for part in parts {
        let mut list = part.into_found().into_kept();
        kept.append(&mut list)?;
    }
    Ok(kept)
}

/// The strengths that all parts found, in the order of their objects' numbers. There is room for `objects` of them at
/// once, so that nothing is copied twice.
fn join_strengths(alloc: Global, parts: Vec<Part>, objects: u32) -> Result<Vec<Strength>, NoMemory>
    ensures { IfOk result (λ strengths. strengths.items ≡ map strength_of (found_in parts.items)) }
{
    let mut strengths = Vec::with_capacity(alloc, objects as usize)?;
    for part in parts {
        let mut list = part.into_found().into_strengths();
        strengths.append(&mut list)?;
    }
    Ok(strengths)
}

/// What each part keeps of its objects, in order.
fn lists_of(alloc: Global, parts: Vec<Part>) -> Result<Vec<Strengths>, NoMemory>
    requires whole { AreWhole parts.items }
    requires few { length (found_in parts.items) < 2 ^ 32 }
    ensures { IfOk result (λ lists. lists.items ≡ lists_in parts.items) }
{
    let mut lists = Vec::new(alloc);
    for part in parts {
        lists.push(Strengths::of(part.into_found().into_kept()))?;
    }
    Ok(lists)
}

/// Strengths, supports and stamps of the objects of a graph under a log, by what the log's live edits take away. What each
/// part keeps is put into pages by a thread of its own.
///
/// # Errors
///
/// Memory ran out.
pub fn from_removed<R: Threads + Sync>(
    rt: &R,
    alloc: Global,
    graph: &Graph,
    front: &Front,
    removed: &Removed,
) -> Result<Supports, NoMemory>
    requires { IsRemovedBy graph.now front.now removed.now }
    ensures count { IfOk result (λ ks. length ks ≡ length graph.now.objects) }
    ensures settled { IfOk result (λ ks. Settled (standing graph.now front.now) ks) }
    ensures stamps { IfOk result (λ ks. (o : ℕ) → (reached_at ks o).stamp ≤ length graph.now.objects) }
{
    let edited = Edited {
        graph,
        front,
        removed,
    };
    let Search { parts, whole: _ } = find(rt, alloc, edited, true)?;
    let lists = lists_of(alloc, parts)?;
    let supports = Supports::of_parts(rt, alloc, lists)?;
    Ok(supports)
}

/// Strengths, supports and stamps of the objects of a graph under a log.
///
/// # Errors
///
/// Memory ran out.
pub fn from_scratch<R: Threads + Sync>(
    rt: &R,
    alloc: Global,
    graph: &Graph,
    front: &Front,
) -> Result<Strengths, NoMemory>
    ensures count { IfOk result (λ ks. length ks ≡ length graph.now.objects) }
    ensures settled { IfOk result (λ ks. Settled (standing graph.now front.now) ks) }
    ensures stamps { IfOk result (λ ks. (o : ℕ) → (reached_at ks o).stamp ≤ length graph.now.objects) }
{
    let removed = Removed::of(alloc, graph, front)?;
    let edited = Edited {
        graph,
        front,
        removed: &removed,
    };
    let Search { parts, whole: _ } = find(rt, alloc, edited, true)?;
    let kept = join_kept(alloc, parts)?;
    Ok(Strengths::of(kept))
}

/// The strengths of the objects of a graph under a log, in the order of their numbers, with no supports and no stamps. It
/// takes two bytes for each object, and where there are several parts 128 KiB for each of them; beside these, what waits and
/// what is offered.
///
/// # Errors
///
/// Memory ran out.
pub fn strengths_alone<R: Threads + Sync>(
    rt: &R,
    alloc: Global,
    graph: &Graph,
    front: &Front,
) -> Result<Vec<Strength>, NoMemory>
    ensures count { IfOk result (λ v. length v.items ≡ length graph.now.objects) }
    ensures settled { IfOk result (λ v. AreSettled (standing graph.now front.now) v.items) }
{
    let removed = Removed::of(alloc, graph, front)?;
    let edited = Edited {
        graph,
        front,
        removed: &removed,
    };
    let Search { parts, whole: _ } = find(rt, alloc, edited, false)?;
    let strengths = join_strengths(alloc, parts, graph.objects())?;
    Ok(strengths)
}
