//! How many objects have each strength, and how many bytes, with no edit.
ghost use denote.Param.Send.{IsSync};
ghost use Rattle.std.specs.Prelude.{◌≡◌, ◌+◌, ◌<◌, ◌≤◌, ◌^◌, [], length, map, IfOk};
ghost use Rattle.hd_terms.specs.declared.Strength.{Strength as OneStrength};
ghost use Rattle.hd_terms.specs.Totals.{IsTotal};
ghost use Rattle.hd_strength.specs.Found.{only_strength};
ghost use Rattle.hd_queries.specs.Totals.{AreCounted};
ghost use Rattle.hd_totals.specs.Totals.{total_for};

use hd_graph::Graph;
use hd_log::Front;
use hd_strength::strengths_alone;
use hd_terms::{NoMemory, Strength, one_strength, settled_supports_give_strengths};
use hd_totals::StrengthTotals;
use std::alloc::Global;
use std::thread::{Threads, join};

/// In how many shares at most the objects are counted. The system often puts two new threads on one processor and leaves another one
/// idle; one that has done its share takes a thread that waits, so there are more shares than processors.
const MOST_SHARES: u32 = 16;

/// How many objects a share has, where there are fewer shares. A thread is worth no less.
const SHARE: u32 = 65_536;

/// The totals of the objects from one number on, before another.
fn count_part(graph: &Graph, strengths: &[Strength], start: u32, end: u32) -> StrengthTotals
    requires count { length strengths.now ≡ length graph.now.objects }
    requires order { start ≤ end }
    requires within { end ≤ length graph.now.objects }
    ensures { AreCounted graph.now (map only_strength strengths.now) start end result }
{
    let mut totals = StrengthTotals::none();
    for o in start..end {
        totals.add(strengths[o as usize], graph.bytes_of(o));
    }
    totals
}

/// The same as `count_part`, in `shares` shares side by side. The calling thread begins a thread for each but the last, and counts
/// that one itself; where the system refuses a thread, one share after the other.
#[cycle(shares)]
fn count_shares<R: Threads + Sync>(
    rt: &R,
    graph: &Graph,
    strengths: &[Strength],
    start: u32,
    end: u32,
    shares: u32,
) -> StrengthTotals
    requires count { length strengths.now ≡ length graph.now.objects }
    requires order { start ≤ end }
    requires within { end ≤ length graph.now.objects }
    ensures { AreCounted graph.now (map only_strength strengths.now) start end result }
{
    if shares <= 1 {
        return count_part(graph, strengths, start, end);
    }
    let middle = start + (end - start) / shares;
    let shares_left = shares - 1;
    let share = || -> StrengthTotals
        requires { (length strengths.now ≡ length graph.now.objects) × (start ≤ middle) × (middle ≤ length graph.now.objects) }
        ensures { AreCounted graph.entry.now (map only_strength strengths.entry.now) start middle result }
    { count_part(graph, strengths, start, middle) };
    let others = || -> StrengthTotals
        requires { IsSync R.row × (length strengths.now ≡ length graph.now.objects) × (middle ≤ end) × (end ≤ length graph.now.objects) }
        ensures { AreCounted graph.entry.now (map only_strength strengths.entry.now) middle end result }
    { count_shares(rt, graph, strengths, middle, end, shares_left) };
    let (one, other) = join(rt, share, others);
    one.sum(other)
}

/// The totals of all objects.
fn count_totals<R: Threads + Sync>(rt: &R, graph: &Graph, strengths: &[Strength]) -> StrengthTotals
    requires { length strengths.now ≡ length graph.now.objects }
    ensures { AreCounted graph.now (map only_strength strengths.now) 0 (length graph.now.objects) result }
{
    let objects = graph.objects();
    let shares = MOST_SHARES.min(objects / SHARE + 1);
    count_shares(rt, graph, strengths, 0, objects, shares)
}

/// How many objects of a graph have each strength with no edit, and their recorded bytes. Nothing is kept for edits.
///
/// # Errors
///
/// Memory ran out.
pub fn opening_totals<R: Threads + Sync>(
    rt: &R,
    alloc: Global,
    graph: &Graph,
) -> Result<StrengthTotals, NoMemory>
    ensures { IfOk result (λ t. (s : OneStrength) → IsTotal graph.now [] s (total_for t s).count (total_for t s).bytes) }
{
    settled_supports_give_strengths();
    one_strength();
    let front = Front::empty(alloc)?;
    let strengths = strengths_alone(rt, alloc, graph, &front)?;
    let totals = count_totals(rt, graph, &strengths);
    Ok(totals)
}
