//! How many objects moved from each strength to each other one, from one log to another.
ghost use Rattle.std.specs.Prelude.{◌≡◌, ℕ, ◌+◌, ◌<◌, ◌≤◌, ◌^◌, length, slice_index_or, IfOk};
ghost use Rattle.hd_terms.specs.Kept.{AreKept};
ghost use Rattle.hd_terms.specs.Listed.{AreMovedRows};
ghost use Rattle.hd_terms.specs.Ranks.{rank};
ghost use Rattle.hd_terms.specs.Records.{largest_file};
ghost use Rattle.hd_totals.specs.LastChanges.{AreLastChanges};
ghost use Rattle.hd_totals.specs.Totals.{no_total};
ghost use Rattle.hd_queries.specs.Compared.{AreBothKept, IsSameOnQuiet};
ghost use Rattle.hd_queries.specs.Moved.{move_place, AreMovesAdded, AreMovesBetween, AreMovesWith, AreMoveRows};

use crate::compared::{Compared, compare};
use crate::solved::Solved;
use hd_graph::Graph;
use hd_terms::{MovedRow, NoMemory, Strength, one_strength, settled_supports_give_strengths};
use hd_totals::{PAGE_OBJECTS, Total};
use std::alloc::Global;

/// How many pairs of strengths there are.
const PAIRS: usize = 36;

/// How many strengths are greater than one.
fn place_of(strength: Strength) -> usize
    ensures { result + rank strength ≡ 5 }
{
    match strength {
        Strength::Strong => 0,
        Strength::Soft => 1,
        Strength::Weak => 2,
        Strength::Final => 3,
        Strength::Phantom => 4,
        Strength::Unreachable => 5,
    }
}

/// The strength than which `place` others are greater.
pub(crate) fn strength_at(place: usize) -> Strength
    requires { place < 6 }
    ensures { place + rank result ≡ 5 }
{
    match place {
        0 => Strength::Strong,
        1 => Strength::Soft,
        2 => Strength::Weak,
        3 => Strength::Final,
        4 => Strength::Phantom,
        _ => Strength::Unreachable,
    }
}

/// Counts an object of `bytes` bytes for a pair of strengths.
fn add_move(totals: &mut Vec<Total>, before: Strength, after: Strength, bytes: u64)
    requires whole { length totals.old.items ≡ 36 }
    requires count { (slice_index_or totals.old.items (move_place before after) no_total).count + 1 < 2 ^ 64 }
    requires bytes { (slice_index_or totals.old.items (move_place before after) no_total).bytes + bytes < 2 ^ 64 }
    ensures { AreMovesAdded totals.old.items (move_place before after) bytes totals.new.items }
{
    let place = 6 * place_of(before) + place_of(after);
    totals[place] = totals[place].plus(bytes);
}

/// The rows of the pairs that have objects.
fn rows_of_moves(alloc: Global, totals: &[Total]) -> Result<Vec<MovedRow>, NoMemory>
    requires { length totals.now ≡ 36 }
    ensures { IfOk result (λ v. AreMoveRows totals.now 36 v.items) }
{
    let mut rows = Vec::new(alloc);
    for place in 0..PAIRS {
        let total = totals[place];
        let before = strength_at(place / 6);
        let after = strength_at(place % 6);
        if total.count > 0 {
            rows.push(MovedRow {
                before,
                after,
                count: total.count,
                bytes: total.bytes,
            })?;
        }
    }
    Ok(rows)
}

/// Counts an object for the pair of its strengths, where these differ.
fn count_object(graph: &Graph, compared: Compared<'_>, o: u32, totals: &mut Vec<Total>)
    requires object { o < length graph.now.objects }
    requires kept { AreBothKept (length graph.now.objects) compared }
    requires whole { length totals.old.items ≡ 36 }
    requires counts { (i : ℕ) → i < 36 → (slice_index_or totals.old.items i no_total).count + 1 < 2 ^ 64 }
    requires sizes { (i : ℕ) → i < 36 → (slice_index_or totals.old.items i no_total).bytes + largest_file < 2 ^ 64 }
    ensures { AreMovesWith graph.now compared.entry.earlier.strengths.now compared.entry.later.strengths.now o totals.old.items totals.new.items }
{
    let before = compared.before(o);
    let after = compared.after(o);
    if before != after {
        add_move(totals, before, after, graph.bytes_of(o));
    }
}

/// The totals of the objects from one number on, before another. Quiet pages are skipped.
fn count_part(
    alloc: Global,
    graph: &Graph,
    compared: Compared<'_>,
    start: u32,
    end: u32,
) -> Result<Vec<Total>, NoMemory>
    requires kept { AreBothKept (length graph.now.objects) compared }
    requires same { IsSameOnQuiet compared }
    requires order { start ≤ end }
    requires within { end ≤ length graph.now.objects }
    ensures { IfOk result (λ v. AreMovesBetween graph.now compared.entry.earlier.strengths.now compared.entry.later.strengths.now start end v.items) }
{
    let mut totals = vec![in alloc; Total::none(); PAIRS]?;
    let mut o = start;
    while o < end {
        if o % PAGE_OBJECTS == 0 && compared.is_quiet(o / PAGE_OBJECTS) {
            o += PAGE_OBJECTS.min(end - o);
        } else {
            count_object(graph, compared, o, &mut totals);
            o += 1;
        }
    }
    Ok(totals)
}

/// The pairs of strengths that have objects which had the first under the earlier log and have the second under the later, in their
/// order, with how many these are and their recorded bytes. Where the later log begins with the earlier, only the pages are gone
/// through of which an object's strength has changed since; else all that any event of one of them changed.
///
/// # Errors
///
/// Memory ran out.
pub fn moved_rows(
    alloc: Global,
    earlier: Solved<'_>,
    later: Solved<'_>,
) -> Result<Vec<MovedRow>, NoMemory>
    requires one_dump { earlier.graph.now ≡ later.graph.now }
    requires kept_earlier { AreKept earlier.graph.now earlier.front.now earlier.strengths.now }
    requires kept_later { AreKept later.graph.now later.front.now later.strengths.now }
    requires changes_earlier { AreLastChanges earlier.graph.now earlier.front.now earlier.strengths.now earlier.last_changes.now }
    requires changes_later { AreLastChanges later.graph.now later.front.now later.strengths.now later.last_changes.now }
    ensures { IfOk result (λ v. AreMovedRows later.entry.graph.now earlier.entry.front.now later.entry.front.now v.items) }
{
    settled_supports_give_strengths();
    one_strength();
    let both = compare(earlier, later);
    let end = later.graph.objects();
    let totals = count_part(alloc, later.graph, both, 0, end)?;
    let rows = rows_of_moves(alloc, &totals)?;
    Ok(rows)
}
