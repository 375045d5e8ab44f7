//! Another support for an object that lost its own.
ghost use Rattle.std.specs.Prelude.{◌≡◌, ◌+◌, ◌<◌, ◌≤◌, ◌⊎◌, true, length, Contains, Some, IfSome};
ghost use Rattle.hd_terms.specs.Ranks.{rank};
ghost use Rattle.hd_terms.specs.Settled.{reached_at, PassesOn};
ghost use Rattle.hd_edges.specs.Marks.{marked_edge};
ghost use Rattle.hd_repair.specs.Alone.{HasOneSource};
ghost use Rattle.hd_repair.specs.Hanging.{AreInOrder, HaveSources, IsGiven, IsHung, IsSupportFor, NoneLate};
ghost use Rattle.hd_repair.specs.Losing.{sources_of};
ghost use Rattle.hd_repair.specs.Spreading.{rank_at, offered_strength, IsEdgeWithin};

use crate::hanging::{is_before, is_hung};
use hd_edges::{EdgeMark, Edges};
use hd_supports::Supports;
use hd_terms::{Mode, Support};

/// A standing root on an object.
fn standing_root<E: Edges>(edges: &mut E, o: u32) -> Option<u64>
    requires object { o < (E.rows edges.old).objects }
    ensures same { E.rows edges.new ≡ E.rows edges.old }
    ensures looks { E.look_count edges.new ≤ E.look_count edges.old + length ((E.rows edges.old).roots o) }
    ensures root { IfSome result (λ n. Contains (E.rows edges.old).standing.roots (record { number = n; target = o })) }
{
    for i in 0..edges.root_len(o) {
        let mark = edges.root(o, i);
        if mark.stands {
            return Some(mark.number);
        }
    }
    None
}

/// Whether a source is worth a walk: none is known yet, or it comes before the one that is.
fn is_earlier(kept: &Supports, source: u32, best: Option<Support>) -> bool
    requires { source < length kept.now }
{
    if let Some(Support::Edge { source: known, .. }) = best {
        return known >= kept.len() || is_before(kept, source, known);
    }
    true
}

/// Whether an edge gives its target what that has, from an object that is seen to hang on a root.
fn is_support(mode: Mode, kept: &Supports, edge: EdgeMark, steps: &mut u64) -> bool
    requires edge { IsEdgeWithin (length kept.now) (marked_edge edge) }
    requires in_order { AreInOrder kept.now NoneLate }
    requires sources { HaveSources kept.now }
    ensures stands { result ≡ true → edge.stands ≡ true }
    ensures passes_on { result ≡ true → PassesOn mode (reached_at kept.now edge.source) }
    ensures enough { result ≡ true → rank_at kept.now edge.target ≤ rank (offered_strength kept.now (marked_edge edge).edge) }
    ensures hung { result ≡ true → IsHung kept.now edge.source }
{
    let source = kept.strength(edge.source);
    if !edge.stands {
        return false;
    }
    if source.rank() < mode.least_passed_on().rank() {
        return false;
    }
    if source.weaker(edge.kind.strength()).rank() < kept.strength(edge.target).rank() {
        return false;
    }
    is_hung(kept, edge.source, steps)
}

/// The better one of a support that is known and what an edge is.
fn better_support(
    mode: Mode,
    kept: &Supports,
    best: Option<Support>,
    edge: EdgeMark,
    steps: &mut u64,
) -> Option<Support>
    requires edge { IsEdgeWithin (length kept.now) (marked_edge edge) }
    requires in_order { AreInOrder kept.now NoneLate }
    requires sources { HaveSources kept.now }
    ensures { IfSome result (λ by. (best ≡ Some by) ⊎ IsGiven mode kept.now (marked_edge edge) by) }
{
    if !is_earlier(kept, edge.source, best) {
        return best;
    }
    if !is_support(mode, kept, edge, steps) {
        return best;
    }
    Some(Support::Edge {
        source: edge.source,
        slot: edge.slot,
    })
}

/// How many edges to an object are compared, once one of them is known to be a support.
const MOST_COMPARED: u32 = 4096;

/// Whether no better support is looked for: the source comes before the object, so that no stamp has to be lifted, or many
/// edges have been compared.
fn is_enough(kept: &Supports, support: Option<Support>, o: u32, compared: u32) -> bool
    requires { o < length kept.now }
{
    if let Some(Support::Edge { source, .. }) = support {
        if compared >= MOST_COMPARED {
            return true;
        }
        return source < kept.len() && is_before(kept, source, o);
    }
    false
}

/// Whether no root is on an object, and only one edge leads to it. If it lost its support, that was this edge.
pub(crate) fn has_one_source<E: Edges>(edges: &E, o: u32) -> bool
    requires { o < (E.rows edges.now).objects }
    ensures { result ≡ true → HasOneSource (E.rows edges.now) o }
{
    edges.into_len(o) == 1 && edges.root_len(o) == 0
}

/// How many steps over stored chains are allowed for each edge that is looked at.
const STEPS: u64 = 8;

/// Another root on an object that lost its support, or an edge to it, that gives it what it has and hangs on a root; of
/// edges one whose source comes early. Each root and each edge is looked at once at most.
pub(crate) fn find_support<E: Edges>(
    edges: &mut E,
    kept: &Supports,
    o: u32,
    steps: &mut u64,
) -> Option<Support>
    requires object { o < (E.rows edges.old).objects }
    requires count { length kept.now ≡ (E.rows edges.old).objects }
    requires in_order { AreInOrder kept.now NoneLate }
    requires sources { HaveSources kept.now }
    ensures same { E.rows edges.new ≡ E.rows edges.old }
    ensures looks { E.look_count edges.new ≤ E.look_count edges.old + sources_of (E.rows edges.old) o }
    ensures support { IfSome result (λ by. IsSupportFor (E.rows edges.old).standing kept.now o by) }
{
    if has_one_source(edges, o) {
        return None;
    }
    if kept.strength(o).rank() == 5 {
        if let Some(root) = standing_root(edges, o) {
            return Some(Support::Root(root));
        }
    }
    let mode = edges.mode();
    let count = edges.into_len(o);
    *steps = steps.saturating_add(STEPS * u64::from(count));
    let mut best = None;
    for i in 0..count {
        let edge = edges.into(o, i);
        best = better_support(mode, kept, best, edge, steps);
        if is_enough(kept, best, o, i) {
            return best;
        }
    }
    best
}
