//! Whether supports, strengths and stamps are settled: one look at each object's support, at each root and at each
//! reference. No search is made.
ghost use Rattle.std.specs.Prelude.{◌≡◌, ◌<◌, ◌≤◌, ◌↔◌, ℕ, Some, Contains, length, IfOk, IsTrue};
ghost use Rattle.hd_terms.specs.Ranks.{rank};
ghost use Rattle.hd_terms.specs.Log.{live_flags};
ghost use Rattle.hd_terms.specs.Paths.{Edge, RootEntry};
ghost use Rattle.hd_terms.specs.EditedDump.{standing};
ghost use Rattle.hd_terms.specs.Settled.{Settled, reached_at, IsBefore, IsSupported, PassesOn};
ghost use Rattle.hd_terms.specs.declared.Support.TheVariants as supports;
ghost use Rattle.hd_strength.specs.Rows.{width, edge_at, root_at};
ghost use Rattle.hd_strength.specs.Growing.{rank_at, offered_strength};
ghost use Rattle.hd_settled.specs.Checking.{Explains, GivesNoMore, MakesStrong};
ghost use Rattle.hd_strength.specs.Removed.{IsRemovedBy};

use hd_graph::Graph;
use hd_log::Front;
use hd_strength::{Edited, Removed, held_object, standing_read};
use hd_supports::Strengths;
use hd_terms::{EdgeKind, NoMemory, Slot, Strength, Support};
use std::alloc::Global;

/// Whether an object passes its strength on.
fn passes_on(graph: &Graph, strengths: &Strengths, o: u32) -> bool
    requires { o < length strengths.now }
    ensures { IsTrue result ↔ PassesOn graph.now.mode (reached_at strengths.now o) }
{
    strengths.strength(o).rank() >= graph.mode().least_passed_on().rank()
}

/// Whether an object comes before another: by a greater strength, or by the same and a lesser stamp.
fn is_before(strengths: &Strengths, source: u32, o: u32) -> bool
    requires source { source < length strengths.now }
    requires object { o < length strengths.now }
    ensures { IsTrue result ↔ IsBefore (reached_at strengths.now source) (reached_at strengths.now o) }
{
    let given = strengths.strength(source).rank();
    let had = strengths.strength(o).rank();
    had < given || (had == given && strengths.stamp(source) < strengths.stamp(o))
}

/// Whether an object has a strength.
fn has_strength(strengths: &Strengths, o: u32, strength: Strength) -> bool
    requires { o < length strengths.now }
    ensures { IsTrue result ↔ ((reached_at strengths.now o).strength ≡ strength) }
{
    strengths.strength(o) == strength
}

/// Whether the root of a number supports an object: it stands on the object, which is strong.
fn root_supports(edited: Edited<'_>, live: &[bool], strengths: &Strengths, o: u32, r: u64) -> bool
    requires removed { IsRemovedBy edited.graph.now edited.front.now edited.removed.now }
    requires flags { live.now ≡ live_flags edited.front.now }
    requires object { o < length strengths.now }
    ensures { IsTrue result ↔ IsSupported (standing edited.entry.graph.now edited.entry.front.now) strengths.now o (supports.Root r) }
{
    let Some(held) = held_object(edited, live, r) else {
        return false;
    };
    held == o && has_strength(strengths, o, Strength::Strong)
}

/// Whether a reference of a kind from another object explains an object's strength: the other passes its strength on and
/// comes before the object, and the object has what the reference gives.
fn explains(graph: &Graph, strengths: &Strengths, source: u32, kind: EdgeKind, o: u32) -> bool
    requires source { source < length strengths.now }
    requires object { o < length strengths.now }
    ensures { IsTrue result ↔ Explains graph.now.mode (reached_at strengths.now source) kind (reached_at strengths.now o) }
{
    let given = strengths.strength(source).weaker(kind.strength());
    if !passes_on(graph, strengths, source) {
        return false;
    }
    if !has_strength(strengths, o, given) {
        return false;
    }
    is_before(strengths, source, o)
}

/// Whether the reference in a slot of another object supports an object: it stands, leads to the object, and explains its
/// strength.
fn edge_supports(edited: Edited<'_>, strengths: &Strengths, o: u32, source: u32, slot: Slot) -> bool
    requires removed { IsRemovedBy edited.graph.now edited.front.now edited.removed.now }
    requires count { length strengths.now ≡ length edited.graph.now.objects }
    requires object { o < length strengths.now }
    ensures { IsTrue result ↔ IsSupported (standing edited.entry.graph.now edited.entry.front.now) strengths.now o (supports.Edge source slot) }
{
    if source >= edited.graph.objects() {
        return false;
    }
    let Some(index) = edited.graph.slot_index(source, slot) else {
        return false;
    };
    let Some(read) = standing_read(edited, source, index) else {
        return false;
    };
    read.target == o && explains(edited.graph, strengths, source, read.kind, o)
}

/// Whether an object's support is what it says.
fn is_supported(edited: Edited<'_>, live: &[bool], strengths: &Strengths, o: u32) -> bool
    requires removed { IsRemovedBy edited.graph.now edited.front.now edited.removed.now }
    requires flags { live.now ≡ live_flags edited.front.now }
    requires count { length strengths.now ≡ length edited.graph.now.objects }
    requires object { o < length strengths.now }
    ensures { IsTrue result ↔ IsSupported (standing edited.entry.graph.now edited.entry.front.now) strengths.now o (reached_at strengths.now o).support }
{
    match strengths.support(o) {
        Support::Nothing => has_strength(strengths, o, Strength::Unreachable),
        Support::Root(r) => root_supports(edited, live, strengths, o, r),
        Support::Edge { source, slot } => edge_supports(edited, strengths, o, source, slot),
    }
}

/// Whether each object's support is what it says.
fn are_supported(edited: Edited<'_>, live: &[bool], strengths: &Strengths) -> bool
    requires removed { IsRemovedBy edited.graph.now edited.front.now edited.removed.now }
    requires flags { live.now ≡ live_flags edited.front.now }
    requires count { length strengths.now ≡ length edited.graph.now.objects }
    ensures { IsTrue result ↔ ((o : ℕ) → IsSupported (standing edited.entry.graph.now edited.entry.front.now) strengths.now o (reached_at strengths.now o).support) }
{
    for o in 0..strengths.len() {
        if !is_supported(edited, live, strengths, o) {
            return false;
        }
    }
    true
}

/// Whether the root of a number, where there is such a root and it stands, makes its object strong.
fn root_makes_strong(edited: Edited<'_>, live: &[bool], strengths: &Strengths, r: u64) -> bool
    requires removed { IsRemovedBy edited.graph.now edited.front.now edited.removed.now }
    requires flags { live.now ≡ live_flags edited.front.now }
    requires count { length strengths.now ≡ length edited.graph.now.objects }
    ensures { IsTrue result ↔ ((x : RootEntry) → root_at edited.entry.graph.now edited.entry.front.now r ≡ Some x → MakesStrong strengths.now x) }
{
    let Some(held) = held_object(edited, live, r) else {
        return true;
    };
    has_strength(strengths, held, Strength::Strong)
}

/// Whether each root that stands makes its object strong.
fn roots_make_strong(edited: Edited<'_>, live: &[bool], strengths: &Strengths) -> bool
    requires removed { IsRemovedBy edited.graph.now edited.front.now edited.removed.now }
    requires flags { live.now ≡ live_flags edited.front.now }
    requires count { length strengths.now ≡ length edited.graph.now.objects }
    ensures { IsTrue result ↔ ((x : RootEntry) → Contains (standing edited.entry.graph.now edited.entry.front.now).roots x → MakesStrong strengths.now x) }
{
    let roots = u64::from(edited.graph.roots_len()) + u64::from(edited.front.len());
    for r in 0..roots {
        if !root_makes_strong(edited, live, strengths, r) {
            return false;
        }
    }
    true
}

/// Whether the reference at an index of an object's slots, where it stands, gives its target no more than that has.
fn edge_gives_no_more(edited: Edited<'_>, strengths: &Strengths, o: u32, index: u32) -> bool
    requires removed { IsRemovedBy edited.graph.now edited.front.now edited.removed.now }
    requires count { length strengths.now ≡ length edited.graph.now.objects }
    requires object { o < length strengths.now }
    requires index { index < width edited.graph.now o }
    ensures { IsTrue result ↔ ((e : Edge) → edge_at edited.entry.graph.now edited.entry.front.now o index ≡ Some e → rank (offered_strength strengths.now e) ≤ rank_at strengths.now e.target) }
{
    let Some(read) = standing_read(edited, o, index) else {
        return true;
    };
    let given = strengths.strength(o).weaker(read.kind.strength());
    given.rank() <= strengths.strength(read.target).rank()
}

/// Whether the references of an object that stand, if it passes its strength on, give their targets no more than those
/// have.
fn object_gives_no_more(edited: Edited<'_>, strengths: &Strengths, o: u32) -> bool
    requires removed { IsRemovedBy edited.graph.now edited.front.now edited.removed.now }
    requires count { length strengths.now ≡ length edited.graph.now.objects }
    requires object { o < length strengths.now }
    ensures { IsTrue result ↔ ((i : ℕ) (e : Edge) → edge_at edited.entry.graph.now edited.entry.front.now o i ≡ Some e → GivesNoMore edited.entry.graph.now.mode strengths.now e) }
{
    if !passes_on(edited.graph, strengths, o) {
        return true;
    }
    for index in 0..edited.graph.slots_len(o) {
        if !edge_gives_no_more(edited, strengths, o, index) {
            return false;
        }
    }
    true
}

/// Whether no reference that stands gives its target more than that has.
fn edges_give_no_more(edited: Edited<'_>, strengths: &Strengths) -> bool
    requires removed { IsRemovedBy edited.graph.now edited.front.now edited.removed.now }
    requires count { length strengths.now ≡ length edited.graph.now.objects }
    ensures { IsTrue result ↔ ((e : Edge) → Contains (standing edited.entry.graph.now edited.entry.front.now).edges e → GivesNoMore edited.entry.graph.now.mode strengths.now e) }
{
    for o in 0..strengths.len() {
        if !object_gives_no_more(edited, strengths, o) {
            return false;
        }
    }
    true
}

/// Whether what is kept of the objects, as many as there are, is settled for what stands.
fn all_settled(edited: Edited<'_>, live: &[bool], strengths: &Strengths) -> bool
    requires removed { IsRemovedBy edited.graph.now edited.front.now edited.removed.now }
    requires flags { live.now ≡ live_flags edited.front.now }
    requires count { length strengths.now ≡ length edited.graph.now.objects }
    ensures { IsTrue result ↔ Settled (standing edited.entry.graph.now edited.entry.front.now) strengths.now }
{
    if !are_supported(edited, live, strengths) {
        return false;
    }
    if !roots_make_strong(edited, live, strengths) {
        return false;
    }
    edges_give_no_more(edited, strengths)
}

/// Whether supports, strengths and stamps are settled for a graph under a log: each support is what it says, each root
/// that stands makes its object strong, and no reference that stands gives its target more than that has. They are not
/// where they are those of another number of objects.
///
/// # Errors
///
/// Memory ran out.
pub fn is_settled(
    alloc: Global,
    graph: &Graph,
    front: &Front,
    strengths: &Strengths,
) -> Result<bool, NoMemory>
    ensures { IfOk result (λ b. IsTrue b ↔ ((length strengths.now ≡ length graph.now.objects) × Settled (standing graph.now front.now) strengths.now)) }
{
    if strengths.len() != graph.objects() {
        return Ok(false);
    }
    let removed = Removed::of(alloc, graph, front)?;
    let live = front.flags();
    let edited = Edited {
        graph,
        front,
        removed: &removed,
    };
    let settled = all_settled(edited, live, strengths);
    Ok(settled)
}
