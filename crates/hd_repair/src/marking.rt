//! The region of a loss, marked object by object by the stored chains alone: no edge is looked at.
ghost use Rattle.std.specs.Prelude.{◌≡◌, ◌≢◌, ◌+◌, ◌*◌, ◌<◌, ◌≤◌, ◌⊎◌, ℕ, List, length, true, false, All, Contains, sum_by, IfOk, IfSome, OnOk};
ghost use Rattle.hd_terms.specs.declared.Support.TheVariants as supports;
ghost use Rattle.hd_terms.specs.EdgeRows.{degree};
ghost use Rattle.hd_terms.specs.Regions.{Holding, InLossRegion};
ghost use Rattle.hd_terms.specs.Settled.{reached_at};
ghost use Rattle.hd_repair.specs.Hanging.{HaveSources};
ghost use Rattle.hd_repair.specs.declared.marking.Known.TheVariants as knowns;
ghost use Rattle.hd_repair.specs.Marking.{known_at, AreKnown, AreMarks, HaveFollowed, IsKnownAs, IsLarge, IsMarkedByChange};

use hd_edges::{Edges, Held};
use hd_supports::Supports;
use hd_terms::{NoMemory, Support};
use std::alloc::Global;

/// What is known of an object: whether its stored chain uses what is lost.
#[derive(Clone, Copy)]
pub(crate) enum Known {
    Outside,
    Inside,
    Unknown,
}

/// Whether it is known where an object is.
fn is_known(found: Known) -> bool
    ensures yes { result ≡ true → found ≢ knowns.Unknown }
    ensures no { result ≡ false → found ≡ knowns.Unknown }
{
    !matches!(found, Known::Unknown)
}

/// Of each object whether it is inside: in the region of a loss, or, for a gain, among the objects whose strength changes.
pub struct Marks {
    known: Vec<Known>,
}

impl Drop for Marks {
    /// Drops the fields. A derived drop would be proved anew at each place that lets go of one.
    fn drop(self) {
        let Self { known } = self;
    }
}

impl Marks {
    /// Whether an object is inside.
    pub(crate) fn is_inside(&self, o: u32) -> bool
        requires { o < length self.now.known.items }
        ensures yes { result ≡ true → known_at self.now.known.items o ≡ knowns.Inside }
        ensures no { result ≡ false → known_at self.now.known.items o ≢ knowns.Inside }
    {
        matches!(self.known[o as usize], Known::Inside)
    }
}

/// Marks an object.
fn mark(known: &mut [Known], o: u32, found: Known)
    requires { o < length known.old }
    ensures count { length known.new ≡ length known.old }
    ensures here { known_at known.new o ≡ found }
    ensures others { (x : ℕ) → x ≢ o → known_at known.new x ≡ known_at known.old x }
{
    known[o as usize] = found;
}

/// Whether this is what holds an object.
fn is_held_by(kept: &Supports, o: u32, holder: Support) -> bool
    requires { o < length kept.now }
    ensures yes { result ≡ true → (reached_at kept.now o).support ≡ holder }
    ensures no { result ≡ false → (reached_at kept.now o).support ≢ holder }
{
    kept.support(o) == holder
}

/// Marks the objects whose support is lost itself.
fn mark_lost(kept: &Supports, lost: &[Held], known: &mut [Known])
    requires count { length known.old ≡ length kept.now }
    requires targets { All (λ (h : Holding). h.target < length kept.now) lost.now }
    requires holders { All (λ (h : Holding). h.holder ≢ supports.Nothing) lost.now }
    requires unknown { (o : ℕ) → o < length known.old → known_at known.old o ≡ knowns.Unknown }
    ensures count { length known.new ≡ length known.old }
    ensures known { AreKnown kept.now lost.now known.new }
{
    for held in lost {
        let target = held.target();
        if is_held_by(kept, target, held.holder()) {
            mark(known, target, Known::Inside);
        }
    }
}

/// Follows the stored chain of an object to one of which it is known whether it is in the region, and answers that: all objects
/// of `path` are where it is. Nothing is known where the chain is longer than there are objects.
fn follow(kept: &Supports, known: &[Known], path: &mut Vec<u32>, o: u32) -> Result<Known, NoMemory>
    requires object { o < length kept.now }
    requires count { length known.now ≡ length kept.now }
    requires sources { HaveSources kept.now }
    ensures within { OnOk result ((x : ℕ) → Contains path.new.items x → x < length kept.now) }
    ensures followed { IfOk result (λ found. (lost : List Holding) → AreKnown kept.now lost known.now → HaveFollowed kept.now lost known.now path.new.items o found) }
{
    path.clear();
    let mut at = o;
    for _ in 0..kept.len() {
        let found = known[at as usize];
        if is_known(found) {
            return Ok(found);
        }
        path.push(at)?;
        let Support::Edge { source, .. } = kept.support(at) else {
            return Ok(Known::Outside);
        };
        at = source;
    }
    Ok(Known::Unknown)
}

/// Marks some objects.
fn mark_all(known: &mut [Known], objects: &[u32], found: Known)
    requires { (x : ℕ) → Contains objects.now x → x < length known.old }
    ensures count { length known.new ≡ length known.old }
    ensures here { (x : ℕ) → Contains objects.now x → known_at known.new x ≡ found }
    ensures others { (x : ℕ) → (Contains objects.now x × (known_at known.new x ≡ found)) ⊎ (known_at known.new x ≡ known_at known.old x) }
{
    for o in objects {
        mark(known, *o, found);
    }
}

/// Marks an object, and those that its stored chain goes through. It answers whether that was possible.
fn mark_chain(
    kept: &Supports,
    known: &mut [Known],
    path: &mut Vec<u32>,
    o: u32,
) -> Result<bool, NoMemory>
    requires object { o < length kept.now }
    requires count { length known.old ≡ length kept.now }
    requires sources { HaveSources kept.now }
    ensures count { length known.new ≡ length known.old }
    ensures known { OnOk result ((lost : List Holding) → AreKnown kept.now lost known.old → AreKnown kept.now lost known.new) }
    ensures more { OnOk result ((x : ℕ) → known_at known.old x ≢ knowns.Unknown → known_at known.new x ≢ knowns.Unknown) }
    ensures here { IfOk result (λ is. is ≡ true → (lost : List Holding) → AreKnown kept.now lost known.old → known_at known.new o ≢ knowns.Unknown) }
{
    let found = follow(kept, known, path, o)?;
    if is_known(found) {
        mark_all(known, path, found);
        return Ok(true);
    }
    Ok(false)
}

/// How many objects are marked before all are.
const SAMPLES: u32 = 1024;

/// Marks objects spread over all, and tells whether at least a fourth of them is in the region. If not, all would be marked in
/// vain.
fn mark_samples(kept: &Supports, known: &mut [Known], path: &mut Vec<u32>) -> Result<bool, NoMemory>
    requires count { length known.old ≡ length kept.now }
    requires sources { HaveSources kept.now }
    ensures count { length known.new ≡ length known.old }
    ensures known { OnOk result ((lost : List Holding) → AreKnown kept.now lost known.old → AreKnown kept.now lost known.new) }
{
    let apart = kept.len() / SAMPLES + 1;
    let mut inside: u32 = 0;
    for k in 0..kept.len() / apart {
        let o = k * apart;
        mark_chain(kept, known, path, o)?;
        if matches!(known[o as usize], Known::Inside) {
            inside = inside.saturating_add(1);
        }
    }
    Ok(inside >= kept.len() / apart / 4)
}

/// Of each object whether it is in the region of a loss, by what was kept before it. Nothing where the region seems small.
pub(crate) fn mark_region(
    alloc: Global,
    kept: &Supports,
    lost: &[Held],
) -> Result<Option<Marks>, NoMemory>
    requires targets { All (λ (h : Holding). h.target < length kept.now) lost.now }
    requires holders { All (λ (h : Holding). h.holder ≢ supports.Nothing) lost.now }
    requires sources { HaveSources kept.now }
    ensures { IfOk result (λ r. IfSome r (AreMarks kept.now lost.now)) }
{
    let mut known = vec![in alloc; Known::Unknown; kept.len() as usize]?;
    mark_lost(kept, lost, &mut known);
    let mut path = Vec::new(alloc);
    if !mark_samples(kept, &mut known, &mut path)? {
        return Ok(None);
    }
    for o in 0..kept.len() {
        if !mark_chain(kept, &mut known, &mut path, o)? {
            return Ok(None);
        }
    }
    Ok(Some(Marks { known }))
}

/// How many edges are in the rows of an object. Roots would add little to a sum of degrees, and finding them takes a search each.
fn edges_of<E: Edges>(edges: &E, o: u32) -> u64
    requires { o < (E.rows edges.now).objects }
    ensures { result ≤ degree (E.rows edges.now) o }
{
    u64::from(edges.out_len(o)) + u64::from(edges.into_len(o))
}

/// Whether a search afresh, of `search` looks, and the looks so far are together at most twice the degree of the region.
pub(crate) fn is_large<E: Edges>(edges: &E, marks: &Marks, search: u64) -> bool
    requires { length marks.now.known.items ≡ (E.rows edges.now).objects }
    ensures { result ≡ true → (region : List ℕ) → ((o : ℕ) → known_at marks.now.known.items o ≡ knowns.Inside → Contains region o)
        → E.look_count edges.now + search ≤ 2 * sum_by (degree (E.rows edges.now)) region }
{
    let Some(looks) = edges.looks().checked_add(search) else {
        return false;
    };
    let mut sum: u64 = 0;
    for o in 0..edges.objects() {
        if sum.saturating_add(sum) >= looks {
            return true;
        }
        if marks.is_inside(o) {
            sum = sum.saturating_add(edges_of(edges, o));
        }
    }
    if sum.saturating_add(sum) < looks {
        return false;
    }
    true
}

/// The marks of the region of a loss, if a search afresh, of `search` looks, and the looks so far are together at most twice its
/// degree.
pub(crate) fn large_region<E: Edges>(
    alloc: Global,
    edges: &E,
    kept: &Supports,
    lost: &[Held],
    search: u64,
) -> Result<Option<Marks>, NoMemory>
    requires count { length kept.now ≡ (E.rows edges.now).objects }
    requires targets { All (λ (h : Holding). h.target < length kept.now) lost.now }
    requires holders { All (λ (h : Holding). h.holder ≢ supports.Nothing) lost.now }
    requires sources { HaveSources kept.now }
    ensures { IfOk result (λ r. IfSome r (IsLarge (E.rows edges.now) kept.now lost.now (E.look_count edges.now) search)) }
{
    let Some(marks) = mark_region(alloc, kept, lost)? else {
        return Ok(None);
    };
    if is_large(edges, &marks, search) {
        return Ok(Some(marks));
    }
    Ok(None)
}

/// Marks the objects of which what is kept and what was found have another strength.
fn mark_changes(kept: &Supports, found: &Supports, known: &mut [Known])
    requires found { length found.now ≡ length kept.now }
    requires count { length known.old ≡ length kept.now }
    requires none { (o : ℕ) → known_at known.old o ≡ knowns.Outside }
    ensures count { length known.new ≡ length known.old }
    ensures each { (o : ℕ) → IsMarkedByChange kept.now found.now known.new o }
{
    for o in 0..kept.len() {
        if kept.strength(o).rank() != found.strength(o).rank() {
            mark(known, o, Known::Inside);
        }
    }
}

/// Of each object whether what is kept of it and what was found have another strength.
pub(crate) fn mark_changed(
    alloc: Global,
    kept: &Supports,
    found: &Supports,
) -> Result<Marks, NoMemory>
    requires { length found.now ≡ length kept.now }
    ensures count { IfOk result (λ marks. length marks.known.items ≡ length kept.now) }
    ensures each { IfOk result (λ marks. (o : ℕ) → IsMarkedByChange kept.now found.now marks.known.items o) }
{
    let mut known = vec![in alloc; Known::Outside; kept.len() as usize]?;
    mark_changes(kept, found, &mut known);
    Ok(Marks { known })
}
