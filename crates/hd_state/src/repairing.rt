//! The repair of supports from one log of a graph to the next.
ghost use Rattle.std.specs.Prelude.{◌≡◌, ◌≢◌, ◌+◌, ◌*◌, ◌^◌, ◌<◌, ◌≤◌, ℕ, List, length, false, true, All, Contains, sum_by, IfOk, Some};
ghost use Rattle.hd_terms.specs.EdgeRows.{degree, rows_of};
ghost use Rattle.hd_terms.specs.Lost.{InEventRegion};
ghost use Rattle.hd_terms.specs.Regions.{changed_objects, AreChanges, Holding, WasSettledWith, WasSettledWithout};
ghost use Rattle.hd_terms.specs.declared.Support.TheVariants as supports;
ghost use Rattle.hd_repair.specs.Marking.{IsLarge};
ghost use Rattle.hd_terms.specs.Settled.{reached_at};
ghost use Rattle.hd_strength.specs.Removed.{IsRemovedBy};
ghost use Rattle.hd_reverse.specs.Reverse.{IsReverseOf};
ghost use Rattle.hd_totals.specs.GroupPages.{AreNoted};
ghost use Rattle.hd_view.specs.Added.{IsAddedBy};
ghost use Rattle.hd_terms.specs.Kept.{AreKept};
ghost use Rattle.hd_terms.specs.EditedDump.{adds_root, standing};
ghost use Rattle.hd_state.specs.Next.{IsNextLog};
ghost use Rattle.hd_state.specs.LastMove.{edges_at, IsLastMove, Restores};
ghost use Rattle.hd_state.specs.Repaired.{IsLossRepaired, IsRestored};
ghost use Rattle.hd_state.specs.Moves.{ChangesEdits, IsEdit, IsMovedBack, Moves};

use hd_edges::{Edges, Held};
use hd_log::Front;
use hd_repair::{Change, Limits, Lost, Marks, gain, lose, renew, renew_changed};
use hd_reverse::ReverseRows;
use hd_strength::from_removed;
use hd_supports::Supports;
use hd_terms::{Edit, NoMemory, What, one_strength, settled_supports_give_strengths};
use hd_totals::GroupPages;
use hd_view::{AddedRoots, EdgeLists, Edited, View, lost_by_edit};
use std::alloc::Global;
use std::thread::Threads;

/// What a repair answers: the repaired supports, the objects whose strength has changed, and how many edges and roots it
/// looked at.
#[derive(Drop)]
pub struct Repair {
    pub supports: Supports,
    pub changes: Vec<Change>,
    pub looks: u64,
}

/// The one live edit by which two logs differ that follow one another: the event that does it, the edit, whether it is done or
/// else taken back, and whether by it something stands no more that stood; else something stands that didn't.
#[derive(Clone, Copy)]
pub(crate) struct Moved {
    pub(crate) event: u32,
    pub(crate) edit: Edit,
    pub(crate) done: bool,
    pub(crate) loses: bool,
}

/// Whether an edit adds a root.
pub(crate) fn adds_root(edit: Edit) -> bool
    ensures { result ≡ adds_root (Some edit) }
{
    matches!(edit, Edit::Add(_))
}

/// What an undo of event k changes, which is an edit.
fn moved_back(front: &Front, k: u32) -> Moved
    requires { IsEdit front.now k }
    ensures { IsMovedBack front.now k result }
{
    match front.event(k).what {
        What::Do(edit) => Moved {
            event: k,
            edit,
            done: false,
            loses: adds_root(edit),
        },
        What::Undo(_) => unreachable!(),
    }
}

/// What the last event of a log changes, by the log before it.
pub(crate) fn moved_by(before: &Front, after: &Front) -> Moved
    requires { IsNextLog before.now after.now }
    ensures moves { Moves before.now after.now result.loses result.event result.edit }
    ensures edits { ChangesEdits before.now after.now result.done result.edit }
    ensures restores { result.done ≡ false → Restores before.now after.now result.event }
{
    let last = before.len();
    match after.event(last).what {
        What::Do(edit) => Moved {
            event: last,
            edit,
            done: true,
            loses: !adds_root(edit),
        },
        What::Undo(k) => moved_back(before, k),
    }
}

/// By what a repair finds the edges and roots of a graph: its reverse rows, which pages of objects may have one of a group, and
/// the roots that the events of a log add; and when it asks for a search afresh.
#[derive(Clone, Copy)]
pub struct Indexes<'a> {
    /// The reverse rows.
    pub reverse: &'a ReverseRows,
    /// The pages.
    pub pages: &'a GroupPages,
    /// The added roots.
    pub added: &'a AddedRoots,
    /// After how many objects of a loss a search afresh is asked for.
    pub many: u32,
    /// How many edges the objects have at least whose strength the last event changed.
    pub moved: u64,
}

/// The least number of objects that are many.
const MANY: u32 = 1 << 16;

/// How many of `objects` objects are many: from this number on it may be quicker to find all afresh, by several threads, than to go
/// on one by one.
pub(crate) fn many_of(objects: u32) -> u32 {
    (objects / 64).max(MANY)
}

/// How many edges changed objects have at least. The sum ends once it is `enough`.
pub(crate) fn edges_of_changes(view: &View<'_>, changes: &[Change], enough: u64) -> u64
    ensures { result ≤ sum_by (edges_at view.now.dump) (changed_objects changes.now) }
{
    let mut sum: u64 = 0;
    for change in changes {
        let o = change.object();
        if sum < enough && o < view.objects() {
            sum = sum.saturating_add(u64::from(view.out_len(o)) + u64::from(view.into_len(o)));
        }
    }
    sum
}

/// A graph under a log, to be looked at. No look is made yet.
fn view_of<'a>(indexes: Indexes<'a>, edited: Edited<'a>) -> View<'a>
    requires reverse { IsReverseOf edited.graph.now indexes.reverse.now }
    requires removed { IsRemovedBy edited.graph.now edited.front.now edited.removed.now }
    requires added { IsAddedBy edited.graph.now edited.front.now indexes.added.now }
    ensures { result ≡ record { dump = edited.entry.graph.now; log = edited.entry.front.now; looks = 0 } }
{
    View::new(
        edited.graph,
        indexes.reverse,
        edited.front,
        edited.removed,
        indexes.added,
    )
}

/// The supports of a search afresh in the region of a loss, and those that were kept outside.
fn renewed<R: Threads + Sync>(
    rt: &R,
    alloc: Global,
    after: Edited<'_>,
    before: &Supports,
    marks: &Marks,
    looks: u64,
) -> Result<Repair, NoMemory>
    requires removed { IsRemovedBy after.graph.now after.front.now after.removed.now }
    requires count { length before.now ≡ length after.graph.now.objects }
    requires room { (o : ℕ) → (reached_at before.now o).stamp ≤ 2 ^ 47 }
    requires marks { length marks.now.known.items ≡ length before.now }
    ensures { IfOk result (λ r. (lost : List Holding) → WasSettledWith (standing after.entry.graph.now after.entry.front.now) lost before.now
        → IsLarge (rows_of after.entry.graph.now after.entry.front.now) before.now lost looks 0 marks.now
        → IsLossRepaired after.entry.graph.now after.entry.front.now before.now lost r) }
{
    let found = from_removed(rt, alloc, after.graph, after.front, after.removed)?;
    let (supports, changes) = renew(alloc, before, &found, marks)?;
    Ok(Repair {
        supports,
        changes,
        looks,
    })
}

/// The supports of a search afresh where a gain changes strengths, and those that were kept elsewhere. It is charged with `looks`.
fn restored<R: Threads + Sync>(
    rt: &R,
    alloc: Global,
    after: Edited<'_>,
    before: &Supports,
    looks: u64,
) -> Result<Repair, NoMemory>
    requires removed { IsRemovedBy after.graph.now after.front.now after.removed.now }
    requires count { length before.now ≡ length after.graph.now.objects }
    requires room { (o : ℕ) → (reached_at before.now o).stamp ≤ 2 ^ 47 }
    ensures { IfOk result (λ r. (gained : List Holding) → WasSettledWithout (standing after.entry.graph.now after.entry.front.now) gained before.now
        → IsRestored after.entry.graph.now after.entry.front.now before.now looks r) }
{
    let found = from_removed(rt, alloc, after.graph, after.front, after.removed)?;
    let (supports, changes) = renew_changed(alloc, before, &found)?;
    Ok(Repair {
        supports,
        changes,
        looks,
    })
}

/// Whether an undo takes back the last event of the log before it.
fn takes_back_last(before: &Front, moved: Moved) -> bool
    ensures { result ≡ true → (moved.done ≡ false) × (moved.event + 1 ≡ length before.now) }
{
    !moved.done && u64::from(moved.event) + 1 == u64::from(before.len())
}

/// The supports that were kept before a loss, repaired object by object; or by a search afresh, where the region is large.
fn repaired_loss<R: Threads + Sync>(
    rt: &R,
    alloc: Global,
    indexes: Indexes<'_>,
    after: Edited<'_>,
    before: &Supports,
    lost: &[Held],
) -> Result<Repair, NoMemory>
    requires reverse { IsReverseOf after.graph.now indexes.reverse.now }
    requires added { IsAddedBy after.graph.now after.front.now indexes.added.now }
    requires removed { IsRemovedBy after.graph.now after.front.now after.removed.now }
    requires count { length before.now ≡ length after.graph.now.objects }
    requires room { (o : ℕ) → (reached_at before.now o).stamp ≤ 2 ^ 47 }
    requires targets { All (λ (h : Holding). h.target < length after.graph.now.objects) lost.now }
    requires holders { All (λ (h : Holding). h.holder ≢ supports.Nothing) lost.now }
    requires settled { WasSettledWith (standing after.graph.now after.front.now) lost.now before.now }
    ensures { IfOk result (IsLossRepaired after.entry.graph.now after.entry.front.now before.now lost.now) }
{
    let mut view = view_of(indexes, after);
    let limits = Limits {
        objects: indexes.many,
        search: view.search_looks(),
    };
    let mut supports = before.share(alloc)?;
    match lose(rt, alloc, &mut view, &mut supports, lost, limits)? {
        Lost::Settled(changes) => Ok(Repair {
            supports,
            changes,
            looks: view.looks(),
        }),
        Lost::Large(marks) => {
            drop(supports);
            let looks = view.looks().saturating_add(limits.search);
            let repair = renewed(rt, alloc, after, before, &marks, looks)?;
            Ok(repair)
        }
    }
}

/// The supports of a graph under one log, repaired for the log with one more event. What that event takes away or gives is all
/// by one edit (`moved_by`). The looks are at most twice the degree of its region, and what is kept of all other objects stays.
///
/// # Errors
///
/// Memory ran out. The supports that are given stay as they are.
pub fn repaired<R: Threads + Sync>(
    rt: &R,
    alloc: Global,
    indexes: Indexes<'_>,
    before: Edited<'_>,
    after: Edited<'_>,
    supports: &Supports,
) -> Result<Repair, NoMemory>
    requires same { after.graph.now ≡ before.graph.now }
    requires next { IsNextLog before.front.now after.front.now }
    requires reverse { IsReverseOf after.graph.now indexes.reverse.now }
    requires pages { AreNoted after.graph.now indexes.pages.now }
    requires before { IsRemovedBy before.graph.now before.front.now before.removed.now }
    requires after { IsRemovedBy after.graph.now after.front.now after.removed.now }
    requires added { IsAddedBy after.graph.now after.front.now indexes.added.now }
    requires kept { AreKept before.graph.now before.front.now supports.now }
    requires moved { IsLastMove before.graph.now before.front.now indexes.moved }
    requires room { (o : ℕ) → (reached_at supports.now o).stamp ≤ 2 ^ 47 }
    ensures kept { IfOk result (λ r. AreKept after.entry.graph.now after.entry.front.now r.supports) }
    ensures changes { IfOk result (λ r. AreChanges supports.now r.supports r.changes.items) }
    ensures outside { IfOk result (λ r. (o : ℕ) → (InEventRegion after.entry.graph.now before.entry.front.now after.entry.front.now supports.now r.supports o → ⊥) → reached_at r.supports o ≡ reached_at supports.now o) }
    ensures looks { IfOk result (λ r. (region : List ℕ)
        → ((o : ℕ) → InEventRegion after.entry.graph.now before.entry.front.now after.entry.front.now supports.now r.supports o → Contains region o)
        → r.looks ≤ 2 * sum_by (degree (rows_of after.entry.graph.now after.entry.front.now)) region) }
    ensures stamps { IfOk result (λ r. (m : ℕ) → ((o : ℕ) → (reached_at supports.now o).stamp ≤ m) → (o : ℕ) → (reached_at r.supports o).stamp ≤ m + length after.entry.graph.now.objects) }
{
    settled_supports_give_strengths();
    one_strength();
    let moved = moved_by(before.front, after.front);
    let lists = EdgeLists {
        kinds: indexes.reverse.kinds(),
        pages: indexes.pages,
    };
    if moved.loses {
        let lost = lost_by_edit(alloc, lists, before, after, moved.event, moved.edit)?;
        let repair = repaired_loss(rt, alloc, indexes, after, supports, &lost)?;
        return Ok(repair);
    }
    let gained = lost_by_edit(alloc, lists, after, before, moved.event, moved.edit)?;
    let mut view = view_of(indexes, after);
    let search = view.search_looks();
    if takes_back_last(before.front, moved) && search <= indexes.moved.saturating_mul(2) {
        let repair = restored(rt, alloc, after, supports, search)?;
        return Ok(repair);
    }
    let mut supports = supports.share(alloc)?;
    let changes = gain(rt, alloc, &mut view, &mut supports, &gained)?;
    let looks = view.looks();
    Ok(Repair {
        supports,
        changes,
        looks,
    })
}
