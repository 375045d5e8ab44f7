//! The state of one log over one graph. Each step makes a new state, and repairs what the event concerns.
ghost use Rattle.std.specs.Prelude.{◌≡◌, ℕ, ◌+◌, ◌*◌, ◌<◌, ◌≤◌, [], ◌∷◌, ◌++◌, length, IfOk, None};
ghost use Rattle.std.specs.Arc.{arc_value};
ghost use Rattle.hd_terms.specs.Log.{log_fault};
ghost use Rattle.hd_terms.specs.Dump.{object_at};
ghost use Rattle.hd_terms.specs.EditedDump.{edge_stands, root_stands, standing};
ghost use Rattle.hd_terms.specs.Lost.{InEventRegion};
ghost use Rattle.hd_terms.specs.Regions.{AreChanges};
ghost use Rattle.hd_terms.specs.Settled.{reached_at};
ghost use Rattle.hd_terms.specs.Strengths.{HasStrength};
ghost use Rattle.hd_terms.specs.RootRows.{root_rows};
ghost use Rattle.hd_terms.specs.SlotRows.{slot_rows};
ghost use Rattle.hd_terms.specs.IntoRows.{into_rows};
ghost use Rattle.hd_strength.specs.Removed.{IsRemovedBy};
ghost use Rattle.hd_view.specs.Added.{IsAddedBy};
ghost use Rattle.hd_state.specs.Done.{IsDone};
ghost use Rattle.hd_terms.specs.declared.Strength.{Strength};
ghost use Rattle.hd_terms.specs.Totals.{AreGroupCounts, IsGroupTotal, IsTotalOf};
ghost use Rattle.hd_terms.specs.Fell.{Falls};
ghost use Rattle.hd_terms.specs.Listed.{AreClassRows, AreFallen, AreMembers, AreMovedRows, AreNamedGroups, AreTopRows};
ghost use Rattle.hd_terms.specs.Kept.{AreKept};
ghost use Rattle.hd_state.specs.LastMove.{IsLastMove};
ghost use Rattle.hd_state.specs.Next.{IsNextLog};
ghost use Rattle.hd_queries.specs.ChainFound.{IsChainFound};
ghost use Rattle.hd_queries.specs.Gathered.{AreFirst};
ghost use Rattle.hd_totals.specs.GroupPages.{AreNoted};
ghost use Rattle.hd_totals.specs.LastChanges.{AreLastChanges};
ghost use Rattle.hd_totals.specs.Members.{member_count};
ghost use Rattle.hd_totals.specs.Totals.{AreTotals};

use crate::mark::Mark;
use crate::parts::{KeptParts, LogParts, kept_and_reverse, next_removed};
use crate::repairing::{Indexes, Repair, edges_of_changes, many_of, repaired};
use hd_graph::Graph;
use hd_log::Front;
use hd_queries::{
    Chain, Freed, Members, Solved, chain_of, fallen_ids, freed_rows, into_rows, member_ids,
    moved_rows, named_groups, root_rows, rows_of,
};
use hd_reverse::ReverseRows;
use hd_strength::Removed;
use hd_supports::Supports;
use hd_terms::{
    ClassRow, Event, Group, IntoRow, MovedRow, NoMemory, RootRow, SlotRow, Strength, one_strength,
    settled_supports_give_strengths,
};
use hd_totals::{GroupPages, GroupTotals, LastChanges, count_back, count_fallen, ranked};
use hd_view::{AddedRoots, Edited, View, edge_stands, root_stands};
use std::alloc::Global;
use std::marker::Model;
use std::sync::Arc;
use std::thread::Threads;

/// What one log makes of a dump: the dump's graph and its reverse rows, which all states share, the log, what its live edits
/// take away, the roots that its events add, the strength of each object with its support, when these last changed, and the
/// totals of groups, in pages that states share; and which pages of objects have a group, which all states share as well.
pub struct State {
    graph: Arc<Graph>,
    reverse: Arc<ReverseRows>,
    front: Front,
    removed: Arc<Removed>,
    added: Arc<AddedRoots>,
    supports: Arc<Supports>,
    last_changes: Arc<LastChanges>,
    totals: Arc<GroupTotals>,
    pages: Arc<GroupPages>,
    /// How many edges the objects have at least whose strength the last event changed; 0 where few have changed.
    moved: u64,
}

impl Drop for State {
    /// Drops the fields. A derived drop would be proved anew at each place that lets go of one.
    fn drop(self) {
        let Self {
            graph,
            reverse,
            front,
            removed,
            added,
            supports,
            last_changes,
            totals,
            pages,
            moved: _,
        } = self;
    }
}

/// What an event did.
#[derive(Clone, Copy)]
pub struct Done {
    /// The event's number in the log, from 0.
    pub event: u32,
    /// How many objects became unreachable.
    pub fell: u64,
    /// How many objects ceased to be unreachable.
    pub back: u64,
}

impl Model for State {
    ghost use Rattle.hd_state.specs.Solution.{Solution};

    ghost Value = { Solution };

    ghost use Rattle.hd_state.specs.StateInside.{solution_of, IsState};

    ghost view = { solution_of };

    ghost invariant = { IsState };
}

impl State {
    /// The state of a graph under the log with no event. Its strengths and its reverse rows are made side by side.
    ///
    /// # Errors
    ///
    /// Memory ran out.
    pub fn open<R: Threads + Sync>(
        rt: &R,
        alloc: Global,
        graph: Arc<Graph>,
    ) -> Result<State, NoMemory>
        ensures dump { IfOk result (λ s. s.dump ≡ arc_value graph) }
        ensures log { IfOk result (λ s. s.log ≡ []) }
    {
        let front = Front::empty(alloc)?;
        let log = LogParts::of(alloc, &graph, front)?;
        let (kept, reverse) = kept_and_reverse(rt, alloc, &graph, &log)?;
        let reverse = Arc::new(alloc, reverse)?;
        Ok(State {
            graph,
            reverse,
            front: log.front,
            removed: log.removed,
            added: log.added,
            supports: kept.supports,
            last_changes: kept.last_changes,
            totals: kept.totals,
            pages: kept.pages,
            moved: kept.moved,
        })
    }

    /// The state after one more event, and what the event did. This state stays as it is.
    ///
    /// # Errors
    ///
    /// Memory ran out.
    pub fn step<R: Threads + Sync>(
        &self,
        rt: &R,
        alloc: Global,
        event: Event,
    ) -> Result<(State, Done), NoMemory>
        requires { log_fault self.now.log event ≡ None }
        ensures dump { IfOk result (λ r. r.0.dump ≡ self.now.dump) }
        ensures log { IfOk result (λ r. r.0.log ≡ self.now.log ++ event ∷ []) }
        ensures done { IfOk result (λ r. IsDone self.now.dump self.now.log (self.now.log ++ event ∷ []) r.1) }
        ensures outside { IfOk result (λ r. (o : ℕ) → (InEventRegion self.now.dump self.now.log (self.now.log ++ event ∷ []) self.now.kept r.0.kept o → ⊥) → reached_at r.0.kept o ≡ reached_at self.now.kept o) }
    {
        let Ok(front) = self.front.extend(alloc, event) else {
            return Err(NoMemory);
        };
        let followed = self.follow(rt, alloc, front)?;
        Ok(followed)
    }

    /// The state of a log that has one more event, and what that event did. This state stays as it is.
    ///
    /// # Errors
    ///
    /// Memory ran out.
    pub fn follow<R: Threads + Sync>(
        &self,
        rt: &R,
        alloc: Global,
        front: Front,
    ) -> Result<(State, Done), NoMemory>
        requires { IsNextLog self.now.log front }
        ensures dump { IfOk result (λ r. r.0.dump ≡ self.now.dump) }
        ensures log { IfOk result (λ r. r.0.log ≡ front) }
        ensures done { IfOk result (λ r. IsDone self.now.dump self.now.log front r.1) }
        ensures outside { IfOk result (λ r. (o : ℕ) → (InEventRegion self.now.dump self.now.log front self.now.kept r.0.kept o → ⊥) → reached_at r.0.kept o ≡ reached_at self.now.kept o) }
    {
        let next = self.next_parts(alloc, front)?;
        let (moved, done) = self.moved_parts(rt, alloc, &next)?;
        let state = State {
            graph: Arc::try_clone(&self.graph)?,
            reverse: Arc::try_clone(&self.reverse)?,
            front: next.front,
            removed: next.removed,
            added: next.added,
            supports: moved.supports,
            last_changes: moved.last_changes,
            totals: moved.totals,
            pages: moved.pages,
            moved: moved.moved,
        };
        Ok((state, done))
    }

    /// A log that has one more event, with what its live edits take away and the roots that its events add. These are moved by
    /// that event, and shared where it changes nothing of them.
    fn next_parts(&self, alloc: Global, front: Front) -> Result<LogParts, NoMemory>
        requires { IsNextLog self.now.log front }
        ensures log { IfOk result (λ n. n.front ≡ front) }
        ensures removed { IfOk result (λ n. IsRemovedBy self.now.dump n.front (arc_value n.removed)) }
        ensures added { IfOk result (λ n. IsAddedBy self.now.dump n.front (arc_value n.added)) }
    {
        let removed = next_removed(alloc, &self.graph, &self.removed, &self.front, &front)?;
        let added = AddedRoots::with_last(&self.added, alloc, &self.graph, &front)?;
        Ok(LogParts {
            front,
            removed,
            added,
        })
    }

    /// What is kept of the objects, repaired for the log with one more event, and what the event did.
    fn moved_parts<R: Threads + Sync>(
        &self,
        rt: &R,
        alloc: Global,
        next: &LogParts,
    ) -> Result<(KeptParts, Done), NoMemory>
        requires next { IsNextLog self.now.log next.now.front }
        requires removed { IsRemovedBy self.now.dump next.now.front (arc_value next.now.removed) }
        requires added { IsAddedBy self.now.dump next.now.front (arc_value next.now.added) }
        ensures kept { IfOk result (λ r. AreKept self.now.dump next.now.front (arc_value r.0.supports)) }
        ensures stamps { IfOk result (λ r. (o : ℕ) → (reached_at (arc_value r.0.supports) o).stamp ≤ (length self.now.log + 2) * length self.now.dump.objects) }
        ensures changes { IfOk result (λ r. AreLastChanges self.now.dump next.now.front (arc_value r.0.supports) (arc_value r.0.last_changes)) }
        ensures totals { IfOk result (λ r. AreTotals self.now.dump (arc_value r.0.supports) (arc_value r.0.totals)) }
        ensures pages { IfOk result (λ r. AreNoted self.now.dump (arc_value r.0.pages)) }
        ensures moved { IfOk result (λ r. IsLastMove self.now.dump next.now.front r.0.moved) }
        ensures done { IfOk result (λ r. IsDone self.now.dump self.now.log next.now.front r.1) }
        ensures outside { IfOk result (λ r. (o : ℕ) → (InEventRegion self.now.dump self.now.log next.now.front self.now.kept (arc_value r.0.supports) o → ⊥) → reached_at (arc_value r.0.supports) o ≡ reached_at self.now.kept o) }
    {
        let repair = self.repaired(rt, alloc, &next.front, &next.removed, &next.added)?;
        let last_changes = self.moved_changes(alloc, &repair, &next.front)?;
        let totals = self.next_totals(rt, alloc, &repair)?;
        let done = self.done(&repair, &next.front);
        let edges = self.moved_edges(&repair, &next.front);
        let moved = KeptParts {
            supports: Arc::new(alloc, repair.supports)?,
            last_changes: Arc::new(alloc, last_changes)?,
            totals: Arc::new(alloc, totals)?,
            pages: Arc::try_clone(&self.pages)?,
            moved: edges,
        };
        Ok((moved, done))
    }

    /// What an event did, counted in the changes of the repair for it.
    fn done(&self, repair: &Repair, front: &Front) -> Done
        requires next { IsNextLog self.now.log front.now }
        requires kept { AreKept self.now.dump front.now repair.now.supports }
        requires changes { AreChanges self.now.kept repair.now.supports repair.now.changes.items }
        ensures { IsDone self.now.dump self.now.log front.now result }
    {
        settled_supports_give_strengths();
        one_strength();
        Done {
            event: self.front.len(),
            fell: count_fallen(&repair.changes),
            back: count_back(&repair.changes),
        }
    }

    /// How many edges the objects have at least whose strength a repair has changed, where many have changed; else 0. An undo may
    /// search afresh by it.
    fn moved_edges(&self, repair: &Repair, front: &Front) -> u64
        requires next { IsNextLog self.now.log front.now }
        requires kept { AreKept self.now.dump front.now repair.now.supports }
        requires changes { AreChanges self.now.kept repair.now.supports repair.now.changes.items }
        ensures { IsLastMove self.now.dump front.now result }
    {
        settled_supports_give_strengths();
        if repair.changes.len() < many_of(self.graph.objects()) as usize {
            return 0;
        }
        let view = self.view();
        edges_of_changes(&view, &repair.changes, view.search_looks() / 2 + 2)
    }

    /// The supports of this state, repaired for its log with one more event.
    fn repaired<R: Threads + Sync>(
        &self,
        rt: &R,
        alloc: Global,
        front: &Front,
        removed: &Removed,
        added: &AddedRoots,
    ) -> Result<Repair, NoMemory>
        requires next { IsNextLog self.now.log front.now }
        requires removed { IsRemovedBy self.now.dump front.now removed.now }
        requires added { IsAddedBy self.now.dump front.now added.now }
        ensures kept { IfOk result (λ r. AreKept self.now.dump front.now r.supports) }
        ensures changes { IfOk result (λ r. AreChanges self.now.kept r.supports r.changes.items) }
        ensures outside { IfOk result (λ r. (o : ℕ) → (InEventRegion self.now.dump self.now.log front.now self.now.kept r.supports o → ⊥) → reached_at r.supports o ≡ reached_at self.now.kept o) }
        ensures stamps { IfOk result (λ r. (o : ℕ) → (reached_at r.supports o).stamp ≤ (length self.now.log + 2) * length self.now.dump.objects) }
    {
        self.supports.are_few();
        let _ = self.front.len();
        let after = Edited {
            graph: &self.graph,
            front,
            removed,
        };
        let indexes = Indexes {
            reverse: &self.reverse,
            pages: &self.pages,
            added,
            many: many_of(self.graph.objects()),
            moved: self.moved,
        };
        let repaired = repaired(rt, alloc, indexes, self.edited(), after, &self.supports)?;
        Ok(repaired)
    }

    /// When the strengths of each page last changed, for the log with one more event and a repair for it.
    fn moved_changes(
        &self,
        alloc: Global,
        repair: &Repair,
        front: &Front,
    ) -> Result<LastChanges, NoMemory>
        requires next { IsNextLog self.now.log front.now }
        requires kept { AreKept self.now.dump front.now repair.now.supports }
        requires changes { AreChanges self.now.kept repair.now.supports repair.now.changes.items }
        ensures { IfOk result (λ l. AreLastChanges self.now.dump front.now repair.now.supports l) }
    {
        settled_supports_give_strengths();
        let mut last_changes = self.last_changes.share(alloc)?;
        last_changes.apply(&repair.changes, front.len())?;
        Ok(last_changes)
    }

    /// The totals of this state, moved by a repair.
    fn moved_totals(&self, alloc: Global, repair: &Repair) -> Result<GroupTotals, NoMemory>
        requires changes { AreChanges self.now.kept repair.now.supports repair.now.changes.items }
        requires count { length repair.now.supports ≡ length self.now.dump.objects }
        ensures { IfOk result (λ t. AreTotals self.now.dump repair.now.supports t) }
    {
        let mut totals = self.totals.share(alloc)?;
        totals.apply(&self.graph, &repair.changes)?;
        Ok(totals)
    }

    /// The totals after a repair: those of this state, moved; or counted afresh, where many objects have changed.
    fn next_totals<R: Threads + Sync>(
        &self,
        rt: &R,
        alloc: Global,
        repair: &Repair,
    ) -> Result<GroupTotals, NoMemory>
        requires changes { AreChanges self.now.kept repair.now.supports repair.now.changes.items }
        requires count { length repair.now.supports ≡ length self.now.dump.objects }
        ensures { IfOk result (λ t. AreTotals self.now.dump repair.now.supports t) }
    {
        if repair.changes.len() < many_of(self.graph.objects()) as usize {
            let moved = self.moved_totals(alloc, repair)?;
            return Ok(moved);
        }
        let (counted, _) = GroupTotals::of(rt, alloc, &self.graph, &repair.supports)?;
        Ok(counted)
    }

    /// An equal state: a further owner of the graph, of the log and of the strengths. Nothing is copied.
    ///
    /// # Errors
    ///
    /// Memory ran out.
    pub fn share(&self) -> Result<State, NoMemory>
        ensures { IfOk result (λ s. s ≡ self.now) }
    {
        Ok(State {
            graph: Arc::try_clone(&self.graph)?,
            reverse: Arc::try_clone(&self.reverse)?,
            front: self.front.share()?,
            removed: Arc::try_clone(&self.removed)?,
            added: Arc::try_clone(&self.added)?,
            supports: Arc::try_clone(&self.supports)?,
            last_changes: Arc::try_clone(&self.last_changes)?,
            totals: Arc::try_clone(&self.totals)?,
            pages: Arc::try_clone(&self.pages)?,
            moved: self.moved,
        })
    }

    /// The log.
    pub fn front(&self) -> &Front
        ensures { result.now ≡ self.now.log }
    {
        &self.front
    }

    /// The dump's graph.
    pub fn graph(&self) -> &Graph
        ensures { result.now ≡ self.now.dump }
    {
        &self.graph
    }

    /// How well an object can be reached.
    pub fn strength(&self, o: u32) -> Strength
        requires { o < length self.now.dump.objects }
        ensures { HasStrength (standing self.now.dump self.now.log) o result }
    {
        settled_supports_give_strengths();
        self.supports.strength(o)
    }

    /// The graph under the log, with its strengths.
    fn solved(&self) -> Solved<'_>
        ensures dump { result.graph.now ≡ self.now.dump }
        ensures log { result.front.now ≡ self.now.log }
        ensures strengths { result.strengths.now ≡ self.now.kept }
        ensures kept { AreKept result.graph.now result.front.now result.strengths.now }
        ensures changes { AreLastChanges result.graph.now result.front.now result.strengths.now result.last_changes.now }
    {
        Solved {
            graph: &self.graph,
            front: &self.front,
            strengths: &self.supports,
            last_changes: &self.last_changes,
        }
    }

    /// A mark of this state, to be compared with later states of the same graph. Nothing is copied.
    ///
    /// # Errors
    ///
    /// Memory ran out.
    pub fn mark(&self) -> Result<Mark, NoMemory>
        ensures dump { IfOk result (λ m. m.dump ≡ self.now.dump) }
        ensures log { IfOk result (λ m. m.log ≡ self.now.log) }
    {
        let graph = Arc::try_clone(&self.graph)?;
        let front = self.front.share()?;
        let supports = Arc::try_clone(&self.supports)?;
        let last_changes = Arc::try_clone(&self.last_changes)?;
        Ok(Mark::new(graph, front, supports, last_changes))
    }

    /// The IDs of the objects that are unreachable and were not at a mark, ascending: the first `most` of them, without a number all.
    /// It takes memory for those alone. Where the log begins with that of the mark, only the pages of 1,024 objects are gone through
    /// that have changed since.
    ///
    /// # Errors
    ///
    /// Memory ran out.
    pub fn fell(&self, alloc: Global, mark: &Mark, most: Option<u32>) -> Result<Vec<u64>, NoMemory>
        requires { mark.now.dump ≡ self.now.dump }
        ensures { IfOk result (λ v. AreFirst most (AreFallen self.now.dump mark.now.log self.now.log) v.items) }
    {
        fallen_ids(alloc, mark.solved(), self.solved(), most)
    }

    /// The pairs of strengths that have objects which had the first at a mark and have the second now, in their order, with how many
    /// these are and their recorded bytes. There are at most 30. Where the log begins with that of the mark, only the pages of 1,024
    /// objects are gone through that have changed since.
    ///
    /// # Errors
    ///
    /// Memory ran out.
    pub fn moved(&self, alloc: Global, mark: &Mark) -> Result<Vec<MovedRow>, NoMemory>
        requires { mark.now.dump ≡ self.now.dump }
        ensures { IfOk result (λ v. AreMovedRows self.now.dump mark.now.log self.now.log v.items) }
    {
        moved_rows(alloc, mark.solved(), self.solved())
    }

    /// How many objects are unreachable and were not at a mark, and their recorded bytes; and the groups of these, with the same of
    /// each, those with the most bytes first. Where the log begins with that of the mark, only the pages of 1,024 objects are gone
    /// through that have changed since.
    ///
    /// # Errors
    ///
    /// Memory ran out.
    pub fn freed(&self, alloc: Global, mark: &Mark) -> Result<Freed, NoMemory>
        requires { mark.now.dump ≡ self.now.dump }
        ensures total { IfOk result (λ f. IsTotalOf self.now.dump (Falls self.now.dump mark.now.log self.now.log) f.total.count f.total.bytes) }
        ensures rows { IfOk result (λ f. AreTopRows self.now.dump (Falls self.now.dump mark.now.log self.now.log) f.rows.items) }
    {
        freed_rows(alloc, mark.solved(), self.solved())
    }

    /// The IDs of the objects of a group that have a strength, ascending: the first `most` of them, without a number all. It takes
    /// memory for those alone. Only the pages of 1,024 objects are gone through that may have objects of the group, and where only
    /// some IDs are wanted, of these pages only those with an ID that is low enough.
    ///
    /// # Errors
    ///
    /// Memory ran out.
    pub fn members(
        &self,
        alloc: Global,
        group: Group,
        strength: Strength,
        most: Option<u32>,
    ) -> Result<Vec<u64>, NoMemory>
        ensures { IfOk result (λ v. AreFirst most (AreMembers self.now.dump self.now.log group strength) v.items) }
    {
        let members = Members {
            group,
            strength,
            pages: &self.pages,
        };
        member_ids(alloc, self.solved(), members, most)
    }

    /// How many objects of a group have a strength, and their recorded bytes. They are looked up; it takes no memory.
    pub fn total(&self, group: Group, strength: Strength) -> (u64, u64)
        ensures total { IsGroupTotal self.now.dump self.now.log group strength result.0 result.1 }
        ensures count { result.0 ≡ member_count self.now.dump self.now.kept group strength }
    {
        settled_supports_give_strengths();
        one_strength();
        let total = self.totals.total(group, strength);
        (total.count, total.bytes)
    }

    /// The groups that have objects of a strength, in their order, each with the number of these objects and their recorded
    /// bytes. All groups are gone through, and no objects.
    ///
    /// # Errors
    ///
    /// Memory ran out.
    pub fn classes(&self, alloc: Global, strength: Strength) -> Result<Vec<ClassRow>, NoMemory>
        ensures { IfOk result (λ v. AreClassRows self.now.dump self.now.log strength v.items) }
    {
        settled_supports_give_strengths();
        one_strength();
        let rows = self.totals.classes(alloc, strength)?;
        Ok(rows)
    }

    /// The same rows as `classes` has, those with the most bytes first.
    ///
    /// # Errors
    ///
    /// Memory ran out.
    pub fn top(&self, alloc: Global, strength: Strength) -> Result<Vec<ClassRow>, NoMemory>
        ensures { IfOk result (λ v. AreTopRows self.now.dump (λ (o : ℕ). HasStrength (standing self.now.dump self.now.log) o strength) v.items) }
    {
        let rows = self.classes(alloc, strength)?;
        Ok(ranked(rows))
    }

    /// The groups of the objects, and for each class object that of its instances: each once, in their order.
    ///
    /// # Errors
    ///
    /// Memory ran out.
    pub fn groups(&self, alloc: Global) -> Result<Vec<Group>, NoMemory>
        ensures groups { IfOk result (λ v. AreNamedGroups self.now.dump (λ group. Unit {0}) v.items) }
        ensures counts { AreGroupCounts self.now.dump self.now.log (member_count self.now.dump self.now.kept) }
    {
        settled_supports_give_strengths();
        one_strength();
        named_groups(alloc, &self.graph, &self.totals)
    }

    /// The chain of an object: a root path of the object's strength in which no object occurs twice, by the supports that are
    /// kept. There is none where the object is unreachable, or the graph has no object of this number. It has fewer links than
    /// the graph has objects.
    ///
    /// # Errors
    ///
    /// Memory ran out.
    pub fn chain(&self, alloc: Global, o: u32) -> Result<Option<Chain>, NoMemory>
        ensures { IfOk result (λ c. IsChainFound self.now.dump self.now.log self.now.kept o c) }
    {
        chain_of(alloc, self.solved(), o)
    }

    /// The graph as the log leaves it.
    fn edited(&self) -> Edited<'_>
        ensures dump { result.graph.now ≡ self.now.dump }
        ensures log { result.front.now ≡ self.now.log }
        ensures removed { IsRemovedBy self.now.dump self.now.log result.removed.now }
    {
        Edited {
            graph: &self.graph,
            front: &self.front,
            removed: &self.removed,
        }
    }

    /// All slots of an object, in their order, as the log leaves them.
    ///
    /// # Errors
    ///
    /// Memory ran out.
    pub fn slots(&self, alloc: Global, o: u32) -> Result<Vec<SlotRow>, NoMemory>
        requires { o < length self.now.dump.objects }
        ensures { IfOk result (λ v. v.items ≡ slot_rows self.now.dump self.now.log (object_at self.now.dump o)) }
    {
        rows_of(alloc, self.edited(), o)
    }

    /// All roots in the order of their numbers, as the log leaves them: those of the dump, and those that live edits add.
    ///
    /// # Errors
    ///
    /// Memory ran out.
    pub fn roots(&self, alloc: Global) -> Result<Vec<RootRow>, NoMemory>
        ensures { IfOk result (λ v. v.items ≡ root_rows self.now.dump self.now.log) }
    {
        root_rows(alloc, self.edited())
    }

    /// All references of the dump to an object, in the order of the objects that they are from and of their slots, as the log
    /// leaves them: those that stand, and those that a live edit takes away. It takes time by the references to the object.
    ///
    /// # Errors
    ///
    /// Memory ran out.
    pub fn into(&self, alloc: Global, o: u32) -> Result<Vec<IntoRow>, NoMemory>
        requires { o < length self.now.dump.objects }
        ensures { IfOk result (λ v. v.items ≡ into_rows self.now.dump self.now.log o) }
    {
        into_rows(alloc, self.edited(), &self.reverse, o)
    }

    /// The graph as the log leaves it, to be looked at edge by edge. No look is made yet. It takes no memory.
    pub fn view(&self) -> View<'_>
        ensures { result ≡ record { dump = self.now.dump; log = self.now.log; looks = 0 } }
    {
        View::new(
            &self.graph,
            &self.reverse,
            &self.front,
            &self.removed,
            &self.added,
        )
    }

    /// The strengths, supports and stamps of the objects, in pages that are shared with the state's own.
    ///
    /// # Errors
    ///
    /// Memory ran out.
    pub fn supports(&self, alloc: Global) -> Result<Supports, NoMemory>
        ensures same { IfOk result (λ s. s ≡ self.now.kept) }
        ensures kept { IfOk result (λ s. AreKept self.now.dump self.now.log s) }
    {
        let supports = self.supports.share(alloc)?;
        Ok(supports)
    }

    /// Whether the slot at an index of an object is an edge that stands: its ID is an object's, and no live edit takes it
    /// away. Past the last object and the last slot there is none. It takes no memory.
    pub fn edge_stands(&self, o: u32, i: u32) -> bool
        ensures { result ≡ edge_stands self.now.dump self.now.log o i }
    {
        edge_stands(self.edited(), o, i)
    }

    /// Whether a root has this number, one of the dump's or that of a live event that adds one, and no live edit drops it. It
    /// takes no memory.
    pub fn root_stands(&self, r: u64) -> bool
        ensures { result ≡ root_stands (length self.now.dump.roots) self.now.log r }
    {
        root_stands(self.edited(), r)
    }
}
