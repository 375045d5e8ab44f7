//! The totals of the groups of a dump.
ghost use Rattle.std.specs.Prelude.{◌≡◌, ◌+◌, ◌<◌, ◌≤◌, ◌^◌, List, length, Contains, MatchOption, IfOk, OnOk};
ghost use Rattle.hd_terms.specs.Listed.{group_key};
ghost use Rattle.hd_terms.specs.Settled.{Reached};
ghost use Rattle.hd_totals.specs.Counting.{AreWhole, totals_of};
ghost use Rattle.hd_totals.specs.GroupPages.{AreNoted};
ghost use Rattle.hd_totals.specs.Keys.{AreKeys};
ghost use Rattle.hd_totals.specs.Members.{InRange};
ghost use Rattle.hd_totals.specs.Running.{plus_one, less_one, IsRowPut};
ghost use Rattle.hd_totals.specs.Totals.{place_of, row_at, total_in, AreTotals, AreTotalsBefore, CanChange};

use crate::ahead::Ahead;
use crate::counting::{Counted, Share, count_all};
use crate::group_pages::GroupPages;
use crate::keys::{GroupKeys, key_of};
use crate::total::{StrengthTotals, Total};
use hd_graph::Graph;
use hd_pages::Pages;
use hd_repair::Change;
use hd_supports::Supports;
use hd_terms::{Group, NoMemory, Strength};
use std::alloc::Global;
use std::marker::Model;
use std::sync::Arc;
use std::thread::Threads;

/// How many objects of each group have each strength, and their recorded bytes. Versions share the keys of the groups,
/// which never change, and the pages of totals that are equal.
pub struct GroupTotals {
    pub(crate) keys: Arc<GroupKeys>,
    pub(crate) rows: Pages<StrengthTotals>,
    /// The group of which an object was moved last, and where its totals are. Changes often come group by group.
    last: Option<Placed>,
}

/// A group, and where its totals are.
#[derive(Clone, Copy)]
pub(crate) struct Placed {
    group: Group,
    place: u32,
}

impl Drop for GroupTotals {
    /// Drops the fields. A derived drop would be proved anew at each place that lets go of one.
    fn drop(self) {
        let Self {
            keys,
            rows,
            last: _,
        } = self;
    }
}

impl Model for GroupTotals {
    ghost use Rattle.std.specs.Arc.{arc_value};
    ghost use Rattle.hd_totals.specs.Totals.{Totals};
    ghost use Rattle.hd_totals.specs.Placed.{HavePlaces};

    ghost Value = { Totals };

    ghost view = { λ t. record { keys = arc_value t.keys; rows = t.rows } };

    ghost invariant = { λ t. HavePlaces (record { keys = arc_value t.keys; rows = t.rows }) t.last };
}

impl GroupTotals {
    /// The totals of all objects, and which pages have objects of a group, in one pass, which four threads share.
    ///
    /// # Errors
    ///
    /// Memory ran out.
    pub fn of<R: Threads + Sync>(
        rt: &R,
        alloc: Global,
        graph: &Graph,
        supports: &Supports,
    ) -> Result<(GroupTotals, GroupPages), NoMemory>
        requires { length supports.now ≡ length graph.now.objects }
        ensures totals { IfOk result (λ r. AreTotals graph.now supports.now r.0) }
        ensures pages { IfOk result (λ r. AreNoted graph.now r.1) }
    {
        let Share { counted, pages } = count_all(rt, alloc, graph, supports)?;
        let totals = GroupTotals::of_counted(alloc, counted)?;
        Ok((totals, pages))
    }

    /// These totals, with the keys of their groups.
    ///
    /// # Errors
    ///
    /// Memory ran out.
    pub fn of_counted(alloc: Global, counted: Counted) -> Result<GroupTotals, NoMemory>
        requires whole { AreWhole counted }
        requires few { length (totals_of counted).keys < 2 ^ 32 }
        ensures { IfOk result (λ t. t ≡ totals_of counted) }
    {
        let Counted {
            keys,
            rows,
            last: _,
        } = counted;
        let rows = Pages::of_vec(alloc, rows)?;
        let keys = Arc::new(alloc, keys)?;
        Ok(GroupTotals {
            keys,
            rows,
            last: None,
        })
    }

    /// An equal version.
    ///
    /// # Errors
    ///
    /// Memory ran out.
    pub fn share(&self, alloc: Global) -> Result<GroupTotals, NoMemory>
        ensures { IfOk result (λ t. t ≡ self.now) }
    {
        let keys = Arc::try_clone(&self.keys)?;
        let rows = self.rows.share(alloc)?;
        let last = self.last;
        Ok(GroupTotals { keys, rows, last })
    }

    /// Where the totals of a group are, if it is there.
    fn place(&self, group: Group) -> Option<u32>
        ensures place { MatchOption result (length self.now.rows ≤ place_of self.now (group_key group)) (λ i. (i ≡ place_of self.now (group_key group)) × (i < length self.now.rows)) }
        ensures range { InRange group }
        ensures keys { AreKeys self.now.keys }
        ensures whole { length self.now.rows ≡ length self.now.keys }
    {
        let _count = self.rows.len();
        match self.keys.index_of(key_of(group)) {
            Some(index) => Some(index as u32),
            None => None,
        }
    }

    /// The same as `place`. Nothing is looked up where the group is the one of which an object was moved last.
    fn place_again(&self, group: Group) -> Option<u32>
        ensures place { MatchOption result (length self.now.rows ≤ place_of self.now (group_key group)) (λ i. (i ≡ place_of self.now (group_key group)) × (i < length self.now.rows)) }
        ensures whole { length self.now.rows ≡ length self.now.keys }
    {
        if let Some(last) = self.last
            && last.group == group
        {
            return Some(last.place);
        }
        self.place(group)
    }

    /// The total of a group and a strength: nothing, where the group isn't there.
    pub fn total(&self, group: Group, strength: Strength) -> Total
        ensures total { result ≡ total_in self.now group strength }
        ensures range { InRange group }
    {
        match self.place(group) {
            Some(place) => self.rows.get(place).of(strength),
            None => Total::none(),
        }
    }

    /// Moves an object of a group, which has `bytes` bytes, from the total of one strength to that of another.
    fn move_object(
        &mut self,
        group: Group,
        bytes: u64,
        before: Strength,
        after: Strength,
    ) -> Result<(), NoMemory>
        requires there { Contains self.old.keys (group_key group) }
        requires count { 1 ≤ (total_in self.old group before).count }
        requires bytes { bytes ≤ (total_in self.old group before).bytes }
        requires count_room { (total_in self.old group after).count + 1 < 2 ^ 64 }
        requires bytes_room { (total_in self.old group after).bytes + bytes < 2 ^ 64 }
        ensures { OnOk result (IsRowPut self.old self.new (group_key group) (plus_one (less_one (row_at self.old (group_key group)) before bytes) after bytes)) }
    {
        let Some(place) = self.place_again(group) else {
            return Ok(());
        };
        let mut row = self.rows.get(place);
        row.take(before, bytes);
        row.add(after, bytes);
        self.rows.with(place, row)?;
        self.last = Some(Placed { group, place });
        Ok(())
    }

    /// Moves each changed object from the total of its strength before to that of its strength after. The totals are those of
    /// what was kept before the changes, and become those of what is kept after them.
    ///
    /// # Errors
    ///
    /// Memory ran out. The totals may not be used further: some of the changes may be missing.
    pub fn apply(&mut self, graph: &Graph, changes: &[Change]) -> Result<(), NoMemory>
        requires { CanChange graph.now self.old changes.now }
        ensures { OnOk result ((before after : List Reached) → AreTotalsBefore graph.now self.old changes.now before after → AreTotals graph.now after self.new) }
    {
        let mut ahead = Ahead::none();
        for change in changes {
            ahead.read(graph, changes);
            let group = graph.group_of(change.object());
            let bytes = graph.bytes_of(change.object());
            self.move_object(group, bytes, change.before(), change.after())?;
        }
        Ok(())
    }
}
