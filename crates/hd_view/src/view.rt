//! `View`: the edges and roots of a graph under a log.
ghost use Rattle.std.specs.Prelude.{◌≡◌, ◌+◌, ◌-◌, ◌<◌, ◌^◌, min, true, length, slice_get, Some};
ghost use Rattle.hd_terms.specs.Dump.{SlotEntry, object_at};
ghost use Rattle.hd_edges.specs.Marks.{marked_edge, marked_root};
ghost use Rattle.hd_strength.specs.Removed.{IsRemovedBy};
ghost use Rattle.hd_reverse.specs.Reverse.{IsReverseOf};
ghost use Rattle.hd_view.specs.Added.{IsAddedBy};
ghost use Rattle.hd_view.specs.Finding.{is_edge, IsMark};
ghost use Rattle.hd_view.specs.RootMarks.{numbers_of_roots};

use crate::added::AddedRoots;
use crate::edited::{Edited, root_stands};
use crate::finding::{Cursor, edge_count, edge_slot};
use hd_edges::{EdgeMark, Edges, RootMark};
use hd_graph::Graph;
use hd_log::Front;
use hd_reverse::ReverseRows;
use hd_strength::Removed;
use hd_terms::Mode;
use std::marker::Model;

/// A graph as a log leaves it, to be looked at edge by edge. Edges that are read in their order are found where the last
/// one was.
#[derive(Drop)]
pub struct View<'a> {
    edited: Edited<'a>,
    reverse: &'a ReverseRows,
    added: &'a AddedRoots,
    looks: u64,
    cursor: Cursor,
}

impl<'a> Model for View<'a> {
    ghost use Rattle.hd_view.specs.Viewed.{Viewed};

    ghost Value = { Viewed };

    ghost use Rattle.hd_view.specs.ViewInside.{viewed_of, IsView};

    ghost view = { viewed_of };

    ghost invariant = { IsView };
}

/// A count of looks with one more, which stays at `u64::MAX`.
fn one_more(looks: u64) -> u64
    ensures { result ≡ min (looks + 1) (2 ^ 64 - 1) }
{
    looks.saturating_add(1)
}

/// Reads where the row of an object begins, and what shape the object has. The answer means nothing.
fn read_row(graph: &Graph, o: u32) -> u32 {
    if o >= graph.objects() {
        return 0;
    }
    let shape = u32::from(graph.referent_of(o).is_some());
    graph.slots_len(o).wrapping_add(shape)
}

/// The edge in the slot at an index of an object, and whether it stands. The ID in the slot isn't read.
fn edge_mark(edited: Edited<'_>, o: u32, index: u32) -> EdgeMark
    requires removed { IsRemovedBy edited.graph.now edited.front.now edited.removed.now }
    requires object { o < length edited.graph.now.objects }
    requires index { index < length (object_at edited.graph.now o).slots }
    requires edge { (s : SlotEntry) → slice_get (object_at edited.graph.now o).slots index ≡ Some s → is_edge edited.graph.now s ≡ true }
    ensures { IsMark edited.entry.graph.now edited.entry.front.now o index (marked_edge result) }
{
    let name = edited.graph.slot_name(o, index);
    let target = edited.graph.targets(o).get(index);
    EdgeMark {
        source: o,
        slot: name.slot,
        target: target.unwrap(),
        kind: name.kind,
        stands: !edited.removed.slot(edited.graph, o, index, name.kind),
    }
}

/// The number of the root at an index of those on an object: the dump's come first, then those that events add.
fn root_number(graph: &Graph, reverse: &ReverseRows, added: &AddedRoots, o: u32, i: u32) -> u64
    requires { i < length (numbers_of_roots (length graph.now.roots) reverse.now added.now o) }
    ensures { slice_get (numbers_of_roots (length graph.now.roots) reverse.now added.now o) i ≡ Some result }
{
    let own = reverse.roots_len(o);
    if i < own {
        u64::from(reverse.root(o, i))
    } else {
        u64::from(graph.roots_len()) + u64::from(added.event(o, i - own))
    }
}

impl<'a> View<'a> {
    /// A graph under a log, by its reverse index, by what the log takes away, and by the roots that it adds. No look is
    /// made yet. It takes no memory.
    pub fn new(
        graph: &'a Graph,
        reverse: &'a ReverseRows,
        front: &'a Front,
        removed: &'a Removed,
        added: &'a AddedRoots,
    ) -> View<'a>
        requires reverse { IsReverseOf graph.now reverse.now }
        requires removed { IsRemovedBy graph.now front.now removed.now }
        requires added { IsAddedBy graph.now front.now added.now }
        ensures { result ≡ record { dump = graph.now; log = front.now; looks = 0 } }
    {
        View {
            edited: Edited {
                graph,
                front,
                removed,
            },
            reverse,
            added,
            looks: 0,
            cursor: Cursor {
                object: 0,
                edges: 0,
                slot: 0,
            },
        }
    }
}

impl View<'_> {
    /// How many looks a search afresh takes at most: one for each root, and for each edge one where its source passes its strength
    /// on, and one where its target takes it.
    pub fn search_looks(&self) -> u64 {
        let roots = u64::from(self.edited.graph.roots_len()) + u64::from(self.edited.front.len());
        self.reverse.len().saturating_mul(2).saturating_add(roots)
    }
}

impl Edges for View<'_> {
    ghost use Rattle.hd_terms.specs.EdgeRows.{rows_of};
    ghost use Rattle.hd_view.specs.Lawful.{lawful_rows};

    ghost rows = { λ v. rows_of v.dump v.log };

    ghost look_count = { λ v. v.looks };

    fn mode(&self) -> Mode {
        self.edited.graph.mode()
    }

    fn objects(&self) -> u32 {
        self.edited.graph.objects()
    }

    fn out_len(&self, o: u32) -> u32 {
        edge_count(self.edited.graph, o)
    }

    fn read_ahead(&self, o: u32) -> u32 {
        read_row(self.edited.graph, o)
    }

    fn out(&mut self, o: u32, i: u32) -> EdgeMark {
        let slot = edge_slot(self.edited.graph, self.cursor, o, i);
        let mark = edge_mark(self.edited, o, slot);
        self.cursor = Cursor {
            object: o,
            edges: i,
            slot,
        };
        self.looks = one_more(self.looks);
        mark
    }

    fn into_len(&self, o: u32) -> u32 {
        self.reverse.into_len(o)
    }

    fn into(&mut self, o: u32, i: u32) -> EdgeMark {
        let referrer = self.reverse.into(o, i);
        let mark = edge_mark(self.edited, referrer.source, referrer.index);
        self.looks = one_more(self.looks);
        mark
    }

    fn root_len(&self, o: u32) -> u32 {
        self.reverse.roots_len(o) + self.added.len(o)
    }

    fn root(&mut self, o: u32, i: u32) -> RootMark {
        let number = root_number(self.edited.graph, self.reverse, self.added, o, i);
        let stands = root_stands(self.edited, number);
        self.looks = one_more(self.looks);
        RootMark {
            number,
            target: o,
            stands,
        }
    }

    fn looks(&self) -> u64 {
        self.looks
    }

    fn unseen(&self) -> Self {
        View {
            edited: self.edited,
            reverse: self.reverse,
            added: self.added,
            looks: 0,
            cursor: self.cursor,
        }
    }

    fn add_looks(&mut self, looks: u64) {
        self.looks = self.looks.saturating_add(looks);
    }

    ghost lawful = { λ v. lawful_rows v.dump v.log };
}
