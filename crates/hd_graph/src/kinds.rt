//! The references of each kind that isn't strong: they go through the referents of reference objects, and are found once.
ghost use Rattle.std.specs.Prelude.{◌≡◌, ◌<◌, ◌^◌, [], ◌∷◌, ◌++◌, if◌then◌else◌, length, slice_get, Some, IfOk, OnOk};
ghost use Rattle.hd_terms.specs.declared.RefKind.{RefKind as OneKind};
ghost use Rattle.hd_terms.specs.Edges.{kind_edges};
ghost use Rattle.hd_terms.specs.Paths.{Edge};
ghost use Rattle.hd_terms.specs.Ranks.{kind_of_references, same_kind};
ghost use Rattle.hd_graph.specs.Shapes.{AreColumns, row_objects};
ghost use Rattle.hd_graph.specs.Kinds.{kept_of, IsReferentEdge, AreKindsOfPart, AreKinds};

use crate::graph::{Graph, index_in, kind_of_slot, referent_in};
use hd_shapes::{JoinedShapes, ShapeList};
use hd_slots::SlotTable;
use hd_terms::{EdgeKind, RefKind, Slot};
use hd_threads::map_indices;
use std::alloc::{AllocError, Global};
use std::thread::Threads;

/// A reference from an object to an object: the number of the first, and the index of the slot among its slots.
#[derive(Clone, Copy)]
pub(crate) struct KeptEdge {
    pub(crate) source: u32,
    pub(crate) index: u32,
}

const _: () = prove!(size_of::<KeptEdge>() <= 8);

/// The references that go through referents, a list for each kind, in the order of their sources. It takes 8 bytes a reference.
pub struct KindLists {
    soft: Vec<KeptEdge>,
    weak: Vec<KeptEdge>,
    finals: Vec<KeptEdge>,
    phantom: Vec<KeptEdge>,
}

impl Drop for KindLists {
    /// Drops the fields. A derived drop would be proved anew at each place that lets go of one.
    fn drop(self) {
        let Self {
            soft,
            weak,
            finals,
            phantom,
        } = self;
    }
}

impl KindLists {
    /// No references.
    fn none(alloc: Global) -> KindLists
        ensures { (k : OneKind) → kept_of result k ≡ [] }
    {
        KindLists {
            soft: Vec::new(alloc),
            weak: Vec::new(alloc),
            finals: Vec::new(alloc),
            phantom: Vec::new(alloc),
        }
    }

    /// The references of a kind.
    fn of(&self, kind: RefKind) -> &[KeptEdge]
        ensures { result.now ≡ kept_of self.now kind }
    {
        match kind {
            RefKind::Soft => self.soft.as_slice(),
            RefKind::Weak => self.weak.as_slice(),
            RefKind::Final => self.finals.as_slice(),
            RefKind::Phantom => self.phantom.as_slice(),
        }
    }

    /// Keeps a reference of a kind, unless it is strong.
    fn push(&mut self, kind: EdgeKind, edge: KeptEdge) -> Result<(), AllocError>
        ensures { OnOk result ((k : OneKind) → kept_of self.new k ≡ kept_of self.old k ++ (if same_kind kind (kind_of_references k) then edge ∷ [] else [])) }
    {
        match kind {
            EdgeKind::Strong => {}
            EdgeKind::Soft => self.soft.push(edge)?,
            EdgeKind::Weak => self.weak.push(edge)?,
            EdgeKind::Final => self.finals.push(edge)?,
            EdgeKind::Phantom => self.phantom.push(edge)?,
        }
        Ok(())
    }

    /// Keeps the references of other lists behind those that are kept.
    fn append(&mut self, more: KindLists) -> Result<(), AllocError>
        ensures { OnOk result ((k : OneKind) → kept_of self.new k ≡ kept_of self.old k ++ kept_of more k) }
    {
        let KindLists {
            mut soft,
            mut weak,
            mut finals,
            mut phantom,
        } = more;
        self.soft.append(&mut soft)?;
        self.weak.append(&mut weak)?;
        self.finals.append(&mut finals)?;
        self.phantom.append(&mut phantom)?;
        Ok(())
    }
}

/// How many parts of the objects are gone over at once.
const PARTS: usize = 4;

/// The index of an object's referent among its slots, and the kind of the reference there, if it refers to an object.
fn referent_edge(
    slot_table: &SlotTable,
    shapes: &mut ShapeList<'_>,
    o: u32,
) -> Option<(u32, EdgeKind)>
    requires columns { AreColumns shapes.old.objects slot_table.now.ids slot_table.now.rows }
    requires object { o < length slot_table.now.ids }
    ensures edge { IsReferentEdge (row_objects shapes.old.objects slot_table.now.ids slot_table.now.rows) o result }
    ensures same { shapes.new ≡ shapes.old }
{
    let shape = shapes.get(o);
    let Some(referent) = referent_in(shape) else {
        return None;
    };
    let Some(index) = index_in(shape, slot_table.row_len(o), referent) else {
        return None;
    };
    let (_, target) = slot_table.get(o, index);
    if target.is_some() {
        return Some((index, kind_of_slot(shape, referent)));
    }
    None
}

/// The references that go through the referents of the objects of one of four parts, into which the objects are cut by their
/// numbers. Only the slots of objects that have a referent are looked at.
fn kinds_of_part(
    alloc: Global,
    slot_table: &SlotTable,
    shapes: &JoinedShapes,
    part: usize,
) -> Result<KindLists, AllocError>
    requires columns { AreColumns shapes.now.objects slot_table.now.ids slot_table.now.rows }
    requires few { length slot_table.now.ids < 2 ^ 31 }
    requires part { part < 4 }
    ensures { IfOk result (AreKindsOfPart (row_objects shapes.now.objects slot_table.now.ids slot_table.now.rows) part) }
{
    let mut lists = KindLists::none(alloc);
    let mut list = shapes.as_list();
    let objects = slot_table.objects();
    let start = objects * part / PARTS;
    let end = objects * (part + 1) / PARTS;
    for o in start as u32..end as u32 {
        if let Some((index, kind)) = referent_edge(slot_table, &mut list, o) {
            lists.push(kind, KeptEdge { source: o, index })?;
        }
    }
    Ok(lists)
}

/// The references that go through referents. Those of four parts of the objects are found side by side; where the system refuses
/// a thread, one part after the other.
pub(crate) fn kinds_of<R: Threads + Sync>(
    rt: &R,
    alloc: Global,
    slot_table: &SlotTable,
    shapes: &JoinedShapes,
) -> Result<KindLists, AllocError>
    requires columns { AreColumns shapes.now.objects slot_table.now.ids slot_table.now.rows }
    requires few { length slot_table.now.ids < 2 ^ 31 }
    ensures { IfOk result (λ lists. AreKinds (row_objects shapes.now.objects slot_table.now.ids slot_table.now.rows) lists) }
{
    let kinds_of_one = |part: usize| -> Result<KindLists, AllocError>
        requires columns { AreColumns shapes.now.objects slot_table.now.ids slot_table.now.rows }
        requires few { length slot_table.now.ids < 2 ^ 31 }
        requires part { part < 4 }
        ensures { IfOk result (AreKindsOfPart (row_objects shapes.entry.now.objects slot_table.entry.now.ids slot_table.entry.now.rows) part) }
    { kinds_of_part(alloc, slot_table, shapes, part) };
    let parts = map_indices(rt, alloc, PARTS, &kinds_of_one)?;
    let mut lists = KindLists::none(alloc);
    for part in parts {
        lists.append(part?)?;
    }
    Ok(lists)
}

impl Graph {
    /// How many references of the dump go through the referents of reference objects of a kind, to objects. The lists are the
    /// graph's own.
    pub fn kind_len(&self, kinds: &KindLists, kind: RefKind) -> u32
        requires { AreKinds self.now.objects kinds.now }
        ensures { result ≡ length (kind_edges self.now kind) }
    {
        kinds.of(kind).len() as u32
    }

    /// One of these references, in the order of the objects' numbers: the number of the reference object, and its referent. The
    /// lists are the graph's own.
    pub fn kind_edge(&self, kinds: &KindLists, kind: RefKind, i: u32) -> (u32, Slot)
        requires kinds { AreKinds self.now.objects kinds.now }
        requires index { i < length (kind_edges self.now kind) }
        ensures { (e : Edge) × (slice_get (kind_edges self.now kind) i ≡ Some e) × (result ≡ (e.source, e.slot)) }
    {
        let kept = kinds.of(kind)[i as usize];
        (kept.source, self.slots(kept.source, kept.index).slot)
    }
}
