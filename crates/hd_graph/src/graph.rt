//! Looking up the graph: objects by number or ID, their slots, their sizes, and the roots.
ghost use Rattle.std.specs.Prelude.{◌≡◌, ◌<◌, ◌^◌, ℕ, [], length, map, position, slice_get, None, Some, true, ◌≤◌, All, IfOk, MatchOption, sum_by};
ghost use Rattle.std.specs.List.{slice_index_or};
ghost use Rattle.std.specs.Option.{option_map, option_copied};
ghost use Rattle.hd_terms.specs.Counts.{unresolved_of};
ghost use Rattle.hd_terms.specs.Edges.{index_of};
ghost use Rattle.hd_terms.specs.EditedDump.{same_slot};
ghost use Rattle.hd_terms.specs.Dump.{SlotEntry, NamedClass, object_at, name_in, named_class, static_name};
ghost use Rattle.hd_terms.specs.declared.Slot.{Slot};
ghost use Rattle.hd_shapes.specs.Shapes.{shape_bytes};
ghost use Rattle.hd_shapes.specs.PackedShapes.{shape_view};
ghost use Rattle.hd_graph.specs.Arrays.{row_index};
ghost use Rattle.hd_graph.specs.Counting.{edges_of};
ghost use Rattle.hd_graph.specs.Shapes.{slot_name, slot_kind, shape_index, shape_referent, IsNamedAt, HasFewNames};

use crate::kinds::{KindLists, kinds_of};
use hd_classes::ClassNames;
use hd_names::{FieldNames, NamedClasses};
use hd_shapes::{JoinedShapes, Shape};
use hd_slots::{IdCounts, SlotTable, Targets};
use hd_terms::{EdgeKind, Group, Mode, RootKind, Slot};
use std::alloc::{AllocError, Global};
use std::marker::Model;
use std::thread::Threads;

/// The objects, references and roots of a dump. Objects are numbered from 0 in file order.
pub struct Graph {
    slot_table: SlotTable,
    shapes: JoinedShapes,
    roots: Vec<StoredRoot>,
    repeats: Repeats,
    opaque: u64,
    mode: Mode,
    names: ClassNames,
    /// The names that go with class objects, if they are kept.
    classes: Option<NamedClasses>,
}

impl Drop for Graph {
    /// Drops the fields. A derived drop would be proved anew at each place that lets go of one.
    fn drop(self) {
        let Self {
            slot_table,
            shapes,
            roots,
            repeats: _,
            opaque: _,
            mode: _,
            names,
            classes,
        } = self;
    }
}

/// How many sub-records of objects and records have the ID of an earlier one.
#[derive(Clone, Copy)]
pub(crate) struct Repeats {
    pub(crate) objects: u64,
    pub(crate) strings: u64,
    pub(crate) loads: u64,
}

/// A root as it is kept.
#[derive(Clone, Copy)]
pub(crate) struct StoredRoot {
    pub(crate) kind: RootKind,
    pub(crate) id: u64,
}

/// A slot of an object.
#[derive(Clone, Copy)]
pub struct SlotRead {
    pub slot: Slot,
    /// What a reference in the slot goes through.
    pub kind: EdgeKind,
    /// The ID in the slot, 0 for null.
    pub id: u64,
    /// The number of the object with that ID, if there is one.
    pub target: Option<u32>,
}

/// What a slot of an object is called, and what a reference in it goes through.
#[derive(Clone, Copy)]
pub struct SlotName {
    pub slot: Slot,
    pub kind: EdgeKind,
}

/// A root of the dump.
#[derive(Clone, Copy, PartialEq, Eq)]
pub struct RootRead {
    pub kind: RootKind,
    /// The ID of the object that the root holds.
    pub id: u64,
    /// The number of that object, if the dump has it.
    pub object: Option<u32>,
}

/// The index of a slot in a row of `len` IDs, if the row has it: elements first, then the class.
fn index_in_row(len: u32, slot: Slot) -> Option<u32>
    ensures { result ≡ row_index len slot }
{
    let class = len.checked_sub(1)?;
    match slot {
        Slot::Element(i) if i < class => Some(i),
        Slot::OfClass => Some(class),
        _ => None,
    }
}

/// The index of a slot among names, if it is there.
fn index_among(names: &[Slot], slot: Slot) -> Option<u32>
    requires { length names.now < 2 ^ 32 }
    ensures { result ≡ position (λ (name : Slot). same_slot name slot) names.now }
{
    for i in 0..names.len() {
        if names[i] == slot {
            return Some(i as u32);
        }
    }
    None
}

/// The name of the slot at the index `i` of an object with `len` slots.
fn slot_at(shape: Shape<'_>, len: u32, i: u32) -> Slot
    requires index { i < len }
    requires named { IsNamedAt (shape_view shape) i }
    ensures { result ≡ slot_name (shape_view shape.entry) len i }
{
    match shape {
        Shape::Class(class) => class.names[i as usize],
        Shape::Instance(layout) => layout.names[i as usize],
        _ if i == len - 1 => Slot::OfClass,
        _ => Slot::Element(i),
    }
}

/// The index of a slot among the `len` slots of an object, if it has the slot.
pub(crate) fn index_in(shape: Shape<'_>, len: u32, slot: Slot) -> Option<u32>
    requires { HasFewNames (shape_view shape) }
    ensures { result ≡ shape_index (shape_view shape.entry) len slot }
{
    match shape {
        Shape::ObjectArray { .. } => index_in_row(len, slot),
        Shape::PrimitiveArray { .. } => index_in_row(len, slot),
        Shape::Class(class) => index_among(class.names.as_slice(), slot),
        Shape::Instance(layout) => index_among(layout.names.as_slice(), slot),
    }
}

/// The recorded bytes of an object of a shape.
fn recorded_bytes(shape: Shape<'_>) -> u32
    ensures { result ≡ shape_bytes (shape_view shape.entry) }
{
    match shape {
        Shape::ObjectArray { bytes } => bytes,
        Shape::PrimitiveArray { bytes, .. } => bytes,
        Shape::Class(class) => class.bytes,
        Shape::Instance(layout) => layout.bytes,
    }
}

/// The kind of the reference in a slot of an object of a shape.
pub(crate) fn kind_of_slot(shape: Shape<'_>, slot: Slot) -> EdgeKind
    ensures { result ≡ slot_kind (shape_view shape.entry) slot }
{
    if let Shape::Instance(layout) = shape
        && let Some(referent) = layout.referent
        && slot == referent
    {
        return layout.kind;
    }
    EdgeKind::Strong
}

/// The slot that is the referent of an object of a shape.
pub(crate) fn referent_in(shape: Shape<'_>) -> Option<Slot>
    ensures { result ≡ shape_referent (shape_view shape.entry) }
{
    match shape {
        Shape::Instance(layout) => layout.referent,
        _ => None,
    }
}

impl Model for Graph {
    ghost use Rattle.hd_terms.specs.Dump.{Dump};

    ghost Value = { Dump };

    ghost use Rattle.hd_graph.specs.GraphInside.{dump_of_graph, IsGraph};

    ghost view = { dump_of_graph };

    ghost invariant = { IsGraph };
}

impl Graph {
    ghost use Rattle.hd_graph.specs.Shapes.{IsSmall, AreColumns, row_objects};
    ghost use Rattle.hd_graph.specs.GraphInside.{root_of_row, repeated_in};
    ghost use Rattle.hd_graph.specs.Kinds.{AreKinds};

    /// The graph of references and shapes, a row and a shape for each object, and roots, what was repeated, how many
    /// instances are opaque, how phantom references are followed, and the names of classes.
    pub(crate) fn new(
        slot_table: SlotTable,
        shapes: JoinedShapes,
        roots: Vec<StoredRoot>,
        repeats: Repeats,
        opaque: u64,
        mode: Mode,
        names: ClassNames,
    ) -> Graph
        requires columns { AreColumns shapes.objects slot_table.ids slot_table.rows }
        requires small { All IsSmall shapes.objects }
        requires few { length slot_table.ids < 2 ^ 31 }
        requires few_roots { length roots.items < 2 ^ 32 }
        ensures { result ≡ record { mode = mode; objects = row_objects shapes.objects slot_table.ids slot_table.rows; roots = map root_of_row roots.items; repeated = repeated_in repeats; opaque = opaque; names = names; classes = [] } }
    {
        Graph {
            slot_table,
            shapes,
            roots,
            repeats,
            opaque,
            mode,
            names,
            classes: None,
        }
    }

    /// The same graph with these names that go with class objects.
    pub fn with_classes(self, classes: NamedClasses) -> Graph
        ensures { result ≡ record self { classes = classes } }
    {
        let mut graph = self;
        graph.classes = Some(classes);
        graph
    }

    /// What was repeated.
    pub(crate) fn repeats(&self) -> Repeats
        ensures { repeated_in result ≡ self.now.repeated }
    {
        self.repeats
    }

    /// How many instances have a class chain that isn't whole.
    pub(crate) fn opaque(&self) -> u64
        ensures { result ≡ self.now.opaque }
    {
        self.opaque
    }

    /// The references that go through referents, by their kinds. All objects are gone through, by four threads; only edits ask for
    /// these references.
    ///
    /// # Errors
    ///
    /// Out of memory.
    pub fn kind_lists<R: Threads + Sync>(
        &self,
        rt: &R,
        alloc: Global,
    ) -> Result<KindLists, AllocError>
        ensures { IfOk result (AreKinds self.now.objects) }
    {
        kinds_of(rt, alloc, &self.slot_table, &self.shapes)
    }

    /// How phantom references are followed in this dump.
    pub fn mode(&self) -> Mode
        ensures { result ≡ self.now.mode }
    {
        self.mode
    }

    /// How many objects the dump has.
    pub fn objects(&self) -> u32
        ensures { result ≡ length self.now.objects }
    {
        self.slot_table.objects() as u32
    }

    /// The ID of the object of a number.
    pub fn id_of(&self, o: u32) -> u64
        requires { o < length self.now.objects }
        ensures { result ≡ (object_at self.now o).id }
    {
        self.slot_table.id_of(o)
    }

    /// The number of the object with an ID, if there is one. No two objects have one ID.
    pub fn index_of(&self, id: u64) -> Option<u32>
        ensures first { result ≡ index_of self.now.objects id }
        ensures distinct { (o : ℕ) → o < length self.now.objects → (object_at self.now o).id ≡ id → result ≡ Some o }
    {
        self.slot_table.index_of(id)
    }

    /// What an object is counted under: an instance under its class, an object array under its array class, a primitive array
    /// under the type of its elements, a class among the classes.
    pub fn group_of(&self, o: u32) -> Group
        requires { o < length self.now.objects }
        ensures { result ≡ (object_at self.now o).group }
    {
        match self.shapes.get(o) {
            Shape::ObjectArray { .. } => Group::Class(self.slot_table.last(o)),
            Shape::PrimitiveArray { element, .. } => Group::Prim(element),
            Shape::Class(_) => Group::Classes,
            Shape::Instance(_) => Group::Class(self.slot_table.last(o)),
        }
    }

    /// The recorded bytes of an object: of an instance those of its values; of an array its count times the size of an
    /// element, which is that of an ID in an object array; of a class the sizes of its statics. At most 2,147,483,647, as a
    /// file has.
    #[inline(always)]
    pub fn bytes_of(&self, o: u32) -> u64
        requires { o < length self.now.objects }
        ensures bytes { result ≡ (object_at self.now o).bytes }
        ensures small { result ≤ 2147483647 }
    {
        u64::from(recorded_bytes(self.shapes.get(o)))
    }

    /// How many slots an object has.
    pub fn slots_len(&self, o: u32) -> u32
        requires { o < length self.now.objects }
        ensures { result ≡ length (object_at self.now o).slots }
    {
        self.slot_table.row_len(o)
    }

    /// The slot at an index of an object: of an instance its fields that are references first, its class's own before its
    /// super class's, then its class; of an object array its elements, then its class; of a class its statics and constants
    /// that are references, then its super class, loader, signers and protection domain. A primitive array has none.
    pub fn slots(&self, o: u32, i: u32) -> SlotRead
        requires object { o < length self.now.objects }
        requires index { i < length (object_at self.now o).slots }
        ensures entry { slice_get (object_at self.now o).slots i ≡ Some (record { slot = result.slot; kind = result.kind; id = result.id }) }
        ensures target { result.target ≡ index_of self.now.objects result.id }
    {
        let (id, target) = self.reference(o, i);
        let SlotName { slot, kind } = self.slot_name(o, i);
        SlotRead {
            slot,
            kind,
            id,
            target,
        }
    }

    /// The name and the kind of the slot at an index of an object. What the slot refers to isn't read.
    pub fn slot_name(&self, o: u32, i: u32) -> SlotName
        requires object { o < length self.now.objects }
        requires index { i < length (object_at self.now o).slots }
        ensures slot { (s : SlotEntry) → slice_get (object_at self.now o).slots i ≡ Some s → result.slot ≡ s.slot }
        ensures kind { (s : SlotEntry) → slice_get (object_at self.now o).slots i ≡ Some s → result.kind ≡ s.kind }
    {
        let shape = self.shapes.get(o);
        let slot = slot_at(shape, self.slot_table.row_len(o), i);
        SlotName {
            slot,
            kind: kind_of_slot(shape, slot),
        }
    }

    /// The kind of the reference in the slot at an index of an object. The slot's name is looked at only where the object has a
    /// referent.
    pub fn slot_kind(&self, o: u32, i: u32) -> EdgeKind
        requires object { o < length self.now.objects }
        requires index { i < length (object_at self.now o).slots }
        ensures { (s : SlotEntry) → slice_get (object_at self.now o).slots i ≡ Some s → result ≡ s.kind }
    {
        let shape = self.shapes.get(o);
        let Shape::Instance(layout) = shape else {
            return EdgeKind::Strong;
        };
        if layout.referent.is_none() {
            return EdgeKind::Strong;
        }
        kind_of_slot(shape, layout.names[i as usize])
    }

    /// The ID in the slot at an index of an object, 0 for null, and the number of the object with that ID, if there is one.
    pub(crate) fn reference(&self, o: u32, i: u32) -> (u64, Option<u32>)
        requires object { o < length self.now.objects }
        requires index { i < length (object_at self.now o).slots }
        ensures id { (s : SlotEntry) → slice_get (object_at self.now o).slots i ≡ Some s → result.0 ≡ s.id }
        ensures target { result.1 ≡ index_of self.now.objects result.0 }
    {
        self.slot_table.get(o, i)
    }

    /// How many slots of all objects have an ID that is an object's, and how many have one that is neither null nor an object's.
    pub(crate) fn id_counts(&self) -> IdCounts
        ensures objects { result.objects ≡ sum_by (edges_of self.now.objects) self.now.objects }
        ensures others { result.others ≡ sum_by (unresolved_of self.now.objects) self.now.objects }
    {
        self.slot_table.counts()
    }

    /// The objects that the slots of an object refer to, slot by slot.
    #[inline(always)]
    pub fn targets(&self, o: u32) -> Targets<'_>
        requires { o < length self.now.objects }
        ensures all { result ≡ map (λ (s : SlotEntry). index_of self.now.objects s.id) (object_at self.now o).slots }
        ensures each { (i : ℕ) (s : SlotEntry) → slice_get (object_at self.now o).slots i ≡ Some s → slice_index_or result i None ≡ index_of self.now.objects s.id }
    {
        self.slot_table.targets(o)
    }

    /// The index of a slot among those of an object, if the object has it.
    pub fn slot_index(&self, o: u32, slot: Slot) -> Option<u32>
        requires { o < length self.now.objects }
        ensures first { result ≡ position (λ (s : SlotEntry). same_slot s.slot slot) (object_at self.now o).slots }
        ensures only { (i : ℕ) (s : SlotEntry) → slice_get (object_at self.now o).slots i ≡ Some s → same_slot s.slot slot ≡ true → result ≡ Some i }
    {
        index_in(self.shapes.get(o), self.slot_table.row_len(o), slot)
    }

    /// The slot that is a reference object's referent, if the object has one. No array and no class has.
    pub fn referent_of(&self, o: u32) -> Option<Slot>
        requires { o < length self.now.objects }
        ensures { result ≡ (object_at self.now o).referent }
    {
        referent_in(self.shapes.get(o))
    }

    /// The name of the class of an ID, if it has one: its bytes as the file has them.
    pub fn name_of(&self, class: u64) -> Option<&[u8]>
        ensures { MatchOption result (name_in self.now class ≡ None) (λ name. name_in self.now class ≡ Some name.now) }
    {
        self.names.get(class)
    }

    /// How many class objects there are by the names that go with them: none where these aren't kept.
    pub fn classes_len(&self) -> usize
        ensures { result ≡ length self.now.classes }
    {
        match &self.classes {
            Some(classes) => classes.len(),
            None => 0,
        }
    }

    /// The ID of the class object at a place in file order, if the names that go with it are kept.
    pub fn class_at(&self, place: usize) -> Option<u64>
        ensures { result ≡ option_map (λ (c : NamedClass). c.class) (slice_get self.now.classes place) }
    {
        match &self.classes {
            Some(classes) => classes.id_at(place),
            None => None,
        }
    }

    /// The fields of the layout of the class of an ID by their names, if these are kept: none where the class's chain isn't
    /// whole.
    pub fn named_fields(&self, class: u64) -> Option<FieldNames<'_>>
        ensures { MatchOption result (named_class self.now class ≡ None) (λ fields. option_map (λ (c : NamedClass). c.fields) (named_class self.now class) ≡ Some fields) }
    {
        match &self.classes {
            Some(classes) => classes.fields(class),
            None => None,
        }
    }

    /// The name of the static of a number of the class of an ID, if it has the static, that has a name and it is kept: its
    /// bytes as the file has them.
    pub fn static_name(&self, class: u64, number: u32) -> Option<&[u8]>
        ensures { option_copied result ≡ static_name self.now class number }
    {
        match &self.classes {
            Some(classes) => classes.static_name(class, number),
            None => None,
        }
    }

    /// How many roots the dump has.
    pub fn roots_len(&self) -> u32
        ensures { result ≡ length self.now.roots }
    {
        self.roots.len() as u32
    }

    /// The root of a number.
    pub fn roots(&self, r: u32) -> RootRead
        requires { r < length self.now.roots }
        ensures entry { slice_get self.now.roots r ≡ Some (record { kind = result.kind; id = result.id }) }
        ensures object { result.object ≡ index_of self.now.objects result.id }
    {
        let root = self.roots[r as usize];
        RootRead {
            kind: root.kind,
            id: root.id,
            object: self.slot_table.index_of(root.id),
        }
    }
}
