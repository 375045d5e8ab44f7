//! What stands under one log of a graph and not under another.
ghost use Rattle.std.specs.Prelude.{◌≡◌, ◌+◌, ◌<◌, ◌≤◌, ◌==◌, false, length, IfOk, OnOk};
ghost use Rattle.std.specs.Option.{option_map, option_map_or};
ghost use Rattle.hd_terms.specs.Dump.{object_at};
ghost use Rattle.hd_terms.specs.EditedDump.{is_of_class};
ghost use Rattle.hd_terms.specs.Paths.{RootEntry};
ghost use Rattle.hd_graph.specs.Kinds.{AreKinds};
ghost use Rattle.hd_strength.specs.Removed.{IsRemovedBy};
ghost use Rattle.hd_strength.specs.Rows.{root_at};
ghost use Rattle.hd_view.specs.Losing.{AddsLost, HasAllLost, HasEdited, HasField, HasFirstFields, HasIndexed, HasKind, HasNamed, HasNumber};
ghost use Rattle.hd_view.specs.OneEdit.{LosesBy};
ghost use Rattle.hd_totals.specs.GroupPages.{AreNoted};
ghost use Rattle.hd_terms.specs.Lost.{AreLost};

use crate::edited::Edited;
use hd_edges::Held;
use hd_graph::{Graph, KindLists};
use hd_strength::{edited_slot, root_target};
use hd_terms::{Edit, Group, NoMemory, RefKind, Slot, Support};
use hd_totals::{GroupPages, PAGE_OBJECTS};
use std::alloc::Global;

/// Where the edges are found that one edit takes from many objects: the graph's references through referents, by their kinds, and
/// which pages of objects may have one of a group.
#[derive(Clone, Copy)]
pub struct EdgeLists<'a> {
    /// The references through referents.
    pub kinds: &'a KindLists,
    /// The pages.
    pub pages: &'a GroupPages,
}

/// Adds the edge of an object's slot of a name, if it is lost.
fn push_edge(
    items: &mut Vec<Held>,
    more: Edited<'_>,
    less: Edited<'_>,
    o: u32,
    slot: Slot,
) -> Result<(), NoMemory>
    requires same { less.graph.now ≡ more.graph.now }
    requires more { IsRemovedBy more.graph.now more.front.now more.removed.now }
    requires less { IsRemovedBy less.graph.now less.front.now less.removed.now }
    requires object { o < length more.graph.now.objects }
    ensures adds { OnOk result (AddsLost more.entry.graph.now more.entry.front.now less.entry.front.now items.old.items items.new.items) }
    ensures all { OnOk result (HasNamed more.entry.graph.now more.entry.front.now less.entry.front.now o slot items.new.items) }
{
    let graph = more.graph;
    let Some(i) = graph.slot_index(o, slot) else {
        return Ok(());
    };
    let read = graph.slots(o, i);
    let Some(target) = read.target else {
        return Ok(());
    };
    if more.removed.slot(graph, o, i, read.kind) {
        return Ok(());
    }
    if !less.removed.slot(graph, o, i, read.kind) {
        return Ok(());
    }
    let holder = Support::Edge {
        source: o,
        slot: read.slot,
    };
    items.push(Held::new(target, holder))?;
    Ok(())
}

/// Adds the edge of the slot at an index of an object, if there is one and it is lost.
fn push_slot(
    items: &mut Vec<Held>,
    more: Edited<'_>,
    less: Edited<'_>,
    o: u32,
    i: u32,
) -> Result<(), NoMemory>
    requires same { less.graph.now ≡ more.graph.now }
    requires more { IsRemovedBy more.graph.now more.front.now more.removed.now }
    requires less { IsRemovedBy less.graph.now less.front.now less.removed.now }
    ensures adds { OnOk result (AddsLost more.entry.graph.now more.entry.front.now less.entry.front.now items.old.items items.new.items) }
    ensures all { OnOk result (HasIndexed more.entry.graph.now more.entry.front.now less.entry.front.now o i items.new.items) }
{
    if o >= more.graph.objects() {
        return Ok(());
    }
    if i >= more.graph.slots_len(o) {
        return Ok(());
    }
    push_edge(items, more, less, o, more.graph.slots(o, i).slot)?;
    Ok(())
}

/// Adds the edge of the one slot from which an edit takes the reference, if there is one and it is lost.
fn push_edited(
    items: &mut Vec<Held>,
    more: Edited<'_>,
    less: Edited<'_>,
    edit: Edit,
) -> Result<(), NoMemory>
    requires same { less.graph.now ≡ more.graph.now }
    requires more { IsRemovedBy more.graph.now more.front.now more.removed.now }
    requires less { IsRemovedBy less.graph.now less.front.now less.removed.now }
    ensures adds { OnOk result (AddsLost more.entry.graph.now more.entry.front.now less.entry.front.now items.old.items items.new.items) }
    ensures all { OnOk result (HasEdited more.entry.graph.now more.entry.front.now less.entry.front.now edit items.new.items) }
{
    let Some((o, i)) = edited_slot(more.graph, edit) else {
        return Ok(());
    };
    push_slot(items, more, less, o, i)?;
    Ok(())
}

/// Adds the lost edges of a kind. There are none where the log with more clears the kind.
fn push_kind(
    items: &mut Vec<Held>,
    kinds: &KindLists,
    more: Edited<'_>,
    less: Edited<'_>,
    kind: RefKind,
) -> Result<(), NoMemory>
    requires kinds { AreKinds more.graph.now.objects kinds.now }
    requires same { less.graph.now ≡ more.graph.now }
    requires more { IsRemovedBy more.graph.now more.front.now more.removed.now }
    requires less { IsRemovedBy less.graph.now less.front.now less.removed.now }
    ensures adds { OnOk result (AddsLost more.entry.graph.now more.entry.front.now less.entry.front.now items.old.items items.new.items) }
    ensures all { OnOk result (HasKind more.entry.graph.now more.entry.front.now less.entry.front.now kind items.new.items) }
{
    if more.removed.clears(kind.edge_kind()) {
        return Ok(());
    }
    for j in 0..more.graph.kind_len(kinds, kind) {
        let (o, slot) = more.graph.kind_edge(kinds, kind, j);
        push_edge(items, more, less, o, slot)?;
    }
    Ok(())
}

/// Whether an object is counted under the class of an ID.
pub fn is_of_class(graph: &Graph, o: u32, class: u64) -> bool
    requires { o < length graph.now.objects }
    ensures { result ≡ is_of_class (object_at graph.now o).group class }
{
    match graph.group_of(o) {
        Group::Class(id) => id == class,
        Group::Prim(_) | Group::Classes => false,
    }
}

/// A field of the objects that are counted under a class: the class's ID, and the number of the field in its layout.
#[derive(Clone, Copy)]
struct ClassField {
    class: u64,
    field: u32,
}

/// Adds the lost edges of a field of a class, of those objects between two numbers that are counted under the class.
fn push_between(
    items: &mut Vec<Held>,
    more: Edited<'_>,
    less: Edited<'_>,
    cut: ClassField,
    first: u32,
    end: u32,
) -> Result<(), NoMemory>
    requires same { less.graph.now ≡ more.graph.now }
    requires more { IsRemovedBy more.graph.now more.front.now more.removed.now }
    requires less { IsRemovedBy less.graph.now less.front.now less.removed.now }
    requires order { first ≤ end }
    requires within { end ≤ length more.graph.now.objects }
    ensures adds { OnOk result (AddsLost more.entry.graph.now more.entry.front.now less.entry.front.now items.old.items items.new.items) }
    ensures all { OnOk result (HasFirstFields more.entry.graph.now more.entry.front.now less.entry.front.now cut.class cut.field first items.old.items
        → HasFirstFields more.entry.graph.now more.entry.front.now less.entry.front.now cut.class cut.field end items.new.items) }
{
    for o in first..end {
        if is_of_class(more.graph, o, cut.class) {
            push_edge(items, more, less, o, Slot::Field(cut.field))?;
        }
    }
    Ok(())
}

/// Adds the lost edges of a field of the objects that are counted under a class. Pages that can't have such an object are passed
/// over.
fn push_field(
    items: &mut Vec<Held>,
    pages: &GroupPages,
    more: Edited<'_>,
    less: Edited<'_>,
    cut: ClassField,
) -> Result<(), NoMemory>
    requires pages { AreNoted more.graph.now pages.now }
    requires same { less.graph.now ≡ more.graph.now }
    requires more { IsRemovedBy more.graph.now more.front.now more.removed.now }
    requires less { IsRemovedBy less.graph.now less.front.now less.removed.now }
    ensures adds { OnOk result (AddsLost more.entry.graph.now more.entry.front.now less.entry.front.now items.old.items items.new.items) }
    ensures all { OnOk result (HasField more.entry.graph.now more.entry.front.now less.entry.front.now cut.class cut.field items.new.items) }
{
    let mut first = 0;
    while first < more.graph.objects() {
        let rest_of_page = PAGE_OBJECTS - first % PAGE_OBJECTS;
        let end = first + rest_of_page.min(more.graph.objects() - first);
        if pages.may_have(first / PAGE_OBJECTS, Group::Class(cut.class)) {
            push_between(items, more, less, cut, first, end)?;
        }
        first = end;
    }
    Ok(())
}

/// The object that the root of a number holds, where there is such a root and it stands.
fn root_object(edited: Edited<'_>, r: u64) -> Option<u32>
    requires { IsRemovedBy edited.graph.now edited.front.now edited.removed.now }
    ensures { result ≡ option_map (λ (x : RootEntry). x.target) (root_at edited.entry.graph.now edited.entry.front.now r) }
{
    let live = edited.front.flags();
    root_target(edited.graph, edited.front, edited.removed, live, r)
}

/// Whether a root of a number stands and holds an object.
fn root_is_on(edited: Edited<'_>, r: u64, object: u32) -> bool
    requires { IsRemovedBy edited.graph.now edited.front.now edited.removed.now }
    ensures { result ≡ option_map_or (λ (x : RootEntry). x.target == object) (root_at edited.entry.graph.now edited.entry.front.now r) false }
{
    match root_object(edited, r) {
        Some(other) => other == object,
        None => false,
    }
}

/// Adds the root of a number, if it is lost.
fn push_root(
    items: &mut Vec<Held>,
    more: Edited<'_>,
    less: Edited<'_>,
    r: u64,
) -> Result<(), NoMemory>
    requires same { less.graph.now ≡ more.graph.now }
    requires more { IsRemovedBy more.graph.now more.front.now more.removed.now }
    requires less { IsRemovedBy less.graph.now less.front.now less.removed.now }
    ensures adds { OnOk result (AddsLost more.entry.graph.now more.entry.front.now less.entry.front.now items.old.items items.new.items) }
    ensures all { OnOk result (HasNumber more.entry.graph.now more.entry.front.now less.entry.front.now r items.new.items) }
{
    let Some(object) = root_object(more, r) else {
        return Ok(());
    };
    if root_is_on(less, r, object) {
        return Ok(());
    }
    items.push(Held::new(object, Support::Root(r)))?;
    Ok(())
}

/// The number of the root that event k adds.
fn added_number(graph: &Graph, k: u32) -> u64
    ensures { result ≡ length graph.now.roots + k }
{
    u64::from(graph.roots_len()) + u64::from(k)
}

/// Adds what is lost by an edit of event k.
fn push_lost(
    items: &mut Vec<Held>,
    lists: EdgeLists<'_>,
    more: Edited<'_>,
    less: Edited<'_>,
    k: u32,
    edit: Edit,
) -> Result<(), NoMemory>
    requires kinds { AreKinds more.graph.now.objects lists.kinds.now }
    requires pages { AreNoted more.graph.now lists.pages.now }
    requires same { less.graph.now ≡ more.graph.now }
    requires more { IsRemovedBy more.graph.now more.front.now more.removed.now }
    requires less { IsRemovedBy less.graph.now less.front.now less.removed.now }
    requires one { LosesBy more.front.now less.front.now k edit }
    ensures adds { OnOk result (AddsLost more.entry.graph.now more.entry.front.now less.entry.front.now items.old.items items.new.items) }
    ensures all { OnOk result (HasAllLost more.entry.graph.now more.entry.front.now less.entry.front.now items.new.items) }
{
    match edit {
        Edit::Cut(_, _) => push_edited(items, more, less, edit)?,
        Edit::Clear(_) => push_edited(items, more, less, edit)?,
        Edit::Drop(r) => push_root(items, more, less, r)?,
        Edit::Add(_) => push_root(items, more, less, added_number(more.graph, k))?,
        Edit::ClearAll(kind) => push_kind(items, lists.kinds, more, less, kind)?,
        Edit::CutAll(class, field) => {
            push_field(items, lists.pages, more, less, ClassField { class, field })?;
        }
    }
    Ok(())
}

/// The edges and roots that stand under one log of a graph and not under another, by what they hold, where the two differ by
/// one live edit, that of event k: it adds a root under the first log, or takes away under the other.
///
/// # Errors
///
/// Memory ran out.
pub fn lost_by_edit(
    alloc: Global,
    lists: EdgeLists<'_>,
    more: Edited<'_>,
    less: Edited<'_>,
    k: u32,
    edit: Edit,
) -> Result<Vec<Held>, NoMemory>
    requires kinds { AreKinds more.graph.now.objects lists.kinds.now }
    requires pages { AreNoted more.graph.now lists.pages.now }
    requires same { less.graph.now ≡ more.graph.now }
    requires more { IsRemovedBy more.graph.now more.front.now more.removed.now }
    requires less { IsRemovedBy less.graph.now less.front.now less.removed.now }
    requires one { LosesBy more.front.now less.front.now k edit }
    ensures { IfOk result (λ v. AreLost more.entry.graph.now more.entry.front.now less.entry.front.now v.items) }
{
    let mut items = Vec::new(alloc);
    push_lost(&mut items, lists, more, less, k, edit)?;
    Ok(items)
}
