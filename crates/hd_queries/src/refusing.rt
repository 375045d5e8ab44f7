//! Why an edit may not be made over a dump.
ghost use Rattle.std.specs.Prelude.{◌≡◌, ◌<◌, length, slice_get, Some};
ghost use Rattle.hd_terms.specs.Dump.{SlotEntry, object_at};
ghost use Rattle.hd_terms.specs.Edges.{index_of};
ghost use Rattle.hd_terms.specs.Refusals.{add_refusal, clear_refusal, cut_all_refusal, cut_refusal, edit_refusal, empty_refusal, is_cuttable};

use hd_graph::Graph;
use hd_terms::{Edit, Refusal, Slot};
use hd_view::is_of_class;

/// Why an edit may not be made over a dump, the first reason, or `None` where it may: there is no such object or no object of
/// such a class, the object or all objects of the class have no such slot, the slot may not be cut, the object is no reference,
/// or the slot is empty. Whether there is a root to drop is for the log to say. It takes no memory.
pub fn edit_refusal(graph: &Graph, edit: Edit) -> Option<Refusal>
    ensures { result ≡ edit_refusal graph.now edit }
{
    match edit {
        Edit::Cut(id, slot) => refusal_of_cut(graph, id, slot),
        Edit::Clear(id) => refusal_of_clear(graph, id),
        Edit::Drop(_) => None,
        Edit::Add(id) => refusal_of_add(graph, id),
        Edit::ClearAll(_) => None,
        Edit::CutAll(class, field) => refusal_of_cut_all(graph, class, field),
    }
}

/// Why a slot may not be cut, if it may not.
fn refusal_of_cut(graph: &Graph, id: u64, slot: Slot) -> Option<Refusal>
    ensures { result ≡ cut_refusal graph.now slot (index_of graph.now.objects id) }
{
    let Some(object) = graph.index_of(id) else {
        return Some(Refusal::NoSuchObject);
    };
    let Some(index) = graph.slot_index(object, slot) else {
        return Some(Refusal::NoSuchSlot);
    };
    let refusal = refusal_of_empty(graph, object, index);
    if !is_cuttable(slot) {
        return Some(Refusal::NotCuttable);
    }
    refusal
}

/// Why the referent of an object may not be cleared, if it may not.
fn refusal_of_clear(graph: &Graph, id: u64) -> Option<Refusal>
    ensures { result ≡ clear_refusal graph.now (index_of graph.now.objects id) }
{
    let Some(object) = graph.index_of(id) else {
        return Some(Refusal::NoSuchObject);
    };
    let Some(slot) = graph.referent_of(object) else {
        return Some(Refusal::NotReference);
    };
    let Some(index) = graph.slot_index(object, slot) else {
        return Some(Refusal::NotReference);
    };
    refusal_of_empty(graph, object, index)
}

/// Why no root may be added on an object, if none may.
fn refusal_of_add(graph: &Graph, id: u64) -> Option<Refusal>
    ensures { result ≡ add_refusal (index_of graph.now.objects id) }
{
    match graph.index_of(id) {
        Some(_) => None,
        None => Some(Refusal::NoSuchObject),
    }
}

/// Why a field may not be cut in all objects that are counted under a class, if it may not: there are none, or none has the
/// field as a slot.
fn refusal_of_cut_all(graph: &Graph, class: u64, field: u32) -> Option<Refusal>
    ensures { result ≡ cut_all_refusal graph.now class field }
{
    let mut has_class = false;
    for o in 0..graph.objects() {
        if is_of_class(graph, o, class) {
            has_class = true;
            if graph.slot_index(o, Slot::Field(field)).is_some() {
                return None;
            }
        }
    }
    if has_class {
        Some(Refusal::NoSuchSlot)
    } else {
        Some(Refusal::NoSuchClass)
    }
}

/// Why the reference in a slot of an object can't be taken away: the slot is null, or its ID is no object's.
fn refusal_of_empty(graph: &Graph, object: u32, index: u32) -> Option<Refusal>
    requires object { object < length graph.now.objects }
    requires index { index < length (object_at graph.now object).slots }
    ensures { (s : SlotEntry) × (slice_get (object_at graph.now object).slots index ≡ Some s) × (result ≡ empty_refusal graph.now s) }
{
    let read = graph.slots(object, index);
    if read.id == 0 || read.target.is_none() {
        return Some(Refusal::EmptySlot);
    }
    None
}

/// Whether a slot may be cut: fields, elements and statics may.
fn is_cuttable(slot: Slot) -> bool
    ensures { result ≡ is_cuttable slot }
{
    match slot {
        Slot::Field(_) | Slot::Element(_) | Slot::Static(_) => true,
        Slot::Const(_) | Slot::OfClass => false,
        Slot::Super | Slot::Loader | Slot::Signers | Slot::Domain => false,
    }
}
