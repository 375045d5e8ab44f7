//! What the live edits of a log take away, found once, so that a slot or a root is one look-up. Where all references of
//! a kind are cleared, the kind is noted, and none of its slots. Where a field is cut in all objects of a class, the class
//! and the field are noted, and none of the objects. Two edits may take away the same, so each is noted as often as edits
//! take it away: an undo takes back one of them.
ghost use Rattle.std.specs.Prelude.{◌≡◌, ℕ, ◌<◌, List, length, slice_get, Some, IfOk};
ghost use Rattle.hd_terms.specs.declared.Event.{Event as OneEvent};
ghost use Rattle.hd_terms.specs.Dump.{SlotEntry, object_at};
ghost use Rattle.hd_terms.specs.EditedDump.{drops};
ghost use Rattle.hd_terms.specs.Log.{live_edit, live_flags};
ghost use Rattle.hd_strength.specs.Cleared.{is_cleared};
ghost use Rattle.hd_strength.specs.Multiset.{is_number};
ghost use Rattle.hd_strength.specs.OneMore.{HasEditMore};
ghost use Rattle.hd_strength.specs.Removed.{field_of, has_field, is_root_removed, is_removed, pair_key, takes_slot, IsEditedKey, IsFieldKey, IsNamedSlot, IsOnlySlot, IsRemovedBy};

use crate::cleared::Cleared;
use crate::multiset::{Multiset, push_number};
use hd_graph::Graph;
use hd_log::Front;
use hd_terms::{EdgeKind, Edit, Group, NoMemory, Slot, What};
use std::alloc::Global;
use std::marker::Model;

/// What the live edits of a log take away from a graph: references in slots, of kinds and in fields of classes, and roots, each
/// as often as edits take it away.
pub struct Removed {
    slots: Multiset,
    cleared: Cleared,
    fields: Multiset,
    roots: Multiset,
}

impl Drop for Removed {
    /// Drops the fields. A derived drop would be proved anew at each place that lets go of one.
    fn drop(self) {
        let Self {
            slots,
            cleared: _,
            fields,
            roots,
        } = self;
    }
}

impl Model for Removed {
    ghost use Rattle.hd_strength.specs.Removed.{Removals};

    ghost Value = { Removals };

    ghost view = { λ t. record { slots = t.slots; cleared = t.cleared; fields = t.fields; roots = t.roots } };
}

/// The key of two numbers: an object and the index of its slot, or the ID of a class and the number of its field.
fn pair_key(first: u64, second: u32) -> u128
    ensures key { result ≡ pair_key first second }
    ensures small { second < 4294967296 }
{
    u128::from(first) * 4_294_967_296 + u128::from(second)
}

/// The edit of event k, where it is live. The flags say which events are.
pub fn live_edit(front: &Front, live: &[bool], k: u32) -> Option<Edit>
    requires event { k < length front.now }
    requires flags { live.now ≡ live_flags front.now }
    ensures { (e : OneEvent) → slice_get front.now k ≡ Some e → result ≡ live_edit front.now (k, e) }
{
    let what = front.event(k).what;
    if !live[k as usize] {
        return None;
    }
    match what {
        What::Do(edit) => Some(edit),
        What::Undo(_) => None,
    }
}

/// The index of a named slot of an object, with the object, if it has that slot.
fn named_slot_index(graph: &Graph, o: u32, name: Option<Slot>) -> Option<(u32, u32)>
    requires { o < length graph.now.objects }
    ensures { IsNamedSlot (object_at graph.now o).slots name o result }
{
    let index = graph.slot_index(o, name?)?;
    Some((o, index))
}

/// The one slot from which an edit takes the reference, if there is one: the object, and the index of the slot.
pub fn edited_slot(graph: &Graph, edit: Edit) -> Option<(u32, u32)>
    ensures { IsOnlySlot graph.now (λ x s. takes_slot x s edit) result }
{
    match edit {
        Edit::Cut(id, slot) => {
            let o = graph.index_of(id)?;
            named_slot_index(graph, o, Some(slot))
        }
        Edit::Clear(id) => {
            let o = graph.index_of(id)?;
            named_slot_index(graph, o, graph.referent_of(o))
        }
        Edit::Drop(_) | Edit::Add(_) | Edit::ClearAll(_) | Edit::CutAll(_, _) => None,
    }
}

/// The key of the one slot from which an edit takes the reference, if there is one.
fn edited_key(graph: &Graph, edit: Edit) -> Option<u128>
    ensures { IsEditedKey graph.now edit result }
{
    let (o, index) = edited_slot(graph, edit)?;
    Some(pair_key(u64::from(o), index))
}

/// The key of the field that an edit cuts in all objects of a class, if it cuts one so.
fn field_key(edit: Edit) -> Option<u128>
    ensures { IsFieldKey edit result }
{
    match edit {
        Edit::CutAll(class, field) => Some(pair_key(class, field)),
        Edit::Cut(_, _) | Edit::Clear(_) | Edit::Drop(_) => None,
        Edit::Add(_) | Edit::ClearAll(_) => None,
    }
}

/// The class and the number of a field, where the slot of an object of a group is a field of its class.
fn field_of(group: Group, slot: Slot) -> Option<(u64, u32)>
    ensures { result ≡ field_of group slot }
{
    let Group::Class(class) = group else {
        return None;
    };
    match slot {
        Slot::Field(field) => Some((class, field)),
        Slot::Element(_) | Slot::Static(_) | Slot::Const(_) | Slot::OfClass => None,
        Slot::Super | Slot::Loader | Slot::Signers | Slot::Domain => None,
    }
}

/// The number of the root that an edit drops, if it drops one.
fn dropped_root(edit: Edit) -> Option<u128>
    ensures { (r : ℕ) → is_number result r ≡ drops r edit }
{
    match edit {
        Edit::Drop(root) => Some(u128::from(root)),
        Edit::Cut(_, _) | Edit::Clear(_) | Edit::Add(_) => None,
        Edit::ClearAll(_) | Edit::CutAll(_, _) => None,
    }
}

impl Removed {
    /// What the live edits of a log take away.
    ///
    /// # Errors
    ///
    /// Memory ran out.
    pub fn of(alloc: Global, graph: &Graph, front: &Front) -> Result<Removed, NoMemory>
        ensures { IfOk result (λ t. IsRemovedBy graph.now front.now t) }
    {
        let live = front.flags();
        let mut slots = Vec::new(alloc);
        let mut cleared = Cleared::none();
        let mut fields = Vec::new(alloc);
        let mut roots = Vec::new(alloc);
        for k in 0..front.len() {
            if let Some(edit) = live_edit(front, live, k) {
                push_number(&mut slots, edited_key(graph, edit))?;
                cleared = cleared.with(edit)?;
                push_number(&mut fields, field_key(edit))?;
                push_number(&mut roots, dropped_root(edit))?;
            }
        }
        Ok(Removed {
            slots: Multiset::of(slots),
            cleared,
            fields: Multiset::of(fields),
            roots: Multiset::of(roots),
        })
    }

    /// What is taken away once one more edit is live.
    ///
    /// # Errors
    ///
    /// Memory ran out, or 2^32 edits clear one kind of references, which no log has.
    pub fn with(&self, alloc: Global, graph: &Graph, edit: Edit) -> Result<Removed, NoMemory>
        ensures { IfOk result (λ t. (before after : List OneEvent) → IsRemovedBy graph.now before self.now → HasEditMore before after edit → IsRemovedBy graph.now after t) }
    {
        let slots = self.slots.with(alloc, edited_key(graph, edit))?;
        let cleared = self.cleared.with(edit)?;
        let fields = self.fields.with(alloc, field_key(edit))?;
        let roots = self.roots.with(alloc, dropped_root(edit))?;
        Ok(Removed {
            slots,
            cleared,
            fields,
            roots,
        })
    }

    /// What is taken away once one of the live edits is taken back.
    ///
    /// # Errors
    ///
    /// Memory ran out.
    pub fn without(&self, alloc: Global, graph: &Graph, edit: Edit) -> Result<Removed, NoMemory>
        ensures { IfOk result (λ t. (before after : List OneEvent) → IsRemovedBy graph.now before self.now → HasEditMore after before edit → IsRemovedBy graph.now after t) }
    {
        let slots = self.slots.without(alloc, edited_key(graph, edit))?;
        let cleared = self.cleared.without(edit);
        let fields = self.fields.without(alloc, field_key(edit))?;
        let roots = self.roots.without(alloc, dropped_root(edit))?;
        Ok(Removed {
            slots,
            cleared,
            fields,
            roots,
        })
    }

    /// Whether the reference at an index of an object's slots, of a kind, is taken away.
    #[inline(always)]
    pub fn slot(&self, graph: &Graph, o: u32, index: u32, kind: EdgeKind) -> bool
        requires object { o < length graph.now.objects }
        requires index { index < length (object_at graph.now o).slots }
        ensures { (s : SlotEntry) → slice_get (object_at graph.now o).slots index ≡ Some s → kind ≡ s.kind → result ≡ is_removed self.now (object_at graph.now o) s o index }
    {
        if self.cleared.has(kind) {
            return true;
        }
        if self.slots.contains(pair_key(u64::from(o), index)) {
            return true;
        }
        !self.fields.is_empty() && self.has_field(graph, o, index)
    }

    /// Whether the slot at an index of an object is a field that is cut in all objects of its class.
    #[inline(never)]
    fn has_field(&self, graph: &Graph, o: u32, index: u32) -> bool
        requires object { o < length graph.now.objects }
        requires index { index < length (object_at graph.now o).slots }
        ensures { (s : SlotEntry) → slice_get (object_at graph.now o).slots index ≡ Some s → result ≡ has_field self.now.fields (object_at graph.now o).group s.slot }
    {
        let slot = graph.slot_name(o, index).slot;
        match field_of(graph.group_of(o), slot) {
            Some((class, field)) => self.fields.contains(pair_key(class, field)),
            None => false,
        }
    }

    /// Whether the root of a number is taken away.
    pub fn root(&self, r: u64) -> bool
        ensures { result ≡ is_root_removed self.now r }
    {
        self.roots.contains(u128::from(r))
    }

    /// Whether all references of a kind are taken away.
    pub fn clears(&self, kind: EdgeKind) -> bool
        ensures { result ≡ is_cleared self.now.cleared kind }
    {
        self.cleared.has(kind)
    }
}
