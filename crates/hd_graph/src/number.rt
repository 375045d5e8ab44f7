//! Numbering objects in file order, and finding those with ID 0 or with values of the wrong size.
ghost use Rattle.std.specs.Prelude.{◌≡◌, ◌+◌, ◌<◌, ◌≤◌, ◌-◌, drop, ◌^◌, ℕ, true, not, if◌then◌else◌, length, All, IfOk, IfErr, OnOk};
ghost use Rattle.hd_terms.specs.Classes as classes_of;
ghost use Rattle.hd_terms.specs.SubRecords.{Instance};
ghost use Rattle.hd_terms.specs.declared.IdSize.{IdSize};
ghost use Rattle.hd_terms.specs.declared.Span.{Span};
ghost use Rattle.hd_classes.specs.Fits.{IsFit};
ghost use Rattle.hd_classes.specs.Known.{Known, known_at};
ghost use Rattle.hd_subs.specs.Views.{sub_view};
ghost use Rattle.hd_ids.specs.Noted.{is_noted};
ghost use Rattle.hd_classes.specs.Repeats.{NotesId};
ghost use Rattle.hd_graph.specs.Building.{stretch};
ghost use Rattle.hd_graph.specs.Numbering.{IsNumbered, joined_tally, HaveRoom, NumbersOneMore, IsObjectFaultOrMemory, NotesObject, IsObjectStop, IsNullIdOrMemory, StopsAt};

use crate::graph::StoredRoot;
use hd_classes::{Classes, Fit, LayoutBytes, note_id};
use hd_ids::ObjectIds;
use hd_subs::{DumpSubs, Item, Sub};
use hd_terms::{Cause, IdSize, ReadFault};
use std::alloc::Global;

/// What is counted of objects.
#[derive(Clone, Copy)]
pub(crate) struct Tally {
    /// How many sub-records of objects have the ID of an earlier one.
    pub(crate) repeated: u64,
    /// How many instances have a class that isn't known.
    pub(crate) opaque: u64,
}

impl Tally {
    /// What is counted of both.
    pub(crate) fn with(self, more: Tally) -> Tally
        requires { HaveRoom self more }
        ensures { result ≡ joined_tally self more }
    {
        Tally {
            repeated: self.repeated + more.repeated,
            opaque: self.opaque + more.opaque,
        }
    }
}

/// The numbers of the objects of some sub-records, and the roots.
#[derive(Drop)]
pub(crate) struct NumberedStretch {
    pub(crate) ids: ObjectIds,
    pub(crate) roots: Vec<StoredRoot>,
    pub(crate) tally: Tally,
}

/// Numbers an object by its ID, if that is new, and counts it as repeated if it isn't. The ID 0 is a fault. Answers whether
/// it is new.
#[inline(always)]
fn number_object(
    ids: &mut ObjectIds,
    tally: &mut Tally,
    id: u64,
    offset: u64,
) -> Result<bool, ReadFault>
    requires { tally.old.repeated + 1 < 2 ^ 64 }
    ensures noted { OnOk result ((0 < id) × NotesId id ids.old tally.old.repeated ids.new tally.new.repeated) }
    ensures is_new { IfOk result (λ new. new ≡ not (is_noted ids.old id)) }
    ensures opaque { OnOk result (tally.new.opaque ≡ tally.old.opaque) }
    ensures err { IfErr result (λ f. IsNullIdOrMemory id offset f) }
{
    if id == 0 {
        return Err(ReadFault {
            cause: Cause::NullObject,
            offset,
        });
    }
    let new = note_id(ids, &mut tally.repeated, id)?;
    Ok(new)
}

/// Numbers an instance, by how its values fit the layout of its class. If its ID is new, they have to fit, and it is counted if its
/// class isn't known.
#[inline(always)]
pub(crate) fn number_fitted(
    ids: &mut ObjectIds,
    tally: &mut Tally,
    fit: Fit,
    id: u64,
    offset: u64,
) -> Result<(), ReadFault>
    requires repeated { tally.old.repeated + 1 < 2 ^ 64 }
    requires opaque { tally.old.opaque + 1 < 2 ^ 64 }
    ensures ok { OnOk result ((classes : Known) (size : IdSize) (class : ℕ) (values : Span) → IsFit size values.len classes class fit → NotesObject (known_at classes) size (Instance id class values) id ids.old tally.old ids.new tally.new) }
    ensures err { IfErr result (λ f. (classes : Known) (size : IdSize) (class : ℕ) (values : Span) → IsFit size values.len classes class fit → IsObjectStop (known_at classes) size (Instance id class values) id offset ids.old f) }
{
    if !number_object(ids, tally, id, offset)? {
        return Ok(());
    }
    match fit {
        Fit::Unknown => {
            tally.opaque += 1;
            Ok(())
        }
        Fit::Misfit => Err(ReadFault {
            cause: Cause::InstanceSize,
            offset,
        }),
        Fit::Class(_) => Ok(()),
    }
}

/// Numbers an object, or keeps a root.
#[inline(always)]
pub(crate) fn number_one(
    ids: &mut ObjectIds,
    roots: &mut Vec<StoredRoot>,
    tally: &mut Tally,
    layouts: &mut LayoutBytes<'_>,
    sub: Sub<'_>,
) -> Result<(), ReadFault>
    requires repeated { tally.old.repeated + 1 < 2 ^ 64 }
    requires opaque { tally.old.opaque + 1 < 2 ^ 64 }
    ensures ok { OnOk result (NumbersOneMore (known_at layouts.old.classes) layouts.old.size (sub_view sub.entry) ids.old roots.old.items tally.old ids.new roots.new.items tally.new) }
    ensures err { IfErr result (λ f. StopsAt (known_at layouts.old.classes) layouts.old.size (sub_view sub.entry) ids.old f) }
    ensures same { OnOk result (layouts.new ≡ layouts.old) }
{
    let offset = sub.offset;
    match sub.item {
        Item::Root(kind, id) => roots.push(StoredRoot { kind, id })?,
        Item::Class(class) => {
            number_object(ids, tally, class.id, offset)?;
        }
        Item::Instance { id, class, values } => {
            let fit = layouts.fit(class, values.len);
            number_fitted(ids, tally, fit, id, offset)?;
        }
        Item::ObjArray { id, .. } => {
            number_object(ids, tally, id, offset)?;
        }
        Item::PrimArray { id, .. } => {
            number_object(ids, tally, id, offset)?;
        }
    }
    Ok(())
}

/// Numbers the objects of the sub-records from one index to another by their IDs, each ID once, counts those that are repeated or
/// opaque, and collects the roots. An object with ID 0, and an instance that doesn't fit its class's layout, are faults. The secret
/// is for the hashes of IDs.
pub(crate) fn number_stretch(
    alloc: Global,
    list: &DumpSubs<'_>,
    classes: &Classes,
    id_size: IdSize,
    secret: u64,
    first: usize,
    end: usize,
) -> Result<NumberedStretch, ReadFault>
    requires short { All (λ (p : ℕ × classes_of.ResolvedClass). length p.1.layout < 2 ^ 29) classes.now.classes }
    requires there { (first ≤ end) × (end ≤ length list.now) }
    ensures ok { IfOk result (λ n. IsNumbered (known_at classes.now) id_size (stretch first (end - first) list.now) n.ids n.roots.items n.tally) }
    ensures err { IfErr result (λ f. IsObjectFaultOrMemory (known_at classes.now) id_size (drop first list.now) f) }
{
    let mut ids = ObjectIds::with_capacity(alloc, end - first, secret)?;
    let mut layouts = LayoutBytes::new(alloc, classes, id_size)?;
    let mut roots = Vec::new(alloc);
    let mut tally = Tally {
        repeated: 0,
        opaque: 0,
    };
    let subs = list.as_list();
    for i in first..end {
        let sub = subs.get(i);
        number_one(&mut ids, &mut roots, &mut tally, &mut layouts, sub)?;
    }
    Ok(NumberedStretch { ids, roots, tally })
}
