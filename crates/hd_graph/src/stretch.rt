//! The numbers, the rows and the shapes of the objects of some sub-records, made in one pass over them.
ghost use Rattle.std.specs.Prelude.{◌≡◌, ◌+◌, ◌<◌, ◌≤◌, ◌-◌, ◌^◌, [], ◌++◌, drop, length, IfOk, IfErr, OnOk};
ghost use Rattle.std.specs.List.{cons_option};
ghost use Rattle.hd_classes.specs.Known.{known_at};
ghost use Rattle.hd_subs.specs.Views.{item_view, sub_view};
ghost use Rattle.hd_graph.specs.ArrayRows.{AreWithin, IsSubWithin, item_weight, shape_of_item};
ghost use Rattle.hd_graph.specs.Building.{HasAllRows, HasAllShapes, AddsItemRow, stretch, AreLayouts, AreFewAndShort};
ghost use Rattle.hd_graph.specs.Numbering.{IsNumbered, NumbersOneMore, IsObjectFaultOrMemory, StopsAt};

use crate::filling::{StretchRows, fill_one};
use crate::graph::StoredRoot;
use crate::instance_rows::push_instance_row;
use crate::instance_shapes::push_fitted_shape;
use crate::number::{NumberedStretch, Tally, number_fitted, number_one};
use hd_classes::{Classes, LayoutBytes};
use hd_ids::ObjectIds;
use hd_shapes::Shapes;
use hd_slots::UnresolvedSlots;
use hd_subs::{DumpSubs, Item, Sub};
use hd_terms::{IdSize, ReadFault};
use std::alloc::Global;
use std::sync::Arc;

/// The numbers, the rows and the shapes of the objects of some sub-records.
#[derive(Drop)]
pub(crate) struct MadeStretch<'a> {
    pub(crate) numbers: NumberedStretch,
    pub(crate) rows: StretchRows<'a>,
}

/// Numbers an object and adds its row and its shape, or keeps a root. The class of an instance is looked up once for all of them.
#[inline(always)]
fn add_one(
    alloc: Global,
    ids: &mut ObjectIds,
    roots: &mut Vec<StoredRoot>,
    tally: &mut Tally,
    slot_table: &mut UnresolvedSlots<'_>,
    shapes: &mut Shapes,
    layouts: &mut LayoutBytes<'_>,
    sub: Sub<'_>,
) -> Result<(), ReadFault>
    requires repeated { tally.old.repeated + 1 < 2 ^ 64 }
    requires opaque { tally.old.opaque + 1 < 2 ^ 64 }
    requires size { layouts.old.size ≡ slot_table.old.size }
    requires within { IsSubWithin slot_table.old.size slot_table.old.bytes (sub_view sub) }
    requires room { length slot_table.old.ids + slot_table.old.count + item_weight (item_view sub.item) < 2 ^ 32 - 1 }
    requires few { length shapes.old.objects < 2 ^ 32 - 1 }
    requires filled { slot_table.old.filling ≡ [] }
    requires classes { AreLayouts layouts.old.size layouts.old.classes shapes.old.layouts }
    ensures ok { OnOk result (NumbersOneMore (known_at layouts.old.classes) layouts.old.size (sub_view sub.entry) ids.old roots.old.items tally.old ids.new roots.new.items tally.new) }
    ensures row { OnOk result (AddsItemRow (known_at layouts.old.classes) slot_table.old.bytes slot_table.old.size (item_view sub.entry.item) slot_table.old slot_table.new) }
    ensures shape { OnOk result (shapes.new.objects ≡ shapes.old.objects ++ cons_option (shape_of_item (known_at layouts.old.classes) layouts.old.size (item_view sub.entry.item)) []) }
    ensures classes { OnOk result (AreLayouts layouts.old.size layouts.old.classes shapes.new.layouts) }
    ensures same { OnOk result (layouts.new ≡ layouts.old) }
    ensures err { IfErr result (λ f. StopsAt (known_at layouts.old.classes) layouts.old.size (sub_view sub.entry) ids.old f) }
{
    if let Item::Instance { id, class, values } = sub.item {
        let fit = push_instance_row(slot_table, layouts, class, values, sub.offset)?;
        push_fitted_shape(alloc, shapes, layouts, fit, values)?;
        number_fitted(ids, tally, fit, id, sub.offset)?;
        return Ok(());
    }
    number_one(ids, roots, tally, layouts, sub)?;
    fill_one(alloc, slot_table, shapes, layouts, sub)?;
    Ok(())
}

/// The numbers, the rows and the shapes of the objects of the sub-records from one index to another, which are gone over once. Each
/// ID is numbered once, and the rows and shapes are those of all objects, whether their IDs are repeated or not, over no IDs. An object
/// with ID 0, and an instance that doesn't fit its class's layout, are faults. The secret is for the hashes of IDs.
#[inline(never)]
pub(crate) fn make_stretch<'a>(
    alloc: Global,
    bytes: &'a [u8],
    list: &DumpSubs<'_>,
    classes: &Classes,
    id_size: IdSize,
    secret: u64,
    first: usize,
    end: usize,
) -> Result<MadeStretch<'a>, ReadFault>
    requires within { AreWithin id_size bytes.now list.now }
    requires small { length bytes.now < 2 ^ 31 }
    requires classes { AreFewAndShort classes.now }
    requires there { (first ≤ end) × (end ≤ length list.now) }
    ensures numbers { IfOk result (λ m. IsNumbered (known_at classes.now) id_size (stretch first (end - first) list.now) m.numbers.ids m.numbers.roots.items m.numbers.tally) }
    ensures rows { IfOk result (λ m. HasAllRows (known_at classes.now) bytes.now id_size (stretch first (end - first) list.now) m.rows.slot_table) }
    ensures shapes { IfOk result (λ m. HasAllShapes (known_at classes.now) id_size (stretch first (end - first) list.now) m.rows.shapes.objects) }
    ensures err { IfErr result (λ f. IsObjectFaultOrMemory (known_at classes.now) id_size (drop first list.now) f) }
{
    let count = end - first;
    let mut ids = ObjectIds::with_capacity(alloc, count, secret)?;
    let mut roots = Vec::new(alloc);
    let mut tally = Tally {
        repeated: 0,
        opaque: 0,
    };
    let mut layouts = LayoutBytes::new(alloc, classes, id_size)?;
    let mut shapes = Shapes::with_capacity(alloc, count, classes.len())?;
    let no_ids = Arc::new(alloc, ObjectIds::with_capacity(alloc, 0, secret)?)?;
    let mut slot_table = UnresolvedSlots::new(alloc, bytes, id_size, no_ids, count)?;
    let subs = list.as_list();
    for i in first..end {
        let sub = subs.get(i);
        add_one(
            alloc,
            &mut ids,
            &mut roots,
            &mut tally,
            &mut slot_table,
            &mut shapes,
            &mut layouts,
            sub,
        )?;
    }
    let numbers = NumberedStretch { ids, roots, tally };
    let rows = StretchRows { slot_table, shapes };
    Ok(MadeStretch { numbers, rows })
}
