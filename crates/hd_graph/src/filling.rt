//! Filling the rows and shapes of objects, in the order of their numbers.
ghost use Rattle.std.specs.Prelude.{◌≡◌, ◌+◌, ◌<◌, ◌≤◌, ◌-◌, ◌^◌, [], ◌∷◌, ◌++◌, length, All, IfOk, IfSome, OnOk};
ghost use Rattle.std.specs.List.{cons_option};
ghost use Rattle.hd_terms.specs.FirstRecords.{id_of_item};
ghost use Rattle.hd_classes.specs.Known.{known_at};
ghost use Rattle.hd_shapes.specs.JoinedShapes.{joined_objects};
ghost use Rattle.hd_slots.specs.JoinedInside.{joined_table};
ghost use Rattle.hd_subs.specs.Views.{item_view, sub_view};
ghost use Rattle.hd_graph.specs.ArrayRows.{AreWithin, IsSubWithin, object_ids, item_weight, shape_of_item, weight};
ghost use Rattle.hd_graph.specs.Made.{CanBeJoined};
ghost use Rattle.hd_graph.specs.Building.{HasNoRows, HasRowsOf, HasAllRows, HasAllShapes, AddsItemRow, FillsItem, columns, stretch, AreLayouts, AreFewAndShort};

use crate::array_rows::{bytes_of_elements, push_array};
use crate::class_rows::push_class_row;
use crate::class_shapes::push_class_shape;
use crate::instance_rows::push_instance_row;
use crate::instance_shapes::push_fitted_shape;
use hd_classes::{Classes, LayoutBytes};
use hd_ids::ObjectIds;
use hd_shapes::{JoinedShapes, Shapes};
use hd_slots::{JoinedRows, UnresolvedSlots};
use hd_subs::{DumpSubs, Item, Sub, array_class_offset};
use hd_terms::IdSize;
use std::alloc::{AllocError, Global};
use std::sync::Arc;

/// The references of the objects of some sub-records, by the file offsets of their IDs, and their shapes.
#[derive(Drop)]
pub(crate) struct StretchRows<'a> {
    pub(crate) slot_table: UnresolvedSlots<'a>,
    pub(crate) shapes: Shapes,
}

/// The references and the shapes of the objects of some parts of the sub-records.
#[derive(Drop)]
pub(crate) struct RowParts<'a> {
    pub(crate) slot_tables: Vec<UnresolvedSlots<'a>>,
    pub(crate) shapes: Vec<Shapes>,
}

/// The references of objects, by the file offsets of their IDs, and their shapes.
#[derive(Drop)]
pub(crate) struct Rows<'a> {
    pub(crate) slot_table: JoinedRows<'a>,
    pub(crate) shapes: JoinedShapes,
}

impl<'a> RowParts<'a> {
    /// No parts, and room for this many.
    pub(crate) fn with_capacity(alloc: Global, parts: usize) -> Result<RowParts<'a>, AllocError>
        ensures slot_tables { IfOk result (λ rows. rows.slot_tables.items ≡ []) }
        ensures shapes { IfOk result (λ rows. rows.shapes.items ≡ []) }
    {
        let slot_tables = Vec::with_capacity(alloc, parts)?;
        let shapes = Vec::with_capacity(alloc, parts)?;
        Ok(RowParts {
            slot_tables,
            shapes,
        })
    }

    /// Adds a part behind the others.
    pub(crate) fn push(&mut self, rows: StretchRows<'a>) -> Result<(), AllocError>
        ensures slot_tables { OnOk result (self.new.slot_tables.items ≡ self.old.slot_tables.items ++ rows.entry.slot_table ∷ []) }
        ensures shapes { OnOk result (self.new.shapes.items ≡ self.old.shapes.items ++ rows.entry.shapes ∷ []) }
    {
        self.slot_tables.push(rows.slot_table)?;
        self.shapes.push(rows.shapes)?;
        Ok(())
    }

    /// The rows and the shapes of all parts, those of each behind those of the one before.
    pub(crate) fn join(self, alloc: Global) -> Result<Rows<'a>, AllocError>
        requires { CanBeJoined self.slot_tables.items self.shapes.items }
        ensures rows { IfOk result (λ rows. rows.slot_table ≡ joined_table self.entry.slot_tables.items) }
        ensures shapes { IfOk result (λ rows. rows.shapes.objects ≡ joined_objects self.entry.shapes.items) }
    {
        let shapes = JoinedShapes::join(alloc, self.shapes)?;
        Ok(Rows {
            slot_table: JoinedRows::join(self.slot_tables),
            shapes,
        })
    }
}

/// The ID of the object of a sub-record, if it is one.
fn id_of(item: Item<'_>) -> Option<u64>
    ensures { result ≡ id_of_item (item_view item.entry) }
{
    match item {
        Item::Root(..) => None,
        Item::Class(class) => Some(class.id),
        Item::Instance { id, .. } => Some(id),
        Item::ObjArray { id, .. } => Some(id),
        Item::PrimArray { id, .. } => Some(id),
    }
}

/// Adds the row and the shape of the object of a sub-record, if it is one.
#[inline(always)]
pub(crate) fn fill_one(
    alloc: Global,
    slot_table: &mut UnresolvedSlots<'_>,
    shapes: &mut Shapes,
    layouts: &mut LayoutBytes<'_>,
    sub: Sub<'_>,
) -> Result<(), AllocError>
    requires size { layouts.old.size ≡ slot_table.old.size }
    requires within { IsSubWithin slot_table.old.size slot_table.old.bytes (sub_view sub) }
    requires room { length slot_table.old.ids + slot_table.old.count + item_weight (item_view sub.item) < 2 ^ 32 - 1 }
    requires few { length shapes.old.objects < 2 ^ 32 - 1 }
    requires filled { slot_table.old.filling ≡ [] }
    requires classes { AreLayouts layouts.old.size layouts.old.classes shapes.old.layouts }
    ensures row { OnOk result (AddsItemRow (known_at layouts.old.classes) slot_table.old.bytes slot_table.old.size (item_view sub.entry.item) slot_table.old slot_table.new) }
    ensures shape { OnOk result (shapes.new.objects ≡ shapes.old.objects ++ cons_option (shape_of_item (known_at layouts.old.classes) layouts.old.size (item_view sub.entry.item)) []) }
    ensures classes { OnOk result (AreLayouts layouts.old.size layouts.old.classes shapes.new.layouts) }
    ensures same { OnOk result (layouts.new ≡ layouts.old) }
{
    let offset = sub.offset;
    match sub.item {
        Item::Root(..) => {}
        Item::Class(class) => {
            push_class_row(slot_table, class, offset)?;
            push_class_shape(alloc, shapes, class)?;
        }
        Item::Instance { class, values, .. } => {
            let fit = push_instance_row(slot_table, layouts, class, values, offset)?;
            push_fitted_shape(alloc, shapes, layouts, fit, values)?;
        }
        Item::ObjArray { elements, .. } => {
            let class = array_class_offset(slot_table.id_size(), offset);
            push_array(slot_table, class, elements)?;
            shapes.push_object_array(elements.len as u32)?;
        }
        Item::PrimArray { element, count, .. } => {
            slot_table.end_row()?;
            shapes.push_primitive_array(element, bytes_of_elements(element, count))?;
        }
    }
    Ok(())
}

/// Adds the row and the shape of the object of a sub-record, if it is the object that comes next.
fn fill_next(
    alloc: Global,
    slot_table: &mut UnresolvedSlots<'_>,
    shapes: &mut Shapes,
    layouts: &mut LayoutBytes<'_>,
    sub: Sub<'_>,
) -> Result<(), AllocError>
    requires size { layouts.old.size ≡ slot_table.old.size }
    requires within { IsSubWithin slot_table.old.size slot_table.old.bytes (sub_view sub) }
    requires room { length slot_table.old.ids + slot_table.old.count + item_weight (item_view sub.item) < 2 ^ 32 - 1 }
    requires few { length shapes.old.objects < 2 ^ 32 - 1 }
    requires filled { slot_table.old.filling ≡ [] }
    requires classes { AreLayouts layouts.old.size layouts.old.classes shapes.old.layouts }
    ensures filled { OnOk result (FillsItem (known_at layouts.old.classes) slot_table.old.bytes slot_table.old.size (item_view sub.entry.item) (columns slot_table.old shapes.old.objects) (columns slot_table.new shapes.new.objects)) }
    ensures classes { OnOk result (AreLayouts layouts.old.size layouts.old.classes shapes.new.layouts) }
    ensures same { OnOk result (layouts.new ≡ layouts.old) }
{
    if let Some(id) = id_of(sub.item)
        && slot_table.is_next(id)
    {
        fill_one(alloc, slot_table, shapes, layouts, sub)?;
    }
    Ok(())
}

/// Adds the row and the shape of each object, in the order of their numbers.
fn fill_first_rows(
    alloc: Global,
    slot_table: &mut UnresolvedSlots<'_>,
    shapes: &mut Shapes,
    layouts: &mut LayoutBytes<'_>,
    list: &DumpSubs<'_>,
) -> Result<(), AllocError>
    requires size { layouts.old.size ≡ slot_table.old.size }
    requires within { AreWithin slot_table.old.size slot_table.old.bytes list.now }
    requires ids { slot_table.old.ids ≡ object_ids list.now }
    requires few { length slot_table.old.ids < 2 ^ 31 }
    requires empty { HasNoRows (columns slot_table.old shapes.old.objects) }
    requires classes { AreLayouts layouts.old.size layouts.old.classes shapes.old.layouts }
    ensures { OnOk result (HasRowsOf (known_at layouts.old.classes) slot_table.old.bytes slot_table.old.size list.now (columns slot_table.new shapes.new.objects)) }
{
    let subs = list.as_list();
    for i in 0..list.len() {
        fill_next(alloc, slot_table, shapes, layouts, subs.get(i))?;
    }
    Ok(())
}

/// The references and the shapes of the objects of a file, by the file offsets of the references' IDs, where IDs are repeated:
/// those of the first object of each ID.
fn first_rows_of<'a>(
    alloc: Global,
    ids: ObjectIds,
    classes: &Classes,
    id_size: IdSize,
    bytes: &'a [u8],
    list: &DumpSubs<'_>,
) -> Result<Rows<'a>, AllocError>
    requires within { AreWithin id_size bytes.now list.now }
    requires small { length bytes.now < 2 ^ 31 }
    requires ids { ids ≡ object_ids list.now }
    requires no_null { All (λ id. 0 < id) ids }
    requires few { length ids < 2 ^ 31 }
    requires classes { AreFewAndShort classes.now }
    ensures { IfOk result (λ rows. HasRowsOf (known_at classes.now) bytes.now id_size list.now (columns rows.slot_table rows.shapes.objects)) }
{
    let count = ids.len();
    let mut layouts = LayoutBytes::new(alloc, classes, id_size)?;
    let mut shapes = Shapes::with_capacity(alloc, count, classes.len())?;
    let ids = Arc::new(alloc, ids)?;
    let mut slot_table = UnresolvedSlots::new(alloc, bytes, id_size, ids, count)?;
    fill_first_rows(alloc, &mut slot_table, &mut shapes, &mut layouts, list)?;
    let mut parts = RowParts::with_capacity(alloc, 1)?;
    parts.push(StretchRows { slot_table, shapes })?;
    let rows = parts.join(alloc)?;
    Ok(rows)
}

/// The references and the shapes of the objects of these IDs, each once. Those of all sub-records are the same where no ID is
/// repeated; where they aren't given, or some are repeated, they are made anew.
pub(crate) fn rows_of<'a>(
    alloc: Global,
    ids: ObjectIds,
    all: Option<Rows<'a>>,
    classes: &Classes,
    id_size: IdSize,
    bytes: &'a [u8],
    list: &DumpSubs<'_>,
) -> Result<Rows<'a>, AllocError>
    requires within { AreWithin id_size bytes.now list.now }
    requires small { length bytes.now < 2 ^ 31 }
    requires ids { ids ≡ object_ids list.now }
    requires no_null { All (λ id. 0 < id) ids }
    requires few { length ids < 2 ^ 31 }
    requires classes { AreFewAndShort classes.now }
    requires rows { IfSome all (λ r. HasAllRows (known_at classes.now) bytes.now id_size list.now r.slot_table) }
    requires shapes { IfSome all (λ r. HasAllShapes (known_at classes.now) id_size list.now r.shapes.objects) }
    ensures { IfOk result (λ rows. HasRowsOf (known_at classes.now) bytes.now id_size list.now (columns rows.slot_table rows.shapes.objects)) }
{
    if let Some(Rows { slot_table, shapes }) = all {
        if shapes.len() == ids.len() {
            let slot_table = slot_table.with_ids(alloc, ids)?;
            return Ok(Rows { slot_table, shapes });
        }
        drop(slot_table);
        drop(shapes);
    }
    let rows = first_rows_of(alloc, ids, classes, id_size, bytes, list)?;
    Ok(rows)
}
