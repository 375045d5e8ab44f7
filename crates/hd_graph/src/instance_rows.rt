//! The rows of instances.
ghost use Rattle.std.specs.Prelude.{◌≡◌, ◌+◌, ◌-◌, ◌<◌, ◌≤◌, ◌^◌, ℕ, [], ◌∷◌, ◌++◌, length, map, IfOk, OnOk};
ghost use Rattle.hd_terms.specs.Classes as classes_of;
ghost use Rattle.hd_classes.specs.Fits.{length_by_number, IsFit};
ghost use Rattle.hd_classes.specs.Known.{field_view, known_at};
ghost use Rattle.hd_subs.specs.Layout as layout;
ghost use Rattle.hd_slots.specs.Table.{id_at, IsIdWithin, HasIdAt};
ghost use Rattle.hd_graph.specs.ArrayRows.{IsValueWithin, fitting, layout_by_number, placed_fields, value_ids, instance_row, instance_entry};
ghost use Rattle.hd_graph.specs.Building.{AddsRow, GrowsBy};

use hd_classes::{Fit, Layout, LayoutBytes, LayoutField};
use hd_slots::UnresolvedSlots;
use hd_subs::class_offset;
use hd_terms::{Span, is_id_type, value_len};
use std::alloc::AllocError;

/// Adds the ID in a value, if its type is that of IDs.
pub(crate) fn push_value(
    slot_table: &mut UnresolvedSlots<'_>,
    code: u8,
    value: Span,
) -> Result<(), AllocError>
    requires within { IsValueWithin slot_table.old.size (length slot_table.old.bytes) (code, value) }
    requires room { length slot_table.old.ids + slot_table.old.count < 2 ^ 32 - 1 }
    ensures { OnOk result (GrowsBy (value_ids slot_table.old.bytes slot_table.old.size ((code, value) ∷ [])) slot_table.old slot_table.new) }
{
    if is_id_type(code) {
        slot_table.push(value.start)?;
    }
    Ok(())
}

/// Adds the IDs in the fields of one class, whose values begin at a file offset. Answers the offset behind them.
fn push_own_fields(
    slot_table: &mut UnresolvedSlots<'_>,
    start: u64,
    fields: &[LayoutField],
) -> Result<u64, AllocError>
    requires within { start + classes_of.layout_len slot_table.old.size (map field_view fields.now) ≤ length slot_table.old.bytes }
    requires room { length slot_table.old.ids + slot_table.old.count + length fields.now < 2 ^ 32 - 1 }
    ensures row { OnOk result (GrowsBy (value_ids slot_table.old.bytes slot_table.old.size (placed_fields slot_table.old.size start (map field_view fields.now))) slot_table.old slot_table.new) }
    ensures end { IfOk result (λ end. end ≡ start + classes_of.layout_len slot_table.old.size (map field_view fields.now)) }
{
    let id_size = slot_table.id_size();
    let mut at = start;
    for i in 0..fields.len() {
        let code = fields[i].code;
        let len = u64::from(value_len(id_size, code));
        push_value(slot_table, code, Span { start: at, len })?;
        at += len;
    }
    Ok(at)
}

/// Adds the IDs in the fields of a layout, whose values begin at a file offset.
fn push_fields(
    slot_table: &mut UnresolvedSlots<'_>,
    start: u64,
    layout: Layout<'_>,
) -> Result<(), AllocError>
    requires within { start + classes_of.layout_len slot_table.old.size layout ≤ length slot_table.old.bytes }
    requires room { length slot_table.old.ids + slot_table.old.count + length layout < 2 ^ 32 - 1 }
    ensures { OnOk result (GrowsBy (value_ids slot_table.old.bytes slot_table.old.size (placed_fields slot_table.old.size start layout.entry)) slot_table.old slot_table.new) }
{
    let mut at = start;
    let mut rest = layout;
    while let Some((own, above)) = rest.split_first_class() {
        at = push_own_fields(slot_table, at, own)?;
        rest = above;
    }
    Ok(())
}

/// Adds the IDs in the values of an instance of the class of a number, which begin at a file offset. The first instance of a class
/// is read field by field, and the places of its references are noted; the IDs of the others lie at these.
#[inline(always)]
fn push_values(
    slot_table: &mut UnresolvedSlots<'_>,
    layouts: &mut LayoutBytes<'_>,
    class: usize,
    start: u32,
) -> Result<(), AllocError>
    requires size { layouts.old.size ≡ slot_table.old.size }
    requires class { class < length layouts.old.classes.classes }
    requires within { start + length_by_number slot_table.old.size layouts.old.classes class ≤ length slot_table.old.bytes }
    requires room { length slot_table.old.ids + slot_table.old.count + length (layout_by_number layouts.old.classes class) < 2 ^ 32 - 1 }
    ensures row { OnOk result (GrowsBy (value_ids slot_table.old.bytes slot_table.old.size (placed_fields slot_table.old.size start (layout_by_number layouts.old.classes class))) slot_table.old slot_table.new) }
    ensures same { OnOk result (layouts.new ≡ layouts.old) }
{
    if let Some(places) = layouts.places(class) {
        slot_table.push_all(start, places)?;
    } else {
        let layout = layouts.classes().get(class).layout;
        push_fields(slot_table, u64::from(start), layout)?;
        layouts.note_places(class)?;
    }
    Ok(())
}

/// Adds the row of an instance whose values fit the layout of the class of a number. The class's ID, and the values, lie at these file
/// offsets.
#[inline(always)]
fn push_row(
    slot_table: &mut UnresolvedSlots<'_>,
    layouts: &mut LayoutBytes<'_>,
    number: usize,
    id: u64,
    class: u64,
    start: u32,
) -> Result<(), AllocError>
    requires size { layouts.old.size ≡ slot_table.old.size }
    requires number { number < length layouts.old.classes.classes }
    requires class { HasIdAt slot_table.old.bytes slot_table.old.size class id }
    requires within { start + length_by_number slot_table.old.size layouts.old.classes number ≤ length slot_table.old.bytes }
    requires room { length slot_table.old.ids + slot_table.old.count + length (layout_by_number layouts.old.classes number) + 1 < 2 ^ 32 - 1 }
    requires filled { slot_table.old.filling ≡ [] }
    ensures row { OnOk result (AddsRow (instance_row slot_table.old.bytes slot_table.old.size start id (layout_by_number layouts.old.classes number)) (length (layout_by_number layouts.old.classes number) + 1) slot_table.old slot_table.new) }
    ensures same { OnOk result (layouts.new ≡ layouts.old) }
{
    push_values(slot_table, layouts, number, start)?;
    slot_table.push_shared(number, id, class)?;
    slot_table.end_row()?;
    Ok(())
}

/// Adds the row of an instance by whose class its values can't be read: it has its class alone, whose ID lies at this file
/// offset.
fn push_opaque_row(slot_table: &mut UnresolvedSlots<'_>, class: u64) -> Result<(), AllocError>
    requires class { IsIdWithin slot_table.old.size (length slot_table.old.bytes) class }
    requires room { length slot_table.old.ids + slot_table.old.count + 1 < 2 ^ 32 - 1 }
    requires filled { slot_table.old.filling ≡ [] }
    ensures { OnOk result (AddsRow (id_at slot_table.old.bytes slot_table.old.size class ∷ []) 1 slot_table.old slot_table.new) }
{
    slot_table.push(class)?;
    slot_table.end_row()?;
    Ok(())
}

/// Adds the row of an instance, whose tag lies at a file offset. Answers how its values fit the layout of its class.
pub(crate) fn push_instance_row(
    slot_table: &mut UnresolvedSlots<'_>,
    layouts: &mut LayoutBytes<'_>,
    class: u64,
    values: Span,
    offset: u64,
) -> Result<Fit, AllocError>
    requires size { layouts.old.size ≡ slot_table.old.size }
    requires within { values.start + values.len ≤ length slot_table.old.bytes }
    requires class { HasIdAt slot_table.old.bytes slot_table.old.size (layout.class_offset slot_table.old.size offset) class }
    requires room { length slot_table.old.ids + slot_table.old.count + values.len + 1 < 2 ^ 32 - 1 }
    requires filled { slot_table.old.filling ≡ [] }
    ensures row { OnOk result ((id : ℕ) → AddsRow (instance_entry slot_table.old.bytes slot_table.old.size id class values (fitting slot_table.old.size values.len (known_at layouts.old.classes class))).1 (1 + values.len) slot_table.old slot_table.new) }
    ensures fit { IfOk result (IsFit layouts.old.size values.len layouts.old.classes class) }
    ensures same { OnOk result (layouts.new ≡ layouts.old) }
{
    let class_at = class_offset(slot_table.id_size(), offset);
    let fit = layouts.fit(class, values.len);
    match fit {
        Fit::Class(number) => {
            let start = values.start as u32;
            push_row(slot_table, layouts, number, class, class_at, start)?;
        }
        Fit::Unknown | Fit::Misfit => push_opaque_row(slot_table, class_at)?,
    }
    Ok(fit)
}
