//! The rows of class objects.
ghost use Rattle.std.specs.Prelude.{◌≡◌, ◌+◌, ◌-◌, ◌*◌, ◌<◌, ◌≤◌, ◌^◌, [], length, map, All, OnOk};
ghost use Rattle.hd_subs.specs.Layout as layout;
ghost use Rattle.hd_subs.specs.Views.{static_view, constant_view, class_view};
ghost use Rattle.hd_terms.specs.Records.{id_len};
ghost use Rattle.hd_graph.specs.ArrayRows.{IsValueWithin, IsClassWithin, HasLinks, links_at, values_of_statics, values_of_constants, value_ids, class_row, class_weight};
ghost use Rattle.hd_graph.specs.Building.{AddsRow, GrowsBy};

use crate::instance_rows::push_value;
use hd_slots::UnresolvedSlots;
use hd_subs::{ClassDump, Constant, Static, class_offset};
use std::alloc::AllocError;

/// Adds the IDs in the values of statics.
fn push_statics(slot_table: &mut UnresolvedSlots<'_>, statics: &[Static]) -> Result<(), AllocError>
    requires within { All (IsValueWithin slot_table.old.size (length slot_table.old.bytes)) (values_of_statics (map static_view statics.now)) }
    requires room { length slot_table.old.ids + slot_table.old.count + length statics.now < 2 ^ 32 - 1 }
    ensures { OnOk result (GrowsBy (value_ids slot_table.old.bytes slot_table.old.size (values_of_statics (map static_view statics.now))) slot_table.old slot_table.new) }
{
    for i in 0..statics.len() {
        push_value(slot_table, statics[i].code, statics[i].value)?;
    }
    Ok(())
}

/// Adds the IDs in the values of constants.
fn push_constants(
    slot_table: &mut UnresolvedSlots<'_>,
    constants: &[Constant],
) -> Result<(), AllocError>
    requires within { All (IsValueWithin slot_table.old.size (length slot_table.old.bytes)) (values_of_constants (map constant_view constants.now)) }
    requires room { length slot_table.old.ids + slot_table.old.count + length constants.now < 2 ^ 32 - 1 }
    ensures { OnOk result (GrowsBy (value_ids slot_table.old.bytes slot_table.old.size (values_of_constants (map constant_view constants.now))) slot_table.old slot_table.new) }
{
    for i in 0..constants.len() {
        push_value(slot_table, constants[i].code, constants[i].value)?;
    }
    Ok(())
}

/// Adds the IDs of a class's super class, loader, signers and protection domain, which stand one after another from a file
/// offset on.
fn push_links(slot_table: &mut UnresolvedSlots<'_>, offset: u64) -> Result<(), AllocError>
    requires within { offset + 4 * id_len slot_table.old.size ≤ length slot_table.old.bytes }
    requires room { length slot_table.old.ids + slot_table.old.count + 4 < 2 ^ 32 - 1 }
    ensures { OnOk result (GrowsBy (links_at slot_table.old.bytes slot_table.old.size offset) slot_table.old slot_table.new) }
{
    let id_len = u64::from(slot_table.id_len());
    slot_table.push(offset)?;
    slot_table.push(offset + id_len)?;
    slot_table.push(offset + 2 * id_len)?;
    slot_table.push(offset + 3 * id_len)?;
    Ok(())
}

/// Adds the row of a class object, whose tag lies at a file offset.
pub(crate) fn push_class_row(
    slot_table: &mut UnresolvedSlots<'_>,
    class: &ClassDump,
    offset: u64,
) -> Result<(), AllocError>
    requires within { IsClassWithin slot_table.old.size (length slot_table.old.bytes) (class_view class.now) }
    requires links { HasLinks slot_table.old.bytes slot_table.old.size (layout.class_offset slot_table.old.size offset) (class_view class.now) }
    requires room { length slot_table.old.ids + slot_table.old.count + class_weight (class_view class.now) < 2 ^ 32 - 1 }
    requires filled { slot_table.old.filling ≡ [] }
    ensures { OnOk result (AddsRow (class_row slot_table.old.bytes slot_table.old.size (class_view class.now)) (class_weight (class_view class.now)) slot_table.old slot_table.new) }
{
    let links = class_offset(slot_table.id_size(), offset);
    push_statics(slot_table, class.statics.as_slice())?;
    push_constants(slot_table, class.constants.as_slice())?;
    push_links(slot_table, links)?;
    slot_table.end_row()?;
    Ok(())
}
