//! The rows of object arrays, and the bytes of primitive arrays.
ghost use Rattle.std.specs.Prelude.{◌≡◌, ◌+◌, ◌*◌, ◌≤◌, ◌<◌, ◌-◌, ◌^◌, [], ◌∷◌, ◌++◌, length, drop, OnOk};
ghost use Rattle.hd_terms.specs.Records.{id_len};
ghost use Rattle.hd_terms.specs.Types.{element_len};
ghost use Rattle.hd_slots.specs.Table.{id_at, IsIdWithin};
ghost use Rattle.hd_graph.specs.ArrayRows.{array_row, id_count, ids_in};

use hd_slots::UnresolvedSlots;
use hd_terms::{Span, element_len};
use std::alloc::AllocError;

/// Adds `count` IDs that stand one after another from a file offset on to the row that is being filled.
fn push_ids(slot_table: &mut UnresolvedSlots<'_>, start: u64, count: u32) -> Result<(), AllocError>
    requires within { start + id_len slot_table.old.size * count ≤ length slot_table.old.bytes }
    requires room { length slot_table.old.ids + slot_table.old.count + count < 2 ^ 32 - 1 }
    ensures { OnOk result (slot_table.new ≡ record slot_table.old {
      filling = slot_table.old.filling ++ ids_in (id_len slot_table.old.size) count (drop start slot_table.old.bytes);
      count = slot_table.old.count + count;
    }) }
{
    let id_len = u64::from(slot_table.id_len());
    let mut offset = start;
    for i in 0..count {
        slot_table.push(offset)?;
        offset += id_len;
    }
    Ok(())
}

/// Adds the row of an object array: its elements, and then its class, whose ID lies at this file offset.
pub(crate) fn push_array(
    slot_table: &mut UnresolvedSlots<'_>,
    class: u64,
    elements: Span,
) -> Result<(), AllocError>
    requires class { IsIdWithin slot_table.old.size (length slot_table.old.bytes) class }
    requires within { elements.start + elements.len ≤ length slot_table.old.bytes }
    requires room { length slot_table.old.ids + slot_table.old.count + elements.len + 1 < 2 ^ 32 - 1 }
    requires filled { slot_table.old.filling ≡ [] }
    ensures { OnOk result (slot_table.new ≡ record slot_table.old {
      rows = slot_table.old.rows ++ array_row slot_table.old.bytes slot_table.old.size (id_at slot_table.old.bytes slot_table.old.size class) elements ∷ [];
      count = slot_table.old.count + id_count slot_table.old.size elements + 1;
    }) }
{
    let count = elements.len as u32 / slot_table.id_len();
    push_ids(slot_table, elements.start, count)?;
    slot_table.push(class)?;
    slot_table.end_row()?;
    Ok(())
}

/// The recorded bytes of a primitive array of `count` elements of a type.
pub(crate) fn bytes_of_elements(element: u8, count: u32) -> u32
    requires { count * element_len element < 2 ^ 32 }
    ensures { result ≡ count * element_len element }
{
    count * u32::from(element_len(element))
}
