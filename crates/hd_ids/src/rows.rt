//! Rows of numbers, one for each page of IDs.
ghost use Rattle.std.specs.Prelude.{◌≡◌, nat_eq, ◌+◌, ◌*◌, ◌<◌, ◌≤◌, ◌^◌, [], ◌∷◌, ◌++◌, length, replicate, slice_index, slice_set, OnOk, OnErr};
ghost use Rattle.std.specs.List.{IsDistinct};
ghost use Rattle.hd_ids.specs.Rows as rows;

use crate::numbers::{Numbers, ROW};
use hd_hashers::PageHasher;
use indexmap::IndexSet;
use std::alloc::AllocError;

/// The page of an ID: 4,096 addresses, apart by what 8 leaves of them.
pub(crate) fn page_of(id: u64) -> u64
    ensures { result ≡ rows.page_of id }
{
    id / 4096 * 8 + id % 8
}

/// The place of an ID in the row of its page.
pub(crate) fn place_of(id: u64) -> usize
    ensures place { result ≡ rows.place_of id }
    ensures within { result < 512 }
{
    (id / 8 % 512) as usize
}

/// The ID of a place in the row of a page.
pub(crate) fn id_at(page: u64, place: usize) -> u64
    requires page { page < 2 ^ 55 }
    requires place { place < 512 }
    ensures { result ≡ rows.id_at page place }
{
    page / 8 * 4096 + place as u64 * 8 + page % 8
}

/// The row of a page, one past the last where it has none.
pub(crate) fn row_of(pages: &IndexSet<u64, PageHasher>, page: u64) -> usize
    ensures row { result ≡ rows.row_of pages.now.keys page }
    ensures within { result ≤ length pages.now.keys }
    ensures distinct { IsDistinct nat_eq pages.now.keys }
{
    let past = pages.len();
    match pages.get_index_of(&page) {
        Some(row) => row,
        None => past,
    }
}

/// The row of a page, where that of the last page is known.
#[inline(always)]
pub(crate) fn row_after(
    pages: &IndexSet<u64, PageHasher>,
    last_page: u64,
    last_row: usize,
    page: u64,
) -> usize
    requires last { rows.row_of pages.now.keys last_page ≡ last_row }
    requires last_within { last_row ≤ length pages.now.keys }
    ensures row { result ≡ rows.row_of pages.now.keys page }
    ensures within { result ≤ length pages.now.keys }
{
    if page == last_page {
        last_row
    } else {
        row_of(pages, page)
    }
}

/// What stands at the place of an ID in a row, 0 where there is no such row.
#[inline(always)]
pub(crate) fn number_in(numbers: &Numbers, row: usize, id: u64) -> u32
    requires { row ≤ 2 ^ 32 }
    ensures { result ≡ slice_index numbers.now (row * 512 + rows.place_of id) }
{
    let slot = row * ROW + place_of(id);
    if slot < numbers.len() {
        numbers.get(slot)
    } else {
        0
    }
}

/// What stands at the place of an ID, 0 where its page has no row.
pub(crate) fn number_at(pages: &IndexSet<u64, PageHasher>, numbers: &Numbers, id: u64) -> u32
    requires { length pages.now.keys ≤ 2 ^ 32 }
    ensures { result ≡ slice_index numbers.now (rows.slot_of pages.now.keys id) }
{
    number_in(numbers, row_of(pages, page_of(id)), id)
}

/// Gives a page its row, of zeros.
pub(crate) fn add_row(
    pages: &mut IndexSet<u64, PageHasher>,
    numbers: &mut Numbers,
    page: u64,
) -> Result<(), AllocError>
    requires new { rows.row_of pages.old.keys page ≡ length pages.old.keys }
    requires few { length numbers.old + 512 ≤ 2 ^ 32 }
    ensures pages { OnOk result (pages.new.keys ≡ pages.old.keys ++ page ∷ []) }
    ensures numbers { OnOk result (numbers.new ≡ numbers.old ++ replicate 512 0) }
    ensures same_pages { OnErr result (pages.new.keys ≡ pages.old.keys) }
    ensures same_numbers { OnErr result (numbers.new ≡ numbers.old) }
{
    pages.reserve(1)?;
    numbers.add_row()?;
    pages.insert(page)?;
    Ok(())
}

/// Adds the slot of an ID, and writes the ID's number there.
#[inline(always)]
pub(crate) fn add_slot(
    slots: &mut Vec<u32>,
    numbers: &mut Numbers,
    slot: usize,
) -> Result<(), AllocError>
    requires few { length slots.old.items < 2 ^ 31 }
    requires within { slot < length numbers.old }
    requires low { slot < 2 ^ 32 }
    ensures slots { OnOk result (slots.new.items ≡ slots.old.items ++ slot ∷ []) }
    ensures numbers { OnOk result (numbers.new ≡ slice_set numbers.old slot (length slots.old.items + 1)) }
    ensures same_slots { OnErr result (slots.new.items ≡ slots.old.items) }
    ensures same_numbers { OnErr result (numbers.new ≡ numbers.old) }
{
    // Where there is room, this call would take longer than the rest.
    if slots.len() == slots.capacity() {
        slots.reserve(1)?;
    }
    numbers.set(slot, slots.len() as u32 + 1)?;
    slots.push_reserved(slot as u32);
    Ok(())
}
