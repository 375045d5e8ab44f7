//! The rows of IDs that are put behind others.
//!
//! The pages of the further IDs get rows where they have none (`add_rows`), then the numbers of each such page are put into its row
//! (`put_rows`), mostly a block of 32 places at a time, and last the slots of the further IDs are added (`put_slots`).
ghost use Rattle.std.specs.Prelude.{◌≡◌, ℕ, ◌+◌, ◌*◌, ◌<◌, ◌≤◌, ◌^◌, ◌++◌, length, map, All, slice_index, IfOk, MatchBool, OnOk};
ghost use Rattle.hd_ids.specs.Put.{moved_slot, AreApartRows, AreRowsPut, HasGotRow, HaveGotRows, RowsMeet};

use crate::numbers::{Numbers, ROW};
use crate::rows::{add_row, row_of};
use hd_hashers::PageHasher;
use indexmap::IndexSet;
use std::alloc::{AllocError, Global};

/// The row of a page, which gets one without numbers where it has none.
fn row_for(
    pages: &mut IndexSet<u64, PageHasher>,
    numbers: &mut Numbers,
    page: u64,
) -> Result<u32, AllocError>
    requires few { length numbers.old + 512 ≤ 2 ^ 32 }
    requires whole { length numbers.old ≡ length pages.old.keys * 512 }
    ensures { IfOk result (λ row. HasGotRow pages.old.keys numbers.old page row pages.new.keys numbers.new) }
{
    let row = row_of(pages, page);
    if row < pages.len() {
        return Ok(row as u32);
    }
    add_row(pages, numbers, page)?;
    Ok(row as u32)
}

/// The rows of further pages, in their order. A page that has none gets one without numbers.
pub(crate) fn add_rows(
    alloc: Global,
    pages: &mut IndexSet<u64, PageHasher>,
    numbers: &mut Numbers,
    more: &[u64],
) -> Result<Vec<u32>, AllocError>
    requires few { length numbers.old + length more.now * 512 ≤ 2 ^ 32 }
    requires whole { length numbers.old ≡ length pages.old.keys * 512 }
    requires low { All (λ (p : ℕ). p < 2 ^ 55) more.now }
    ensures { IfOk result (λ rows. HaveGotRows pages.old.keys numbers.old pages.new.keys numbers.new rows.items more.now (length more.now)) }
{
    let mut rows = Vec::with_capacity(alloc, more.len())?;
    for i in 0..more.len() {
        let row = row_for(pages, numbers, more[i])?;
        rows.push(row)?;
    }
    Ok(rows)
}

/// Puts the rows of `more` into these rows, each number `base` higher, and answers whether no place has a number of both.
pub(crate) fn put_rows(
    numbers: &mut Numbers,
    rows: &[u32],
    more: &Numbers,
    base: u32,
) -> Result<bool, AllocError>
    requires within { All (λ (row : ℕ). row * 512 + 512 ≤ length numbers.old) rows.now }
    requires there { length rows.now * 512 ≤ length more.now }
    requires few { (length numbers.old ≤ 2 ^ 32) × (length more.now ≤ 2 ^ 32) }
    requires apart { AreApartRows rows.now }
    requires base { base < 2 ^ 31 }
    requires low { (q : ℕ) → slice_index more.now q + base ≤ 2 ^ 31 }
    ensures { IfOk result (λ apart. MatchBool apart (AreRowsPut numbers.old numbers.new rows.now more.now base (length rows.now)) (RowsMeet numbers.old rows.now more.now)) }
{
    for i in 0..rows.len() {
        if !numbers.put_row(rows[i] as usize, more, i, base)? {
            return Ok(false);
        }
    }
    Ok(true)
}

/// Adds the slots of further IDs, whose pages have these rows.
pub(crate) fn put_slots(slots: &mut Vec<u32>, rows: &[u32], more: &[u32]) -> Result<(), AllocError>
    requires rows { All (λ (row : ℕ). row < 2 ^ 23) rows.now }
    requires within { All (λ (slot : ℕ). slot < length rows.now * 512) more.now }
    ensures { OnOk result (slots.new.items ≡ slots.old.items ++ map (moved_slot rows.now) more.now) }
{
    slots.reserve(more.len())?;
    for i in 0..more.len() {
        let slot = more[i] as usize;
        let row = rows[slot / ROW] as usize;
        slots.push_reserved((row * ROW + slot % ROW) as u32);
    }
    Ok(())
}
