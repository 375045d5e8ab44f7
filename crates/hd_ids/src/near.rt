//! Finding IDs by pages of the heap, one after another.
ghost use Rattle.std.specs.Prelude.{◌≡◌, ◌==◌, ◌≤◌, ℕ, All, length, position};
ghost use Rattle.hd_ids.specs.Rows as rows;
ghost use Rattle.hd_ids.specs.AtHand.{HasRow};
ghost use Rattle.hd_ids.specs.Directory.{TellsRows};

use crate::directory::Directory;
use crate::numbers::Numbers;
use crate::rows::{number_in, page_of, row_of};
use hd_hashers::PageHasher;
use indexmap::IndexSet;
use std::marker::Model;

/// How many rows are at hand.
const AT_HAND: usize = 256;

/// A page, and its row, one past the last where it has none.
#[derive(Clone, Copy)]
pub(crate) struct PageRow {
    page: u64,
    row: usize,
}

/// Finds IDs by pages of the heap. The directory tells the rows of most. Rows that were looked up are at hand for further IDs of their
/// pages: references lead to few pages for a while.
#[derive(Drop)]
pub(crate) struct NearIds<'a> {
    slots: &'a [u32],
    pages: &'a IndexSet<u64, PageHasher>,
    numbers: &'a Numbers,
    directory: &'a Directory,
    /// The rows at hand, each at the place of its page. Of pages that have one place it is that of the last one.
    at_hand: [PageRow; AT_HAND],
}

/// The row of a page, one past the last where it has none. It is at hand afterwards. This is a function of its own, since `index_of`
/// runs for each reference, and seldom comes to it.
#[inline(never)]
fn row_by_hand(
    pages: &IndexSet<u64, PageHasher>,
    at_hand: &mut [PageRow; AT_HAND],
    page: u64,
) -> usize
    requires { All (HasRow pages.now.keys) at_hand.old }
    ensures row { result ≡ rows.row_of pages.now.keys page }
    ensures within { result ≤ length pages.now.keys }
    ensures at_hand { All (HasRow pages.now.keys) at_hand.new }
{
    let place = (page / 8) as usize % AT_HAND;
    let kept = at_hand[place];
    if kept.page == page {
        return kept.row;
    }
    let row = row_of(pages, page);
    at_hand[place] = PageRow { page, row };
    row
}

/// The row of a page, one past the last where it has none: the one that the directory tells, or one that is at hand afterwards.
#[inline(always)]
fn row_of_page(
    directory: &Directory,
    pages: &IndexSet<u64, PageHasher>,
    at_hand: &mut [PageRow; AT_HAND],
    page: u64,
) -> usize
    requires told { TellsRows pages.now.keys directory.now }
    requires rows { All (HasRow pages.now.keys) at_hand.old }
    ensures row { result ≡ rows.row_of pages.now.keys page }
    ensures within { result ≤ length pages.now.keys }
    ensures at_hand { All (HasRow pages.now.keys) at_hand.new }
{
    match directory.row_of(page) {
        Some(row) => row,
        None => row_by_hand(pages, at_hand, page),
    }
}

impl<'a> Model for NearIds<'a> {
    ghost use Rattle.std.specs.Prelude.{ℕ, List};
    ghost use Rattle.hd_ids.specs.AtHand.{AreAtHand};
    ghost use Rattle.hd_ids.specs.Rows.{ids_in};

    ghost Value = { List ℕ };

    ghost view = { λ a. ids_in a.pages.now.keys a.slots.now };

    ghost invariant = { λ a. AreAtHand a.pages.now.keys a.numbers.now (ids_in a.pages.now.keys a.slots.now) a.directory.now a.at_hand };
}

impl<'a> NearIds<'a> {
    /// Finds the IDs whose numbers stand in these slots by rows of numbers, of which the directory tells some. One row is at hand at
    /// first, that of a page.
    pub(crate) fn new(
        slots: &'a [u32],
        pages: &'a IndexSet<u64, PageHasher>,
        numbers: &'a Numbers,
        directory: &'a Directory,
        page: u64,
        row: usize,
    ) -> NearIds<'a>
        requires rows { rows.AreRows pages.now.keys numbers.now (rows.ids_in pages.now.keys slots.now) page row }
        requires told { TellsRows pages.now.keys directory.now }
        ensures { result ≡ rows.ids_in pages.now.keys slots.now }
    {
        NearIds {
            slots,
            pages,
            numbers,
            directory,
            at_hand: [PageRow { page, row }; AT_HAND],
        }
    }

    /// The number of an ID, if it is one of them.
    #[inline(always)]
    pub(crate) fn index_of(&mut self, id: u64) -> Option<usize>
        ensures first { result ≡ position (λ x. id == x) self.old }
        ensures same { self.new ≡ self.old }
    {
        let row = row_of_page(self.directory, self.pages, &mut self.at_hand, page_of(id));
        (number_in(self.numbers, row, id) as usize).checked_sub(1)
    }
}
