//! IDs by pages of the heap.
ghost use Rattle.std.specs.Prelude.{◌≡◌, nat_eq, ◌+◌, ◌*◌, ◌<◌, ◌≤◌, ◌^◌, ◌==◌, ℕ, [], length, not, position, Some, slice_index, true, IfOk, OnOk, OnErr, IfSome, IfNone};
ghost use Rattle.std.specs.List.{IsDistinct};
ghost use Rattle.hd_ids.specs.Following.{Follows};
ghost use Rattle.hd_ids.specs.Noted.{is_noted, noted};

use crate::directory::Directory;
use crate::following::{add_rows, put_rows, put_slots};
use crate::near::NearIds;
use crate::numbers::{Numbers, ROW};
use crate::plain::PlainIds;
use crate::rows::{add_row, add_slot, id_at, number_at, page_of, place_of, row_after, row_of};
use hd_hashers::PageHasher;
use indexmap::IndexSet;
use std::alloc::{AllocError, Global};
use std::marker::Model;

/// How many numbers the rows have at most, so that a slot of them takes four bytes.
const MOST_NUMBERS: usize = 1 << 32;

/// How many numbers the rows may have for each ID, 2 bits each: fewer bytes than one index of all IDs takes.
const MOST_SPREAD: usize = 64;

/// IDs by pages with others behind them, or why rows don't tell them.
pub(crate) enum Following {
    /// The IDs of both.
    Ids(PagedIds),
    /// An ID is in both.
    Repeated,
    /// The IDs in front, as they were: the rows of both would have too few IDs, or too many numbers.
    Unserved(PagedIds),
}

/// Whether rows serve that have `numbers` numbers for `ids` IDs.
fn serve(numbers: usize, ids: usize) -> bool
    requires { ids < 2 ^ 62 }
    ensures { result ≡ true → (numbers ≤ 2 ^ 32) × (numbers ≤ ids * 64 + 2 ^ 16) × (ids ≤ 2 ^ 31) }
{
    ids <= 1 << 31 && numbers <= (ids * MOST_SPREAD + (1 << 16)).min(MOST_NUMBERS)
}

/// IDs by pages of the heap: the numbers of those of one page stand in one row.
///
/// The rows have at most 64 numbers for each ID and 65,536 more, and 2^32 in all. An ID isn't kept itself: the slot of its number
/// and the page of that row tell it, and take half as much memory.
pub(crate) struct PagedIds {
    alloc: Global,
    secret: u64,
    /// Of each ID the slot in which its number stands.
    slots: Vec<u32>,
    /// The pages of the IDs, in the order of their rows.
    pages: IndexSet<u64, PageHasher>,
    /// Rows of 512: one more than the number of each ID of a page, 0 where there is none.
    numbers: Numbers,
    /// The page that was noted last, and its row.
    last_page: u64,
    last_row: usize,
    /// The rows of the pages by where they lie in the heap. It tells nothing until all IDs are noted.
    directory: Directory,
}

impl Drop for PagedIds {
    /// Drops the fields. A derived drop would be proved anew at each place that lets go of one.
    fn drop(self) {
        let Self {
            alloc: _,
            secret: _,
            slots,
            pages,
            numbers,
            last_page: _,
            last_row: _,
            directory,
        } = self;
    }
}

impl Model for PagedIds {
    ghost use Rattle.std.specs.Prelude.{ℕ, List};
    ghost use Rattle.hd_ids.specs.Directory.{AreIndexed};
    ghost use Rattle.hd_ids.specs.Rows.{ids_in};

    ghost Value = { List ℕ };

    ghost view = { λ a. ids_in a.pages.keys a.slots.items };

    ghost invariant = { λ a. AreIndexed a.pages.keys a.numbers a.slots.items a.last_page a.last_row a.directory };
}

impl PagedIds {
    /// No IDs yet, with room for `room` of them in their list, and no rows. Where the system has it, there is room for their rows.
    pub(crate) fn with_capacity(
        alloc: Global,
        room: usize,
        secret: u64,
    ) -> Result<PagedIds, AllocError>
        ensures { IfOk result (λ ids. ids ≡ []) }
    {
        let slots = Vec::with_capacity(alloc, room)?;
        // More than the rows of `room` IDs have where these lie close.
        let numbers = Numbers::with_room(alloc, room.saturating_mul(8).saturating_add(1 << 16));
        Ok(PagedIds {
            alloc,
            secret,
            slots,
            pages: IndexSet::with_hasher(alloc, PageHasher::new(secret)),
            numbers,
            last_page: 0,
            last_row: 0,
            directory: Directory::none(alloc),
        })
    }

    /// How many IDs there are, fewer than 2^60. No two are alike.
    pub(crate) fn len(&self) -> usize
        ensures len { result ≡ length self.now }
        ensures few { result < 2 ^ 60 }
        ensures distinct { IsDistinct nat_eq self.now }
    {
        self.slots.len()
    }

    /// The ID of a number.
    #[inline(always)]
    pub(crate) fn get(&self, number: usize) -> u64
        requires { number < length self.now }
        ensures { result ≡ slice_index self.now number }
    {
        let slot = self.slots[number] as usize;
        id_at(self.pages.as_slice()[slot / ROW], slot % ROW)
    }

    /// The number of an ID, if it was noted.
    pub(crate) fn index_of(&self, id: u64) -> Option<usize>
        ensures first { result ≡ position (λ x. id == x) self.now }
        ensures distinct { (o : ℕ) → o < length self.now → slice_index self.now o ≡ id → result ≡ Some o }
    {
        (number_at(&self.pages, &self.numbers, id) as usize).checked_sub(1)
    }

    /// What finds the numbers of these IDs, one after another.
    pub(crate) fn near(&self) -> NearIds<'_>
        ensures { result ≡ self.now }
    {
        NearIds::new(
            self.slots.as_slice(),
            &self.pages,
            &self.numbers,
            &self.directory,
            self.last_page,
            self.last_row,
        )
    }

    /// Makes the directory of the rows, by which the IDs that are noted so far are found quicker.
    pub(crate) fn index_rows(&mut self)
        ensures { self.new ≡ self.old }
    {
        self.directory = Directory::of(self.alloc, self.pages.as_slice());
    }

    /// Notes an ID, and answers whether it is new, or `None` where rows don't serve: a further row would have too few IDs, the rows
    /// would have too many numbers, or the ID's number too many bits. Then, and out of memory, nothing is noted.
    #[inline(always)]
    pub(crate) fn note(&mut self, id: u64) -> Result<Option<bool>, AllocError>
        ensures noted { IfOk result (λ answer. IfSome answer (λ new. self.new ≡ noted self.old id)) }
        ensures is_new { IfOk result (λ answer. IfSome answer (λ new. new ≡ not (is_noted self.old id))) }
        ensures none { IfOk result (λ answer. IfNone answer (self.new ≡ self.old)) }
        ensures err { OnErr result (self.new ≡ self.old) }
    {
        if self.slots.len() >= 1 << 31 {
            return Ok(None);
        }
        let page = page_of(id);
        let row = row_after(&self.pages, self.last_page, self.last_row, page);
        self.last_page = page;
        self.last_row = row;
        let slot = row * ROW + place_of(id);
        if slot >= self.numbers.len() {
            if self.numbers.len() + ROW
                > (self.slots.len() * MOST_SPREAD + (1 << 16)).min(MOST_NUMBERS)
            {
                return Ok(None);
            }
            add_row(&mut self.pages, &mut self.numbers, page)?;
            add_slot(&mut self.slots, &mut self.numbers, slot)?;
            return Ok(Some(true));
        }
        if self.numbers.get(slot) != 0 {
            return Ok(Some(false));
        }
        add_slot(&mut self.slots, &mut self.numbers, slot)?;
        Ok(Some(true))
    }

    /// The same IDs by one index of them all, with room for as many as their list.
    fn to_plain(&self) -> Result<PlainIds, AllocError>
        ensures { IfOk result (λ plain. plain ≡ self.now) }
    {
        let room = self.slots.capacity();
        let mut plain = PlainIds::with_capacity(self.alloc, room, self.secret)?;
        for number in 0..self.len() {
            plain.note(self.get(number))?;
        }
        Ok(plain)
    }

    /// The same IDs and a further one by one index of them all, and whether it is new.
    pub(crate) fn to_plain_with(&self, id: u64) -> Result<(PlainIds, bool), AllocError>
        ensures noted { IfOk result (λ r. r.0 ≡ noted self.now id) }
        ensures is_new { IfOk result (λ r. r.1 ≡ not (is_noted self.now id)) }
    {
        let mut plain = self.to_plain()?;
        let new = plain.note(id)?;
        Ok((plain, new))
    }

    /// These IDs, and those of `back` behind them, as far as rows serve for all.
    ///
    /// The rows are put together, mostly a block of 32 places at a time, so that no ID is looked up.
    pub(crate) fn followed_by(self, back: &PagedIds) -> Result<Following, AllocError>
        ensures { IfOk result (Follows self back.now) }
    {
        let ids = self.slots.len() + back.slots.len();
        let base = self.slots.len();
        if base >= 1 << 31 || !serve(self.numbers.len() + back.numbers.len(), ids) {
            return Ok(Following::Unserved(self));
        }
        let Self {
            alloc,
            secret,
            mut slots,
            mut pages,
            mut numbers,
            last_page,
            last_row: _,
            directory,
        } = self;
        drop(directory);
        let rows = add_rows(alloc, &mut pages, &mut numbers, back.pages.as_slice())?;
        let rows = rows.as_slice();
        let last_row = row_of(&pages, last_page);
        if !put_rows(&mut numbers, rows, &back.numbers, base as u32)? {
            return Ok(Following::Repeated);
        }
        put_slots(&mut slots, rows, back.slots.as_slice())?;
        Ok(Following::Ids(PagedIds {
            alloc,
            secret,
            slots,
            pages,
            numbers,
            last_page,
            last_row,
            directory: Directory::none(alloc),
        }))
    }
}
