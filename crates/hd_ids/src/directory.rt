//! The rows of pages, by where the pages lie in the heap.
ghost use Rattle.std.specs.Prelude.{◌≡◌, ◌⊎◌, nat_eq, ℕ, ◌+◌, ◌-◌, ◌<◌, ◌^◌, length, IfSome};
ghost use Rattle.std.specs.List.{IsDistinct};
ghost use Rattle.hd_ids.specs.Directory.{told, TellsRows};

use std::alloc::{AllocError, Global};
use std::marker::Model;

/// How many entries there may be for each page that has a row: pages lie in a part of the heap, mostly close to one another.
const MOST_SPREAD: u64 = 16;

/// The row of each page of IDs that are multiples of 8, by where the page lies in the heap.
///
/// A row is found by one look. What is told is right, but not all is told: nothing where the pages lie far apart, or memory ran out.
pub(crate) struct Directory {
    /// The first page that has an entry, by 8.
    first: u64,
    /// For each page from the first on one more than its row, or 0.
    rows: Vec<u32>,
}

impl Drop for Directory {
    /// Drops the fields. A derived drop would be proved anew at each place that lets go of one.
    fn drop(self) {
        let Self { first: _, rows } = self;
    }
}

impl Model for Directory {
    ghost use Rattle.hd_ids.specs.Directory.{Entries};

    ghost Value = { Entries };

    ghost view = { λ d. record { first = d.first; rows = d.rows.items } };
}

/// The first and the last of some pages, each by 8. Of no pages the first is greater than the last.
fn bounds(pages: &[u64]) -> (u64, u64) {
    let (mut first, mut last) = (0xffff_ffff_ffff_ffff, 0);
    for i in 0..pages.len() {
        first = first.min(pages[i] / 8);
        last = last.max(pages[i] / 8);
    }
    (first, last)
}

impl Directory {
    /// A directory that tells nothing.
    pub(crate) fn none(alloc: Global) -> Directory
        ensures { (page : ℕ) → told result page ≡ 0 }
    {
        Directory {
            first: 0,
            rows: Vec::new(alloc),
        }
    }

    /// A directory with an entry for each page from the first of these to the last, which tells nothing yet. Where they lie far apart, or
    /// memory runs out, it has none.
    fn over(alloc: Global, pages: &[u64]) -> Directory
        ensures { (page : ℕ) → told result page ≡ 0 }
    {
        let (first, last) = bounds(pages);
        let span = last.saturating_sub(first).saturating_add(1);
        let mut rows = Vec::new(alloc);
        if span <= (pages.len() as u64).saturating_mul(MOST_SPREAD) {
            let _ = rows.resize(span as usize, 0);
        }
        Directory { first, rows }
    }

    /// The rows of these pages, which are in the order of their rows.
    pub(crate) fn of(alloc: Global, pages: &[u64]) -> Directory
        requires distinct { IsDistinct nat_eq pages.now }
        requires few { length pages.now < 2 ^ 31 }
        ensures { TellsRows pages.now result }
    {
        let mut directory = Directory::over(alloc, pages);
        for row in 0..pages.len() {
            directory.note(pages[row], row);
        }
        directory
    }

    /// Notes the row of a page, if there is an entry for it.
    fn note(&mut self, page: u64, row: usize)
        requires few { row < 2 ^ 31 }
        ensures { (p r : ℕ) → told self.new p ≡ r + 1 → ((p ≡ page) × (r ≡ row)) ⊎ (told self.old p ≡ r + 1) }
    {
        if page % 8 == 0
            && let Some(place) = (page / 8).checked_sub(self.first)
            && let Some(entry) = self.rows.get_mut(place as usize)
        {
            *entry = row as u32 + 1;
        }
    }

    /// The row of a page, if it is told.
    #[inline(always)]
    pub(crate) fn row_of(&self, page: u64) -> Option<usize>
        ensures { IfSome result (λ row. told self.now page ≡ row + 1) }
    {
        if page % 8 != 0 {
            return None;
        }
        let place = (page / 8).checked_sub(self.first)?;
        let entry = *self.rows.get(place as usize)?;
        (entry as usize).checked_sub(1)
    }
}
