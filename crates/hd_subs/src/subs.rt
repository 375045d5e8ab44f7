//! A list of sub-records, of which most are kept by their file offsets alone.
ghost use Rattle.std.specs.Prelude.{◌≡◌, ◌↔◌, ◌-◌, ◌<◌, ◌≤◌, [], length, drop, slice_get, IsTrue, Some, is_some};
ghost use Rattle.std.specs.List.{filter_map};
ghost use Rattle.hd_terms.specs.SubRecords.{Sub as OneSub};
ghost use Rattle.hd_terms.specs.Classes.{class_of_item};
ghost use Rattle.hd_subs.specs.Views.{sub_view};
ghost use Rattle.hd_subs.specs.ClassSubs.{class_of_sub, IsClassAt};

use crate::packed::read_packed;
use crate::sub::Sub;
use crate::sub_rows::SubRows;
use hd_terms::IdSize;
use std::marker::Model;

/// The numbers from this one on are those of rows; the lesser ones are file offsets.
pub(crate) const FIRST_ROW: u32 = 0x8000_0000;

/// Sub-records in file order.
///
/// An instance or an array is kept by the file offset of its tag, in four bytes, and read again from the bytes there. Classes
/// and roots are kept as rows, and so is what has fewer than 25 bytes from its tag to the end of the file.
pub struct Subs<'a> {
    pub(crate) bytes: &'a [u8],
    pub(crate) id_size: IdSize,
    /// Of each sub-record its file offset, or the number of its row.
    pub(crate) entries: Vec<u32>,
    pub(crate) rows: SubRows,
}

impl Drop for Subs<'_> {
    /// Drops the fields. A derived drop would be proved anew at each place that lets go of one.
    fn drop(self) {
        let Self {
            bytes: _,
            id_size: _,
            entries,
            rows,
        } = self;
    }
}

impl<'a> Model for Subs<'a> {
    ghost use Rattle.std.specs.Prelude.{List, map, length, All};
    ghost use Rattle.hd_terms.specs.SubRecords.{Sub};
    ghost use Rattle.hd_subs.specs.Packed.{sub_of_entry, IsEntry};

    ghost Value = { List Sub };

    ghost view = { λ s. map (sub_of_entry s.id_size s.bytes.now s.rows) s.entries.items };

    ghost invariant = { λ s. All (IsEntry (length s.bytes.now) (length s.rows)) s.entries.items };
}

impl<'a> Subs<'a> {
    /// How many there are.
    pub fn len(&self) -> usize
        ensures { result ≡ length self.now }
    {
        self.entries.len()
    }

    /// Whether there is none.
    pub fn is_empty(&self) -> bool
        ensures { IsTrue result ↔ (self.now ≡ []) }
    {
        self.entries.is_empty()
    }

    /// One of them; they are numbered from 0.
    #[inline(always)]
    pub fn get(&self, i: usize) -> Sub<'_>
        requires { i < length self.now }
        ensures { slice_get self.now i ≡ Some (sub_view result) }
    {
        let entry = self.entries[i];
        if entry < FIRST_ROW {
            return Sub {
                offset: u64::from(entry),
                item: read_packed(self.bytes, self.id_size, entry),
            };
        }
        self.rows.get((entry - FIRST_ROW) as usize)
    }

    /// Whether one of them is a class. The file isn't read for it: classes are rows.
    fn is_class(&self, i: usize) -> bool
        requires { i < length self.now }
        ensures { (s : OneSub) → slice_get self.now i ≡ Some s → result ≡ is_some (class_of_item s.item) }
    {
        match self.entries[i].checked_sub(FIRST_ROW) {
            Some(row) => self.rows.get(row as usize).item.is_class(),
            None => false,
        }
    }

    /// How many there are up to and with the last class, or 0 where none is a class. Where no row is one, none is looked at.
    pub(crate) fn classes_end(&self) -> usize
        ensures within { result ≤ length self.now }
        ensures last { 0 < result → IsClassAt self.now (result - 1) }
        ensures none_after { filter_map class_of_sub (drop result self.now) ≡ [] }
    {
        if self.rows.lacks_classes() {
            return 0;
        }
        let mut end = self.len();
        while end > 0 {
            if self.is_class(end - 1) {
                return end;
            }
            end -= 1;
        }
        0
    }
}
