//! The references of some objects by the numbers of the objects referred to, row by row.
ghost use Rattle.std.specs.Prelude.{◌≡◌, ℕ, ◌+◌, ◌<◌, ◌-◌, ◌^◌, ◌==◌, length, map, position, slice_index, Some};
ghost use Rattle.hd_slots.specs.Cuts.{last_from};
ghost use Rattle.std.specs.Arc.{arc_value};
ghost use Rattle.hd_slots.specs.Table.{row_at, known_in, absent_in};
ghost use Rattle.hd_slots.specs.Codes.{IsCode, id_of_code, target_of_code};
ghost use Rattle.hd_slots.specs.Parts.{rows_of, AreParts};

use crate::counting::{IdCounts, count_codes};
use crate::targets::Targets;
use hd_ids::ObjectIds;
use std::marker::Model;
use std::sync::Arc;

/// Stands for null in a slot.
pub(crate) const NULL: u32 = 0xffff_ffff;

/// The references of some objects: for each object a row of IDs, each kept as a number of four bytes. A number below that
/// of the objects is the object's; `NULL` is null; any other stands for an ID that is no object's.
pub(crate) struct ResolvedRows {
    ids: Arc<ObjectIds>,
    starts: Vec<u32>,
    items: Vec<u32>,
    absent: Vec<u64>,
    /// How many objects there are.
    objects: usize,
}

impl Drop for ResolvedRows {
    /// Drops the fields. A derived drop would be proved anew at each place that lets go of one.
    fn drop(self) {
        let Self {
            ids,
            starts,
            items,
            absent,
            objects: _,
        } = self;
    }
}

impl Model for ResolvedRows {
    ghost use Rattle.hd_slots.specs.Table.{Rows};

    ghost Value = { Rows };

    ghost use Rattle.hd_slots.specs.Inside.{rows_in, AreRows};

    ghost view = { rows_in };

    ghost invariant = { AreRows };
}

/// The ID that a number stands for, and the number of its object, if it is one's.
fn read_code(ids: &ObjectIds, absent: &[u64], code: u32) -> (u64, Option<u32>)
    requires few { length ids.now < 2 ^ 32 - 1 }
    requires is { IsCode ids.now absent.now code }
    ensures id { result.0 ≡ id_of_code ids.now absent.now code }
    ensures target { result.1 ≡ target_of_code ids.now code }
{
    if code == NULL {
        return (0, None);
    }
    let index = code as usize;
    if index < ids.len() {
        (ids.get(index), Some(code))
    } else {
        (absent[index - ids.len()], None)
    }
}

impl ResolvedRows {
    /// The references of the objects of these IDs: rows that start at these indexes of one list of numbers.
    pub(crate) fn new(
        ids: Arc<ObjectIds>,
        starts: Vec<u32>,
        items: Vec<u32>,
        absent: Vec<u64>,
    ) -> ResolvedRows
        requires { AreParts (arc_value ids) starts.items items.items absent.items }
        ensures { result ≡ rows_of (arc_value ids) starts.items items.items absent.items }
    {
        let objects = ids.len();
        ResolvedRows {
            ids,
            starts,
            items,
            absent,
            objects,
        }
    }

    /// How many rows there are.
    pub(crate) fn rows(&self) -> usize
        ensures len { result ≡ length self.now.rows }
        ensures few { result < 2 ^ 62 }
    {
        self.starts.as_slice().len() - 1
    }

    /// How many IDs the row of an object has.
    pub(crate) fn row_len(&self, o: u32) -> u32
        requires { o < length self.now.rows }
        ensures { result ≡ length (row_at self.now o) }
    {
        let starts = self.starts.as_slice();
        starts[o as usize + 1].saturating_sub(starts[o as usize])
    }

    /// The objects that the row of an object refers to, ID by ID.
    #[inline(always)]
    pub(crate) fn targets(&self, o: u32) -> Targets<'_>
        requires { o < length self.now.rows }
        ensures { result ≡ map (λ id. position (λ x. id == x) self.now.ids) (row_at self.now o) }
    {
        let start = self.starts.as_slice()[o as usize] as usize;
        let len = self.row_len(o) as usize;
        Targets::new(&self.items.as_slice()[start..start + len], self.objects)
    }

    /// The ID at an index of an object's row, and the number of its object, if it is one's.
    pub(crate) fn get(&self, o: u32, i: u32) -> (u64, Option<u32>)
        requires row { o < length self.now.rows }
        requires index { i < length (row_at self.now o) }
        ensures id { result.0 ≡ slice_index (row_at self.now o) i }
        ensures target { result.1 ≡ position (λ x. result.0 == x) self.now.ids }
    {
        let start = self.starts.as_slice()[o as usize] as usize;
        let code = self.items.as_slice()[start + i as usize];
        read_code(&self.ids, self.absent.as_slice(), code)
    }

    /// How many IDs of all rows are objects', and how many are others'.
    pub(crate) fn counts(&self) -> IdCounts
        ensures objects { result.objects ≡ known_in self.now }
        ensures others { result.others ≡ absent_in self.now }
        ensures few { (result.objects < 2 ^ 32) × (result.others < 2 ^ 32) }
    {
        count_codes(&self.ids, self.absent.as_slice(), self.items.as_slice())
    }

    /// The last ID of an object's row, 0 where it has none.
    pub(crate) fn last(&self, o: u32) -> u64
        requires { o < length self.now.rows }
        ensures { result ≡ last_from 0 (row_at self.now o) }
    {
        match self.row_len(o) {
            0 => 0,
            len => self.get(o, len - 1).0,
        }
    }
}
