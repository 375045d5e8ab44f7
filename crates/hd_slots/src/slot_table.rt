//! The references of all objects by the numbers of the objects referred to, row by row.
ghost use Rattle.std.specs.Prelude.{◌≡◌, ℕ, ◌<◌, ◌≤◌, ◌==◌, length, map, position, slice_index, Some, IfOk};
ghost use Rattle.std.specs.Arc.{arc_value};
ghost use Rattle.hd_slots.specs.Cuts.{last_from};
ghost use Rattle.hd_slots.specs.Table.{Rows, row_at, known_in, absent_in};
ghost use Rattle.hd_slots.specs.JoinedInside.{joined_rows, AreOfOneDump};

use crate::counting::IdCounts;
use crate::resolved_rows::ResolvedRows;
use crate::targets::Targets;
use hd_ids::ObjectIds;
use hd_parts::PartIndex;
use std::alloc::{AllocError, Global};
use std::marker::Model;
use std::sync::Arc;

/// The references of all objects, a row of IDs for each, in parts: the rows of each part lie behind those of the one before.
#[derive(Drop)]
pub struct SlotTable {
    ids: Arc<ObjectIds>,
    parts: Vec<ResolvedRows>,
    /// How many rows each part has.
    index: PartIndex,
}

impl Model for SlotTable {
    ghost use Rattle.std.specs.Arc.{arc_value};
    ghost use Rattle.hd_slots.specs.Table.{Rows};
    ghost use Rattle.hd_slots.specs.JoinedInside.{joined_rows, AreIndexed};

    ghost Value = { Rows };

    ghost view = { λ a. joined_rows (arc_value a.ids) a.parts.items };

    ghost invariant = { λ a. AreIndexed (arc_value a.ids) a.parts.items a.index };
}

/// How many rows each part has.
fn lens_of(alloc: Global, parts: &[ResolvedRows]) -> Result<Vec<usize>, AllocError>
    ensures { IfOk result (λ lens. lens.items ≡ map (λ (t : Rows). length t.rows) parts.now) }
{
    let mut lens = Vec::with_capacity(alloc, parts.len())?;
    for part in parts {
        lens.push(part.rows())?;
    }
    Ok(lens)
}

impl SlotTable {
    /// The rows of all parts, 1 to 256 of them, which are over these IDs.
    pub(crate) fn new(
        alloc: Global,
        ids: Arc<ObjectIds>,
        parts: Vec<ResolvedRows>,
    ) -> Result<SlotTable, AllocError>
        requires { AreOfOneDump (arc_value ids) parts.items }
        ensures { IfOk result (λ t. t ≡ joined_rows (arc_value ids) parts.items) }
    {
        let lens = lens_of(alloc, parts.as_slice())?;
        let index = PartIndex::of(alloc, lens.as_slice())?;
        Ok(SlotTable { ids, parts, index })
    }

    /// How many objects there are.
    pub fn objects(&self) -> usize
        ensures { result ≡ length self.now.ids }
    {
        self.ids.len()
    }

    /// The ID of the object of a number.
    pub fn id_of(&self, o: u32) -> u64
        requires { o < length self.now.ids }
        ensures { result ≡ slice_index self.now.ids o }
    {
        self.ids.get(o as usize)
    }

    /// The number of the object with an ID. No two objects have one ID.
    pub fn index_of(&self, id: u64) -> Option<u32>
        ensures first { result ≡ position (λ x. id == x) self.now.ids }
        ensures distinct { (o : ℕ) → o < length self.now.ids → slice_index self.now.ids o ≡ id → result ≡ Some o }
    {
        match self.ids.index_of(id) {
            Some(object) => Some(object as u32),
            None => None,
        }
    }

    /// The part that has the row of an object, and the number of the row there.
    #[inline(always)]
    fn place(&self, o: u32) -> (&ResolvedRows, u32)
        requires { o < length self.now.rows }
        ensures ids { result.0.now.ids ≡ self.now.ids }
        ensures within { result.1 < length result.0.now.rows }
        ensures same { row_at result.0.now result.1 ≡ row_at self.now o }
    {
        let (part, first) = self.index.find(o);
        (&self.parts[part], o - first)
    }

    /// How many IDs the row of an object has.
    pub fn row_len(&self, o: u32) -> u32
        requires { o < length self.now.rows }
        ensures { result ≡ length (row_at self.now o) }
    {
        let (part, o) = self.place(o);
        part.row_len(o)
    }

    /// The objects that the row of an object refers to, ID by ID.
    #[inline(always)]
    pub fn targets(&self, o: u32) -> Targets<'_>
        requires { o < length self.now.rows }
        ensures { result ≡ map (λ id. position (λ x. id == x) self.now.ids) (row_at self.now o) }
    {
        let (part, o) = self.place(o);
        part.targets(o)
    }

    /// The ID at an index of an object's row, and the number of its object, if it is one's.
    pub fn get(&self, o: u32, i: u32) -> (u64, Option<u32>)
        requires row { o < length self.now.rows }
        requires index { i < length (row_at self.now o) }
        ensures id { result.0 ≡ slice_index (row_at self.now o) i }
        ensures target { result.1 ≡ position (λ x. result.0 == x) self.now.ids }
    {
        let (part, o) = self.place(o);
        part.get(o, i)
    }

    /// How many IDs of all rows are objects', and how many are others'.
    pub fn counts(&self) -> IdCounts
        ensures objects { result.objects ≡ known_in self.now }
        ensures others { result.others ≡ absent_in self.now }
    {
        let mut counts = IdCounts {
            objects: 0,
            others: 0,
        };
        for part in self.parts.as_slice() {
            let more = part.counts();
            counts.objects += more.objects;
            counts.others += more.others;
        }
        counts
    }

    /// The last ID of an object's row, 0 where it has none.
    pub fn last(&self, o: u32) -> u64
        requires { o < length self.now.rows }
        ensures { result ≡ last_from 0 (row_at self.now o) }
    {
        let (part, o) = self.place(o);
        part.last(o)
    }
}
