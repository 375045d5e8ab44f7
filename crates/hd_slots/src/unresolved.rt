//! The references of the objects of one part as the file has them: the offset of each ID, row by row.
ghost use Rattle.std.specs.Prelude.{◌≡◌, ◌+◌, ◌<◌, ◌-◌, ◌^◌, [], ◌∷◌, ◌++◌, length, map, All, IfOk, OnOk, IsTrue, ◌↔◌, Some, slice_get};
ghost use Rattle.std.specs.Arc.{arc_value};
ghost use Rattle.hd_terms.specs.Records.{id_len};
ghost use Rattle.hd_slots.specs.Table.{id_at, IsIdWithin};

use crate::resolved_rows::ResolvedRows;
use crate::resolving::{SHARED, resolve_offsets};
use crate::shared::SharedIds;
use hd_ids::ObjectIds;
use hd_terms::IdSize;
use std::alloc::{AllocError, Global};
use std::marker::Model;
use std::sync::Arc;
use std::thread::Threads;

/// From how many bytes on a file is large: there is room at once for IDs in all of it. In a smaller one there is room for IDs in half of
/// it. Few have more, and what is left of a large page at the end of the list would show beside the file.
const LARGE: usize = 1 << 26;

/// The references of objects as the file has them: for each object a row of IDs, each kept as its offset in the file, in four
/// bytes. IDs that many slots have are kept as their place in a list of their offsets, so that each is looked up once.
pub struct UnresolvedSlots<'a> {
    bytes: &'a [u8],
    id_size: IdSize,
    ids: Arc<ObjectIds>,
    starts: Vec<u32>,
    /// Of each slot the offset of its ID, or `SHARED` and an index of the shared ones.
    items: Vec<u32>,
    shared: SharedIds,
}

impl Drop for UnresolvedSlots<'_> {
    /// Drops the fields. A derived drop would be proved anew at each place that lets go of one.
    fn drop(self) {
        let Self {
            bytes: _,
            id_size: _,
            ids,
            starts,
            items,
            shared,
        } = self;
    }
}

impl<'a> Model for UnresolvedSlots<'a> {
    ghost use Rattle.hd_slots.specs.Table.{Table};

    ghost Value = { Table };

    ghost use Rattle.hd_slots.specs.UnresolvedInside.{table_of, IsUnresolved};

    ghost view = { table_of };

    ghost invariant = { IsUnresolved };
}

impl<'a> UnresolvedSlots<'a> {
    /// No rows yet, over the objects of these IDs, in the order of their numbers. There is room for the starts of `rows` rows, and,
    /// where the system has it, for as many IDs as would fill the file, or half of one that isn't large.
    pub fn new(
        alloc: Global,
        bytes: &'a [u8],
        id_size: IdSize,
        ids: Arc<ObjectIds>,
        rows: usize,
    ) -> Result<UnresolvedSlots<'a>, AllocError>
        requires small { length bytes.now < 2 ^ 31 }
        requires few { length (arc_value ids) < 2 ^ 31 }
        requires no_null { All (λ id. 0 < id) (arc_value ids) }
        ensures { IfOk result (λ t. t ≡ record { bytes = bytes.now; size = id_size; ids = arc_value ids; rows = []; filling = []; count = 0 }) }
    {
        let mut starts = Vec::with_capacity(alloc, rows.saturating_add(1))?;
        starts.push(0)?;
        let mut items = Vec::new(alloc);
        // So the list of a large file needn't move as it grows, and that of a smaller one seldom does. Room that isn't touched
        // takes no memory.
        let all = bytes.len() / id_size.bytes();
        let room = if bytes.len() < LARGE { all / 2 } else { all };
        let _ = items.reserve(room);
        Ok(UnresolvedSlots {
            bytes,
            id_size,
            ids,
            starts,
            items,
            shared: SharedIds::none(alloc),
        })
    }

    /// The size of an identifier in the file, which has fewer than 2^31 bytes.
    pub fn id_size(&self) -> IdSize
        ensures size { result ≡ self.now.size }
        ensures small { length self.now.bytes < 2 ^ 31 }
    {
        self.id_size
    }

    /// The bytes of an identifier, 4 or 8, in a file that has fewer than 2^31 bytes.
    pub fn id_len(&self) -> u32
        ensures len { result ≡ id_len self.now.size }
        ensures small { length self.now.bytes < 2 ^ 31 }
    {
        match self.id_size {
            IdSize::Four => 4,
            IdSize::Eight => 8,
        }
    }

    /// Adds the ID at an offset of the file, 0 for null, to the row that is being filled.
    pub fn push(&mut self, offset: u64) -> Result<(), AllocError>
        requires within { IsIdWithin self.old.size (length self.old.bytes) offset }
        requires room { length self.old.ids + self.old.count < 2 ^ 32 - 1 }
        ensures { OnOk result (self.new ≡ record self.old { filling = self.old.filling ++ id_at self.old.bytes self.old.size offset ∷ []; count = self.old.count + 1 }) }
    {
        self.items.push(offset as u32)?;
        Ok(())
    }

    /// Adds the IDs at these places behind an offset of the file, 0 for null, to the row that is being filled.
    #[inline(always)]
    pub fn push_all(&mut self, start: u32, places: &[u32]) -> Result<(), AllocError>
        requires within { All (λ place. IsIdWithin self.old.size (length self.old.bytes) (start + place)) places.now }
        requires room { length self.old.ids + self.old.count + length places.now < 2 ^ 32 }
        ensures { OnOk result (self.new ≡ record self.old { filling = self.old.filling ++ map (λ place. id_at self.old.bytes self.old.size (start + place)) places.now; count = self.old.count + length places.now }) }
    {
        for i in 0..places.len() {
            self.push(u64::from(start) + u64::from(places[i]))?;
        }
        Ok(())
    }

    /// Notes that an ID, which lies at an offset of the file, will come again with a key.
    fn note_shared(&mut self, key: usize, id: u64, offset: u64) -> Result<(), AllocError>
        requires within { IsIdWithin self.old.size (length self.old.bytes) offset }
        requires id { id ≡ id_at self.old.bytes self.old.size offset }
        ensures { OnOk result (self.new ≡ self.old) }
    {
        self.shared.note(key, id, offset as u32)?;
        Ok(())
    }

    /// Adds the ID at an offset of the file, 0 for null, to the row that is being filled, as `push` does. It is looked up once for all
    /// that have the same key, as long as they have the same ID. Keys are numbers from 0 on, as those of classes.
    #[inline(always)]
    pub fn push_shared(&mut self, key: usize, id: u64, offset: u64) -> Result<(), AllocError>
        requires within { IsIdWithin self.old.size (length self.old.bytes) offset }
        requires id { id ≡ id_at self.old.bytes self.old.size offset }
        requires room { length self.old.ids + self.old.count < 2 ^ 32 - 1 }
        ensures { OnOk result (self.new ≡ record self.old { filling = self.old.filling ++ id ∷ []; count = self.old.count + 1 }) }
    {
        if let Some(index) = self.shared.index_of(key, id) {
            self.items.push(SHARED + index)?;
            return Ok(());
        }
        self.note_shared(key, id, offset)?;
        self.push(offset)?;
        Ok(())
    }

    /// Ends the row that is being filled, and begins the next.
    pub fn end_row(&mut self) -> Result<(), AllocError>
        ensures { OnOk result (self.new ≡ record self.old { rows = self.old.rows ++ self.old.filling ∷ []; filling = [] }) }
    {
        let start = self.items.len() as u32;
        self.starts.push(start)?;
        Ok(())
    }

    /// Whether the next row is that of the object with an ID.
    pub fn is_next(&self, id: u64) -> bool
        ensures { IsTrue result ↔ (slice_get self.now.ids (length self.now.rows) ≡ Some id) }
    {
        let next = self.starts.len() - 1;
        next < self.ids.len() && self.ids.get(next) == id
    }

    /// The IDs of the objects, which are shared.
    pub(crate) fn share_ids(&self) -> Result<Arc<ObjectIds>, AllocError>
        ensures ids { IfOk result (λ ids. arc_value ids ≡ self.now.ids) }
        ensures few { IfOk result (λ ids. length (arc_value ids) < 2 ^ 31) }
    {
        let ids = Arc::try_clone(&self.ids)?;
        Ok(ids)
    }

    /// The same rows, over the objects of these IDs.
    pub(crate) fn with_ids(self, ids: Arc<ObjectIds>) -> UnresolvedSlots<'a>
        requires few { length (arc_value ids) < 2 ^ 31 }
        requires no_null { All (λ id. 0 < id) (arc_value ids) }
        requires room { length (arc_value ids) + self.count < 2 ^ 32 }
        ensures { result ≡ record self.entry { ids = arc_value ids } }
    {
        let Self {
            bytes,
            id_size,
            ids: before,
            starts,
            items,
            shared,
        } = self;
        drop(before);
        UnresolvedSlots {
            bytes,
            id_size,
            ids,
            starts,
            items,
            shared,
        }
    }

    /// The rows by numbers of objects, which are looked for on all processors. No row is being filled.
    pub(crate) fn resolve<R: Threads + Sync>(
        self,
        rt: &R,
        alloc: Global,
    ) -> Result<ResolvedRows, AllocError>
        requires filled { self.filling ≡ [] }
        ensures { IfOk result (λ t. t ≡ record { ids = self.entry.ids; rows = self.entry.rows }) }
    {
        let Self {
            bytes,
            id_size,
            ids,
            starts,
            mut items,
            shared,
        } = self;
        let mut shared = shared.into_offsets();
        let absent = resolve_offsets(
            rt,
            alloc,
            &ids,
            id_size,
            bytes,
            shared.as_mut_slice(),
            items.as_mut_slice(),
        )?;
        let slot_table = ResolvedRows::new(ids, starts, items, absent);
        Ok(slot_table)
    }
}
