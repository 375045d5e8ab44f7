//! The references of all parts of the objects, as the file has them.
ghost use Rattle.std.specs.Prelude.{◌≡◌, ◌+◌, ◌<◌, ◌^◌, [], length, map, All, IfOk, Ok};
ghost use Rattle.hd_slots.specs.JoinedInside.{joined_table, rows_in, AreOfOneFile};
ghost use Rattle.hd_slots.specs.Table.{Rows};

use crate::resolved_rows::ResolvedRows;
use crate::slot_table::SlotTable;
use crate::unresolved::UnresolvedSlots;
use hd_ids::ObjectIds;
use std::alloc::{AllocError, Global};
use std::marker::Model;
use std::sync::Arc;
use std::thread::{Threads, map_vec};

/// The references of objects as the file has them, in parts: the rows of each part lie behind those of the one before.
///
/// Each part is made by a thread of its own, and nothing has to be copied where the parts are put together.
#[derive(Drop)]
pub struct JoinedRows<'a> {
    parts: Vec<UnresolvedSlots<'a>>,
}

impl<'a> Model for JoinedRows<'a> {
    ghost use Rattle.hd_slots.specs.Table.{Table};
    ghost use Rattle.hd_slots.specs.JoinedInside.{joined_table, AreOfOneFile};

    ghost Value = { Table };

    ghost view = { λ a. joined_table a.parts.items };

    ghost invariant = { λ a. AreOfOneFile a.parts.items };
}

/// The resolved rows of all parts, if memory didn't run out in any.
fn all_resolved(
    alloc: Global,
    parts: Vec<Result<ResolvedRows, AllocError>>,
) -> Result<Vec<ResolvedRows>, AllocError>
    ensures { IfOk result (λ all. parts.items ≡ map (λ (t : Rows). Ok t) all.items) }
{
    let mut all = Vec::with_capacity(alloc, parts.len())?;
    for part in parts {
        all.push(part?)?;
    }
    Ok(all)
}

impl<'a> JoinedRows<'a> {
    /// The rows of all parts, 1 to 256 of them, which are over the same IDs and of the same file. No row is being filled.
    pub fn join(parts: Vec<UnresolvedSlots<'a>>) -> JoinedRows<'a>
        requires { AreOfOneFile parts.items }
        ensures { result ≡ joined_table parts.entry.items }
    {
        JoinedRows { parts }
    }

    /// The same rows, over the objects of these IDs.
    ///
    /// # Errors
    ///
    /// Out of memory.
    pub fn with_ids(self, alloc: Global, ids: ObjectIds) -> Result<JoinedRows<'a>, AllocError>
        requires few { length ids < 2 ^ 31 }
        requires no_null { All (λ id. 0 < id) ids }
        requires room { length ids + self.count < 2 ^ 32 }
        ensures { IfOk result (λ t. t ≡ record self.entry { ids = ids }) }
    {
        let Self { parts } = self;
        let ids = Arc::new(alloc, ids)?;
        let mut numbered = Vec::with_capacity(alloc, parts.len())?;
        for part in parts {
            let ids = Arc::try_clone(&ids)?;
            numbered.push(part.with_ids(ids))?;
        }
        Ok(JoinedRows { parts: numbered })
    }

    /// The rows by numbers of objects, which are looked for on all processors, those of all parts side by side.
    ///
    /// # Errors
    ///
    /// Out of memory.
    pub fn resolve<R: Threads + Sync>(self, rt: &R, alloc: Global) -> Result<SlotTable, AllocError>
        ensures { IfOk result (λ t. t ≡ record { ids = self.entry.ids; rows = self.entry.rows }) }
    {
        let Self { parts } = self;
        let ids = parts[0].share_ids()?;
        let resolved = map_vec(
            rt,
            parts,
            &|part: UnresolvedSlots<'_>| -> Result<ResolvedRows, AllocError>
                requires { part.filling ≡ [] }
                ensures { IfOk result (λ t. t ≡ rows_in part.entry) }
            { part.resolve(rt, alloc) },
        )?;
        let parts = all_resolved(alloc, resolved)?;
        let slot_table = SlotTable::new(alloc, ids, parts)?;
        Ok(slot_table)
    }
}
