//! Counting the records that repeat the ID of an earlier one.
ghost use Rattle.std.specs.Prelude.{◌≡◌, ◌+◌, ◌<◌, ◌^◌, not, IfOk, OnOk};
ghost use Rattle.hd_ids.specs.Noted.{is_noted};
ghost use Rattle.hd_classes.specs.Repeats.{NotesId};

use hd_ids::ObjectIds;
use std::alloc::AllocError;

/// How many records have the ID of an earlier one.
#[derive(Clone, Copy)]
pub struct RepeatedRecords {
    /// How many UTF8 records have the ID of an earlier one.
    pub texts: u64,
    /// How many LOAD CLASS records load a class that was loaded before.
    pub loads: u64,
}

/// Notes an ID, and counts it if it was noted before. Answers whether it is new.
///
/// # Errors
///
/// Memory ran out.
#[inline(always)]
pub fn note_id(ids: &mut ObjectIds, repeated: &mut u64, id: u64) -> Result<bool, AllocError>
    requires { repeated.old + 1 < 2 ^ 64 }
    ensures noted { OnOk result (NotesId id ids.old repeated.old ids.new repeated.new) }
    ensures is_new { IfOk result (λ new. new ≡ not (is_noted ids.old id)) }
{
    let new = ids.note(id)?;
    if !new {
        *repeated += 1;
    }
    Ok(new)
}
